//! What a message is answered.
ghost use Rattle.std.specs.Prelude.{◌≡◌, ◌≤◌};
ghost use Rattle.dnswire.specs.declared.query_read.QueryRead.TheVariants as reads;
ghost use Rattle.cache_meaning.specs.Held.{nothing_held};
ghost use Rattle.cache_versions.specs.Lends.{seat_in};
ghost use Rattle.cache_versions.specs.Seats.{opening_by, seen_by};
ghost use Rattle.reply_core.specs.Error.{error_octets};
ghost use Rattle.resolver.specs.Caches.{HasOnlyRead, IsSeatOf};
ghost use Rattle.resolver.specs.Replies.{IsSoundAt};
ghost use Rattle.stream_front.specs.Split.{framed};
ghost use Rattle.stream_server.specs.ReplyPlaces.{octets_at};
ghost use Rattle.stream_server.specs.Turn.{IsAnswered, answer_of};

use crate::long_reply;
use crate::reply_places::{Answer, ReplyPlaces};
use cache_versions::VersionRef;
use dnswire::{Head, QueryRead, Question, read_query};
use record_store::Store;
use reply_core::rcode::{BAD_VERSION, FORMAT_ERROR, NOT_IMPLEMENTED, SERVER_FAILURE};
use reply_core::{write_error, write_plain};
use resolver::{CacheSeat, SharedCache};

/// What goes back for a message at a moment, in seconds; nothing for what is no query. A query is answered by the one version that it
/// reads. It takes no memory.
pub(crate) fn answer(
    cache: &SharedCache,
    seat: &mut CacheSeat,
    message: &[u8],
    now: u32,
    places: &mut ReplyPlaces,
) -> Answer
    requires { IsSeatOf cache.now seat.old }
    ensures read { HasOnlyRead cache.now seat.old seat.new }
    ensures answered { IsAnswered (seen_by seat.new) now message.now (octets_at places.new result) }
{
    match read_query(message) {
        QueryRead::Dropped => Answer::Nothing,
        QueryRead::NotImp(head) => fault(&head, NOT_IMPLEMENTED, places),
        QueryRead::FormErr(head) => fault(&head, FORMAT_ERROR, places),
        QueryRead::BadVers(question) => {
            write_plain(&question, BAD_VERSION, &mut places.reply);
            Answer::Short
        }
        QueryRead::Query(question) => query(cache, seat, &question, now, places),
    }
}

// Tells of a fault by a header alone.
fn fault(head: &Head, rcode: u16, places: &mut ReplyPlaces) -> Answer
    requires opcode { head.now.opcode ≤ 15 }
    requires rcode { rcode ≤ 15 }
    ensures { octets_at places.new result ≡ framed (error_octets head.now rcode) }
{
    write_error(head, rcode, &mut places.reply);
    Answer::Short
}

// Asks the cache.
fn query(
    cache: &SharedCache,
    seat: &mut CacheSeat,
    question: &Question,
    now: u32,
    places: &mut ReplyPlaces,
) -> Answer
    requires { IsSeatOf cache.now seat.old }
    ensures read { HasOnlyRead cache.now seat.old seat.new }
    ensures answered { octets_at places.new result
        ≡ answer_of (seen_by seat.new) now (reads.Query question.now) }
    ensures sound { IsSoundAt (seen_by seat.new) question.now now }
{
    let version = cache.read(seat);
    at_version(&version, question, now, places)
}

fn at_version(
    version: &VersionRef<'_, Store>,
    question: &Question,
    now: u32,
    places: &mut ReplyPlaces,
) -> Answer
    requires { opening_by (seat_in version.now) ≡ nothing_held }
    ensures answered { octets_at places.new result
        ≡ answer_of (seen_by (seat_in version.now)) now (reads.Query question.now) }
    ensures sound { IsSoundAt (seen_by (seat_in version.now)) question.now now }
{
    if long_reply(version.state(), question, now, &mut places.long) {
        Answer::Long
    } else {
        write_plain(question, SERVER_FAILURE, &mut places.reply);
        Answer::Short
    }
}
