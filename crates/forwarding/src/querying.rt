//! A query.
ghost use Rattle.std.specs.Prelude.{◌≡◌, ◌≤◌, [], length, None, IsSome};
ghost use Rattle.std.specs.Option.{option_map};
ghost use mathlib.Core.List.{IsPrefix};
ghost use Rattle.arrivals.specs.declared.came.Came.TheVariants as comes;
ghost use Rattle.arrivals.specs.declared.event.TheConstants.{MAX_MESSAGE};
ghost use Rattle.cache_meaning.specs.Held.{nothing_held};
ghost use Rattle.cache_versions.specs.Lends.{seat_in};
ghost use Rattle.cache_versions.specs.Seats.{IsSameSeat, opening_by, seen_by};
ghost use Rattle.counters.specs.declared.counter.Counter.TheVariants as counters;
ghost use Rattle.reply_core.specs.Error.{error_octets, plain_octets};
ghost use Rattle.reply_core.specs.declared.draft.TheConstants.{MAX_LONG_REPLY};
ghost use Rattle.reply_core.specs.declared.rcode.TheConstants.{BAD_VERSION, FORMAT_ERROR, NOT_IMPLEMENTED};
ghost use Rattle.resolver.specs.Caches.{HasGoneOn, IsSeatOf};
ghost use Rattle.dnswire.specs.Query.{IsReadAs};
ghost use Rattle.dnswire.specs.declared.edns.TheConstants.{LEAST_PAYLOAD};
ghost use Rattle.dnswire.specs.declared.query_read.QueryRead.TheVariants as reads;
ghost use Rattle.forwarding.specs.declared.want.Want.TheVariants as wants;
ghost use Rattle.forwarding.specs.Buffers.{octets_in};
ghost use Rattle.forwarding.specs.Done.{IsDone, found, found_as, found_within, proved, told_once};
ghost use Rattle.forwarding.specs.Lawful.{IsAtWork, IsCalled};

use crate::asking::{count_wait, wait};
use crate::buffers::Buffers;
use crate::counting::counter_of;
use crate::{Dice, Outlet, PassedNames, each_turn_is_lawful, mark_synthesized};
use arrivals::{Carrier, Event};
use cache_versions::VersionRef;
use counters::{Counter, Counts};
use dnswire::{Head, QueryRead, Question, read_query};
use record_store::Store;
use reply_core::rcode::{BAD_VERSION, FORMAT_ERROR, NOT_IMPLEMENTED};
use reply_core::{MAX_LONG_REPLY, Reply, ReplyBuffer, limit_of, write_error, write_plain};
use resolver::{CacheSeat, Origin, Rule, SharedCache, walk_reply_within};
use waiting_table::WaitingTable;

/// Does what a client's message asks for.
pub(crate) fn serve_query<O: Outlet, D: Dice>(
    outlet: &mut O,
    dice: &D,
    cache: &SharedCache,
    seat: &mut CacheSeat,
    passed: &PassedNames,
    table: &mut WaitingTable,
    counts: &mut Counts,
    event: &Event,
    client: u64,
    carrier: Carrier,
    out: &mut Buffers,
)
    requires object { IsSeatOf cache.now seat.old }
    requires query { event.now.came ≡ comes.Query client carrier }
    requires called { IsCalled passed.now (seen_by seat.old) table.old counts.old event.now
        (O.Outlet.told outlet.old) }
    ensures object { IsSeatOf cache.now seat.new }
    ensures begins { IsPrefix (seen_by seat.old) (seen_by seat.new) }
    ensures work { IsAtWork passed.now (seen_by seat.new) table.new counts.new
        (O.Outlet.told outlet.new) }
{
    each_turn_is_lawful();
    let asked = read(event);
    match &asked {
        QueryRead::Dropped => counts.add(Counter::Dropped, 1),
        QueryRead::NotImp(head) => tell_opcode(
            outlet, cache, seat, passed, table, counts, event, client, head,
        ),
        QueryRead::FormErr(head) => tell_format(
            outlet, cache, seat, passed, table, counts, event, client, head,
        ),
        QueryRead::BadVers(question) => tell_version(
            outlet, cache, seat, passed, table, counts, event, client, question,
        ),
        QueryRead::Query(question) => serve_question(
            outlet, dice, cache, seat, passed, table, counts, event, client, carrier, question, out,
        ),
    }
}

// A query with another opcode is told so.
fn tell_opcode<O: Outlet>(
    outlet: &mut O,
    cache: &SharedCache,
    seat: &CacheSeat,
    passed: &PassedNames,
    table: &WaitingTable,
    counts: &mut Counts,
    event: &Event,
    client: u64,
    head: &Head,
)
    requires object { IsSeatOf cache.now seat.now }
    requires opcode { head.now.opcode ≤ 15 }
    requires called { IsCalled passed.now (seen_by seat.now) table.now counts.old event.now
        (O.Outlet.told outlet.old) }
    requires does { IsDone passed.now table.now (seen_by seat.now) event.now [] wants.Nothing
        (told_once table.now client (error_octets head.now NOT_IMPLEMENTED)
        counters.NotImplemented) }
    ensures { IsAtWork passed.now (seen_by seat.now) table.now counts.new
        (O.Outlet.told outlet.new) }
{
    let mut out = ReplyBuffer::new();
    write_error(head, NOT_IMPLEMENTED, &mut out);
    let (counter, octets) = (Counter::NotImplemented, out.as_slice());
    reply(
        outlet, cache, seat, passed, table, counts, event, client, counter, octets,
    );
}

// A query that can't be read is told so.
fn tell_format<O: Outlet>(
    outlet: &mut O,
    cache: &SharedCache,
    seat: &CacheSeat,
    passed: &PassedNames,
    table: &WaitingTable,
    counts: &mut Counts,
    event: &Event,
    client: u64,
    head: &Head,
)
    requires object { IsSeatOf cache.now seat.now }
    requires opcode { head.now.opcode ≤ 15 }
    requires called { IsCalled passed.now (seen_by seat.now) table.now counts.old event.now
        (O.Outlet.told outlet.old) }
    requires does { IsDone passed.now table.now (seen_by seat.now) event.now [] wants.Nothing
        (told_once table.now client (error_octets head.now FORMAT_ERROR) counters.FormatError) }
    ensures { IsAtWork passed.now (seen_by seat.now) table.now counts.new
        (O.Outlet.told outlet.new) }
{
    let mut out = ReplyBuffer::new();
    write_error(head, FORMAT_ERROR, &mut out);
    let (counter, octets) = (Counter::FormatError, out.as_slice());
    reply(
        outlet, cache, seat, passed, table, counts, event, client, counter, octets,
    );
}

// A query with another version of EDNS is told so.
fn tell_version<O: Outlet>(
    outlet: &mut O,
    cache: &SharedCache,
    seat: &CacheSeat,
    passed: &PassedNames,
    table: &WaitingTable,
    counts: &mut Counts,
    event: &Event,
    client: u64,
    question: &Question,
)
    requires object { IsSeatOf cache.now seat.now }
    requires edns { IsSome question.now.edns }
    requires called { IsCalled passed.now (seen_by seat.now) table.now counts.old event.now
        (O.Outlet.told outlet.old) }
    requires does { IsDone passed.now table.now (seen_by seat.now) event.now [] wants.Nothing
        (told_once table.now client (plain_octets question.now BAD_VERSION) counters.BadVersion) }
    ensures { IsAtWork passed.now (seen_by seat.now) table.now counts.new
        (O.Outlet.told outlet.new) }
{
    let mut out = ReplyBuffer::new();
    write_plain(question, BAD_VERSION, &mut out);
    let (counter, octets) = (Counter::BadVersion, out.as_slice());
    reply(
        outlet, cache, seat, passed, table, counts, event, client, counter, octets,
    );
}

// The one reply that the event calls for goes to the client, and is counted so.
fn reply<O: Outlet>(
    outlet: &mut O,
    cache: &SharedCache,
    seat: &CacheSeat,
    passed: &PassedNames,
    table: &WaitingTable,
    counts: &mut Counts,
    event: &Event,
    client: u64,
    counter: Counter,
    octets: &[u8],
)
    requires object { IsSeatOf cache.now seat.now }
    requires fits { length octets.now ≤ MAX_MESSAGE }
    requires called { IsCalled passed.now (seen_by seat.now) table.now counts.old event.now
        (O.Outlet.told outlet.old) }
    requires does { IsDone passed.now table.now (seen_by seat.now) event.now [] wants.Nothing
        (told_once table.now client octets.now counter) }
    ensures { IsAtWork passed.now (seen_by seat.now) table.now counts.new
        (O.Outlet.told outlet.new) }
{
    each_turn_is_lawful();
    counts.add(counter, 1);
    outlet.reply(cache, seat, passed, client, octets);
}

// What a client's message asks.
fn read(event: &Event) -> QueryRead
    ensures { IsReadAs event.now.octets.items result }
{
    read_query(event.octets.as_slice())
}

// A query is answered from the cache, where that can be, and else its client waits.
fn serve_question<O: Outlet, D: Dice>(
    outlet: &mut O,
    dice: &D,
    cache: &SharedCache,
    seat: &mut CacheSeat,
    passed: &PassedNames,
    table: &mut WaitingTable,
    counts: &mut Counts,
    event: &Event,
    client: u64,
    carrier: Carrier,
    question: &Question,
    out: &mut Buffers,
)
    requires object { IsSeatOf cache.now seat.old }
    requires query { event.now.came ≡ comes.Query client carrier }
    requires read { IsReadAs event.now.octets.items (reads.Query question.now) }
    requires called { IsCalled passed.now (seen_by seat.old) table.old counts.old event.now
        (O.Outlet.told outlet.old) }
    ensures object { IsSeatOf cache.now seat.new }
    ensures begins { IsPrefix (seen_by seat.old) (seen_by seat.new) }
    ensures work { IsAtWork passed.now (seen_by seat.new) table.new counts.new
        (O.Outlet.told outlet.new) }
{
    let now = event.moment.seconds;
    match prove(cache, seat, passed, carrier, question, now, out) {
        Some(origin) => {
            let (counter, octets) = (counter_of(origin), out.octets(carrier));
            reply(
                outlet, cache, seat, passed, table, counts, event, client, counter, octets,
            );
        }
        None => serve_waiting(
            outlet, dice, cache, seat, passed, table, counts, event, client, carrier, question,
        ),
    }
}

// The client of a query that the cache doesn't answer waits.
fn serve_waiting<O: Outlet, D: Dice>(
    outlet: &mut O,
    dice: &D,
    cache: &SharedCache,
    seat: &CacheSeat,
    passed: &PassedNames,
    table: &mut WaitingTable,
    counts: &mut Counts,
    event: &Event,
    client: u64,
    carrier: Carrier,
    question: &Question,
)
    requires object { IsSeatOf cache.now seat.now }
    requires query { event.now.came ≡ comes.Query client carrier }
    requires read { IsReadAs event.now.octets.items (reads.Query question.now) }
    requires unproved { proved carrier passed.now (seen_by seat.now) question.now
        event.now.moment.seconds ≡ None }
    requires called { IsCalled passed.now (seen_by seat.now) table.old counts.old event.now
        (O.Outlet.told outlet.old) }
    ensures { IsAtWork passed.now (seen_by seat.now) table.new counts.new
        (O.Outlet.told outlet.new) }
{
    each_turn_is_lawful();
    let id = dice.draw();
    let now = event.moment.millis;
    let place = table.place_for(question);
    count_wait(table, place, counts);
    wait(
        outlet, cache, seat, passed, table, place, client, carrier, question, id, now,
    );
}

// From what the cache's reply is made, where it has one. The buffer holds it then.
fn prove(
    cache: &SharedCache,
    seat: &mut CacheSeat,
    passed: &PassedNames,
    carrier: Carrier,
    question: &Question,
    now: u32,
    out: &mut Buffers,
) -> Option<Origin>
    requires { IsSeatOf cache.now seat.old }
    ensures on { HasGoneOn cache.now seat.old seat.new }
    ensures reply { proved carrier passed.now (seen_by seat.new) question.now now
        ≡ option_map (found_as (octets_in out.new carrier)) result }
{
    if passed.has(&question.name.lent()) {
        return None;
    }
    look(cache, seat, carrier, question, now, out)
}

// The same by the published version.
fn look(
    cache: &SharedCache,
    seat: &mut CacheSeat,
    carrier: Carrier,
    question: &Question,
    now: u32,
    out: &mut Buffers,
) -> Option<Origin>
    requires { IsSeatOf cache.now seat.old }
    ensures object { IsSeatOf cache.now seat.new }
    ensures same { IsSameSeat seat.old seat.new }
    ensures begins { IsPrefix (seen_by seat.old) (seen_by seat.new) }
    ensures reply { found carrier (seen_by seat.new) question.now now
        ≡ option_map (found_as (octets_in out.new carrier)) result }
{
    let version = cache.read(seat);
    look_at(&version, carrier, question, now, out)
}

fn look_at(
    version: &VersionRef<'_, Store>,
    carrier: Carrier,
    question: &Question,
    now: u32,
    out: &mut Buffers,
) -> Option<Origin>
    requires { opening_by (seat_in version.now) ≡ nothing_held }
    ensures { found carrier (seen_by (seat_in version.now)) question.now now
        ≡ option_map (found_as (octets_in out.new carrier)) result }
{
    match carrier {
        Carrier::Datagram => {
            let limit = limit_of(question.edns);
            look_within(version, limit, question, now, &mut out.datagram)
        }
        Carrier::Stream => { look_within(version, MAX_LONG_REPLY, question, now, &mut out.stream) }
    }
}

// For a stream it takes 132 KiB of the stack, whose pages a query by a datagram shouldn't touch.
#[inline(never)]
fn look_within<const N: usize>(
    version: &VersionRef<'_, Store>,
    limit: usize,
    question: &Question,
    now: u32,
    out: &mut Reply<N>,
) -> Option<Origin>
    requires opening { opening_by (seat_in version.now) ≡ nothing_held }
    requires size { N ≤ MAX_LONG_REPLY }
    requires room { limit ≤ N }
    requires least { LEAST_PAYLOAD ≤ limit }
    ensures { found_within limit (seen_by (seat_in version.now)) question.now now
        ≡ option_map (found_as out.new) result }
{
    match walk_reply_within(version.state(), Rule::Both, question, now, limit, out) {
        Some(origin) => {
            mark_synthesized(limit, question, origin.is_synthesized(), out);
            Some(origin)
        }
        None => None,
    }
}
