//! The reply that a store gives on a stream.
ghost use Rattle.std.specs.Prelude.{◌≡◌, Some, None, MatchBool, IfSome};
ghost use Rattle.soundness.specs.Sound.{IsSound};
ghost use Rattle.reply_core.specs.Answered.{proof_in};
ghost use Rattle.stream_server.specs.Turn.{long_reply_in};

use dnswire::Question;
use record_store::Store;
use reply_core::{LongReplyBuffer, write_long_reply};

/// Whether the records prove an answer at a moment, in seconds. Then the buffer holds the reply, of up to 65,535 octets whatever
/// the client takes by datagrams (RFC 1035, section 4.2.2).
pub fn long_reply(store: &Store, question: &Question, now: u32, out: &mut LongReplyBuffer) -> bool
    ensures reply { MatchBool result
        (long_reply_in store.now question.now now ≡ Some out.new)
        (long_reply_in store.now question.now now ≡ None) }
    ensures sound { IfSome (proof_in store.now question.now now)
        (IsSound question.now.name question.now.qtype) }
{
    let found = resolver::answer(store, &question.name, question.qtype, question.qclass, now);
    let Some(verdict) = found else {
        return false;
    };
    write_long_reply(question, &verdict, out);
    true
}
