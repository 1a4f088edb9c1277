//! The reply that a store gives, and the outcome that a version gives.
ghost use Rattle.std.specs.Prelude.{◌≡◌, [], Some, None, MatchBool, IfSome};
ghost use Rattle.cache_meaning.specs.Held.{nothing_held};
ghost use Rattle.soundness.specs.Sound.{IsSound};
ghost use Rattle.cache_versions.specs.Lends.{seat_in};
ghost use Rattle.cache_versions.specs.Seats.{opening_by, seen_by};
ghost use Rattle.reply_core.specs.Answered.{proof_in, reply_in};
ghost use Rattle.resolver.specs.Replies.{IsOutcome, IsSoundAt};

use crate::{Outcome, answer};
use cache_versions::VersionRef;
use dnswire::Question;
use record_store::Store;
use reply_core::{ReplyBuffer, write_reply};

/// Whether the records prove an answer at a moment, in seconds. Then the buffer holds the reply, and else it is empty.
pub fn reply(store: &Store, question: &Question, now: u32, out: &mut ReplyBuffer) -> bool
    ensures reply { MatchBool result
        (reply_in store.now question.now now ≡ Some out.new)
        ((reply_in store.now question.now now ≡ None) × (out.new ≡ [])) }
    ensures sound { IfSome (proof_in store.now question.now now)
        (IsSound question.now.name question.now.qtype) }
{
    let found = answer(store, &question.name, question.qtype, question.qclass, now);
    let Some(verdict) = found else {
        out.clear();
        return false;
    };
    write_reply(question, &verdict, out);
    true
}

/// What becomes of a query at a moment, in seconds, at a version.
pub(crate) fn outcome_at(
    version: &VersionRef<'_, Store>,
    question: &Question,
    now: u32,
    out: &mut ReplyBuffer,
) -> Outcome
    requires { opening_by (seat_in version.now) ≡ nothing_held }
    ensures outcome { IsOutcome (seen_by (seat_in version.now)) question.now now result out.new }
    ensures sound { IsSoundAt (seen_by (seat_in version.now)) question.now now }
{
    let number = version.number();
    if reply(version.state(), question, now, out) {
        Outcome::Answered { version: number }
    } else {
        Outcome::Forward { version: number }
    }
}
