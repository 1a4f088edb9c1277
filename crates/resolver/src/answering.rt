//! By what a question is answered, and the reply by either.
ghost use Rattle.std.specs.Prelude.{◌≡◌, [], Some, None, MatchBool};
ghost use Rattle.resolver.specs.Answering.{IsSoundBy, reply_by};

use crate::{Rule, reply, walk_reply};
use dnswire::Question;
use record_store::Store;
use reply_core::ReplyBuffer;

/// By what queries are answered.
#[derive(Clone, Copy, Debug, PartialEq, Eq)]
pub enum Answering {
    /// By what is proved of the question itself.
    ByProof,
    /// By a walk from the question's name on, of such links.
    ByWalk { rule: Rule },
}

/// Whether the records prove an answer at a moment, in seconds, or lead to one. Then the buffer holds the reply, and else it is
/// empty. It takes no memory.
pub fn reply_by(
    store: &Store,
    answering: Answering,
    question: &Question,
    now: u32,
    out: &mut ReplyBuffer,
) -> bool
    ensures reply { MatchBool result
        (reply_by answering store.now question.now now ≡ Some out.new)
        ((reply_by answering store.now question.now now ≡ None) × (out.new ≡ [])) }
    ensures sound { IsSoundBy answering store.now question.now now }
{
    match answering {
        Answering::ByProof => reply(store, question, now, out),
        Answering::ByWalk { rule } => walk_reply(store, rule, question, now, out).is_some(),
    }
}
