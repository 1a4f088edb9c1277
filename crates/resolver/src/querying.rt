//! What becomes of a query's octets.
ghost use Rattle.std.specs.Prelude.{◌≡◌, ◌↔◌, ℕ, List};
ghost use Rattle.resolver.specs.Queried.{HasAnswer, IsQueried, IsSoundReply};
ghost use Rattle.resolver.specs.declared.query_outcome.QueryOutcome.{QueryOutcome};

use crate::{Answering, QueryOutcome, QueryStep, query_step_of, reply_by};
use dnswire::read_query;
use record_store::Store;
use reply_core::ReplyBuffer;

/// What becomes of a query's octets at a moment, in seconds. The buffer then holds the reply, and is empty where there is none. It
/// takes no memory.
pub fn query_octets(
    store: &Store,
    answering: Answering,
    octets: &[u8],
    now: u32,
    out: &mut ReplyBuffer,
) -> QueryOutcome
    ensures queried { IsQueried answering store.now octets.now now result out.new }

    // Each outcome and reply comes where the octets give it.
    ensures every { (outcome : QueryOutcome) (told : List ℕ)
        → IsQueried answering store.now octets.now now outcome told
        → (result ≡ outcome) × (out.new ≡ told) }
    ensures exact { (result ≡ QueryOutcome.Answered)
        ↔ HasAnswer answering store.now octets.now now }
    ensures sound { result ≡ QueryOutcome.Answered
        → IsSoundReply answering store.now octets.now now out.new }
{
    outcome_of(store, answering, octets, now, out)
}

// What becomes of them.
fn outcome_of(
    store: &Store,
    answering: Answering,
    octets: &[u8],
    now: u32,
    out: &mut ReplyBuffer,
) -> QueryOutcome
    ensures { IsQueried answering store.now octets.now now result out.new }
{
    match query_step_of(&read_query(octets), out) {
        QueryStep::Dropped => {
            out.clear();
            QueryOutcome::Dropped
        }
        QueryStep::Error => QueryOutcome::Error,
        QueryStep::Query(question) => {
            if reply_by(store, answering, question, now, out) {
                QueryOutcome::Answered
            } else {
                QueryOutcome::Forward
            }
        }
    }
}
