//! What the calls return to C. The header has the same numbers.
ghost use Rattle.std.specs.Prelude.{◌≡◌};
ghost use Rattle.dnsreplay_c.specs.Codes.{code_of_fault, code_of_outcome};

use intake::IntakeFault;
use resolver::QueryOutcome;

/// Done; of a query, that the reply is an answer.
pub(crate) const DONE: i32 = 0;

/// A query that the cache doesn't answer: the host resolves it.
pub(crate) const FORWARD: i32 = 1;

/// A query that gets no reply at all.
pub(crate) const DROPPED: i32 = 2;

/// The reply tells the query's fault.
pub(crate) const ERROR: i32 = 3;

/// There is no memory. Nothing has changed.
pub(crate) const NO_MEMORY: i32 = -1;

/// The room for the reply is too small. Nothing was written.
pub(crate) const NO_ROOM: i32 = -2;

/// The handle is open where it has to be closed, or the other way round.
pub(crate) const WRONG_STATE: i32 = -3;

/// The octets aren't a message of one question.
pub(crate) const NOT_A_MESSAGE: i32 = -17;

/// The message isn't the response to a standard query.
pub(crate) const NOT_AN_ANSWER: i32 = -18;

/// The message was cut (TC is set).
pub(crate) const TRUNCATED: i32 = -19;

/// The answer wasn't validated (AD is clear).
pub(crate) const NOT_VALIDATED: i32 = -20;

/// No group of its records is stored.
pub(crate) const NOTHING_STORED: i32 = -21;

/// Its RCODE is neither 0 nor 3.
pub(crate) const OTHER_RCODE: i32 = -23;

/// What a query returns.
pub(crate) fn code_of_outcome(outcome: QueryOutcome) -> i32
    ensures { result ≡ code_of_outcome outcome }
{
    match outcome {
        QueryOutcome::Answered => DONE,
        QueryOutcome::Forward => FORWARD,
        QueryOutcome::Dropped => DROPPED,
        QueryOutcome::Error => ERROR,
    }
}

/// What an insert returns that stores nothing.
pub(crate) fn code_of_fault(fault: IntakeFault) -> i32
    ensures { result ≡ code_of_fault fault }
{
    match fault {
        IntakeFault::Malformed(_) => NOT_A_MESSAGE,
        IntakeFault::NotResponse => NOT_AN_ANSWER,
        IntakeFault::Truncated => TRUNCATED,
        IntakeFault::Rcode(_) => OTHER_RCODE,
        IntakeFault::NotAuthentic => NOT_VALIDATED,
        IntakeFault::Nothing { .. } => NOTHING_STORED,
        IntakeFault::OutOfMemory => NO_MEMORY,
    }
}
