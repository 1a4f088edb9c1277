ghost use Rattle.std.specs.Prelude.{◌≡◌};
ghost use Rattle.run_audit.specs.Answering.{told, checked_by};

use crate::fault::Fault;
use denial_records::Batch;

/// What is found of a pair at a version.
#[derive(Drop)]
pub(crate) enum Checked {
    /// The output frame isn't the input frame's.
    Wrong,
    /// It is, and places nothing; if it is a reply, nothing is wrong with what it uses.
    Right,
    /// It is, and a reply that uses records with this fault.
    Faulty(Fault),
    /// It is, and places the batch.
    Placed(Batch),
}

/// What is found of a frame that has no reply.
pub(crate) fn told(right: bool) -> Checked
    ensures { result ≡ told right }
{
    if right {
        Checked::Right
    } else {
        Checked::Wrong
    }
}

/// What is found of a right reply.
pub(crate) fn checked_by(fault: Option<Fault>) -> Checked
    ensures { result ≡ checked_by fault }
{
    match fault {
        None => Checked::Right,
        Some(fault) => Checked::Faulty(fault),
    }
}
