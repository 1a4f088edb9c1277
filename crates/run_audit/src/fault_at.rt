ghost use Rattle.std.specs.Prelude.{◌≡◌};
ghost use Rattle.run_audit.specs.First.{earlier};

use crate::fault::Fault;

/// What is wrong with the records that the reply at a frame uses.
#[derive(Clone, Copy, Debug)]
pub(crate) struct FaultAt {
    /// How many frames stand before it.
    pub(crate) at: usize,
    pub(crate) fault: Fault,
}

/// The one of the earlier frame.
pub(crate) fn earlier(one: Option<FaultAt>, other: FaultAt) -> FaultAt
    ensures { result ≡ earlier one other }
{
    match one {
        None => other,
        Some(one) => { if one.at < other.at { one } else { other } }
    }
}
