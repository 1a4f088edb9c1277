/// A call to the outside failed. The source or the sink has counted it.
#[derive(Clone, Copy, Debug, PartialEq, Eq)]
pub struct Failed;

impl Failed {
    ghost use Rattle.std.specs.Prelude.{◌≡◌};
    ghost use Rattle.outside_core.specs.Fault.{next_count, Rose};

    // A failure, which it adds to a count.
    pub(crate) fn counted(faults: &mut u64) -> Failed
        ensures next { faults.new ≡ next_count faults.old }
        ensures rose { Rose faults.old faults.new }
    {
        *faults = faults.saturating_add(1);
        Failed
    }
}
