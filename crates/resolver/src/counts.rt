ghost use Rattle.std.specs.Prelude.{◌≡◌};
ghost use Rattle.resolver.specs.Inserted.{counts_of};

use intake::Taken;

/// How much of an upstream answer was stored.
#[repr(C)]
#[derive(Clone, Copy, Debug, PartialEq, Eq)]
pub struct Counts {
    /// The number of records, each a signed RRset or a denial record.
    pub stored: u64,
    /// The number of groups of records that aren't stored.
    pub skipped: u32,
}

impl Counts {
    pub fn of(taken: &Taken) -> Counts
        ensures { result ≡ counts_of taken.now }
    {
        Counts {
            stored: taken.batch.records.len() as u64,
            skipped: taken.skipped,
        }
    }
}
