ghost use Rattle.std.specs.Prelude.{◌≡◌, []};
ghost use Rattle.forwarding.specs.Holding.{holding_of};

/// What the version of a cache holds.
#[derive(Clone, Copy, Debug, PartialEq, Eq)]
pub struct Holding {
    /// Its records.
    pub records: usize,
    /// The zones of which it has a record.
    pub zones: usize,
    /// The chains of which it has a record.
    pub chains: usize,
    /// Its number, which is how many batches made it.
    pub version: u64,
}

impl Holding {
    /// What a new cache holds.
    pub(crate) fn nothing() -> Holding
        ensures { result ≡ holding_of [] }
    {
        Holding {
            records: 0,
            zones: 0,
            chains: 0,
            version: 0,
        }
    }
}
