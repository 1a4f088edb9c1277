/// What the cache holds, and the number of its version: how many answers were placed in it since the start.
#[derive(Clone, Copy, Debug, PartialEq, Eq)]
pub struct CacheReport {
    pub records: u64,
    /// The zones of which it holds a record.
    pub zones: u64,
    /// The chains of which it holds a record.
    pub chains: u64,
    pub version: u64,
}
