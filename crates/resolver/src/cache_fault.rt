/// Why a batch was not placed.
#[derive(Clone, Copy, Debug, PartialEq, Eq)]
pub enum CacheFault {
    /// The version that was met has 2^62 - 1 batches, and no number is left for another.
    NumbersSpent { version: u64 },
    OutOfMemory,
}
