/// When something came.
#[derive(Clone, Copy, Debug, PartialEq, Eq)]
pub struct Moment {
    /// Seconds since 1970 modulo 2^32, by which records expire.
    pub seconds: u32,
    /// Milliseconds of a clock that never goes back, by which questions wait.
    pub millis: u64,
}
