//! The spans that a new one meets.

/// The places of the spans that a new one meets: those from `from` up to `to`, and those from `last` on.
#[derive(Clone, Copy, Debug, PartialEq, Eq, Drop)]
pub struct Met {
    pub from: usize,
    pub to: usize,
    pub last: usize,
}
