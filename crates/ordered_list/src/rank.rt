//! Where an entry stands.

/// Where an entry stands in a list in order, or would stand: the places from `from` up to `to`, of which there is one at most.
#[derive(Clone, Copy, Debug, PartialEq, Eq, Drop)]
pub struct Rank {
    pub from: usize,
    pub to: usize,
}
