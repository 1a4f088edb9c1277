//! Where a search by marks has ended.
use crate::Entry;
use std::sync::Arc;

/// How many entries come before, and the last of them where it was met on the way.
#[derive(Drop)]
pub struct Found<'a, T> {
    pub(crate) count: usize,
    pub(crate) last: Option<&'a Entry<T>>,
}

/// The last entry that comes before: its place, its mark, its note and a share of it.
#[derive(Drop)]
pub struct Last<'a, T> {
    pub place: usize,
    pub mark: u64,
    pub note: u64,
    pub share: &'a Arc<T>,
}
