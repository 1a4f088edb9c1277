//! A list that stays: a change makes another list, which shares with it all that it does not touch.
//!
//! `PageList` is a `MarkedList` without marks; a `MarkedList` keeps a number beside each entry, by which it searches.
//! Their clauses speak in std's words but for a search by marks, where `specs/` has `Marks` (a test that marks agree with). The
//! rest of it serves what is private, in reading order: `Rows` (places in a row of blocks) and `Search` (what a search has told
//! so far).
#![tactic(auto)]

mod block;
mod blocks;
mod cut;
mod entries;
mod entry;
mod entry_list;
mod found;
mod in_place;
mod iter;
mod marked_list;
mod marking;
mod page;
mod parts;
mod row;
mod share;
mod short;
mod slot;
mod splice;

pub(crate) use block::Block;
pub(crate) use entry::Entry;
pub(crate) use found::Found;
pub use found::Last;
pub use iter::Iter;
pub use marked_list::{MarkedList, PageList};
pub use marking::{Marking, NoMarks};
use std::alloc::AllocError;

/// Want of memory, or of a further owner of an entry.
pub type OutOfMemory = AllocError;

/// Of so many parts of a block one mark is read at first. A block has at most 32.
pub(crate) const STRIDE: usize = 8;
