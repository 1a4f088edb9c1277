//! Lists in strict order that stay: a change makes another list, which shares with it all that it does not touch.
//!
//! An `OrderedList` holds one entry of each rank, and tells a rank before it is changed there. Read `specs/Order.antt`, and of
//! `page_list` `specs/Marks.antt` for its searches by marks.
#![tactic(auto)]

mod ordered_list;
mod rank;
mod ranking;

pub use ordered_list::OrderedList;
pub use page_list::{Iter, Marking, OutOfMemory};
pub use rank::Rank;
pub use ranking::Ranking;
