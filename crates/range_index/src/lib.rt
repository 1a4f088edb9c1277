//! The spans of a chain, found by search: arcs on the ring that an order makes of its keys, no two of which meet.
//!
//! An arc, and when two meet, are `dname`'s (`specs/Arc.antt`). Of this crate's specs read `specs/Arcs.antt`,
//! `specs/Place.antt`, and `specs/Marks.antt` for the numbers by which names and hashes are sought. No public clause cites
//! `Steps`.
#![tactic(auto)]

mod arcs;
mod cut;
mod kept;
mod laws;
mod marks;
mod met;
mod place;
mod ring_span;
mod search;
mod span_marks;

pub use arcs::Arcs;
pub use laws::{arcs_stay_arcs, one_span_has_a_key, what_with_leaves};
pub use marks::{hash_mark, name_mark};
pub use met::Met;
pub use page_list::{Iter, OutOfMemory};
pub use place::Place;
pub use ring_span::{ByStart, RingSpan};
