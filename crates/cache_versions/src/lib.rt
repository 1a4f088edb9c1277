//! Published versions of a state. Threads read the newest one without waiting, and place batches behind it under a lock, each
//! from a seat of its own, which keeps the version that it has seen. Nothing in memory grows with the batches: their history, and
//! the places of each seat's own, exist in the proofs alone.
//!
//! Public clauses cite, in reading order, `Seats`, `Lends`, `Shares`, `Rows`, `Inserts`, `Faults`, `Closes` and, for places,
//! `Hands`. Specs of the inner steps, in reading order: `Book`, `Kin`, `Desks`, `Places`, `Dealers`.
#![tactic(auto)]

mod book;
mod close;
mod dealer;
mod desk;
mod hand;
mod never;
mod open;
mod place;
mod rule;
mod seat;
mod shared;
mod state;
#[cfg(test)]
mod tests;
mod version;

pub use close::Closed;
pub use place::{InsertFault, Note, Placed};
pub use seat::Seat;
pub use shared::{Shared, VersionRef};
pub use state::{State, StepFault};
