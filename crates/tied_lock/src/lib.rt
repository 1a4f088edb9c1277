//! A lock whose value keeps a fact about a key that was fixed when the lock was made: what a thread takes is tied to the key, and
//! so is what it gives back.
//!
//! Public clauses cite `Locked`. Of the inner steps speaks `Rule`.
#![tactic(auto)]

mod lock;
mod rule;
#[cfg(test)]
mod tests;

pub use lock::{Lease, TiedLock};
pub use rule::Tie;
