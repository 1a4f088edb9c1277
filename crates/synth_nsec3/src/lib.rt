//! What a zone's NSEC3 records of one salt and one number of iterations prove of a name.
//!
//! `judge` is the definition of `cache_meaning` that its clause names, and each proof is sound by the laws of `soundness`.
//! It takes no memory. `ChainAt` and `Nsec3Evidence`, in this order, serve the inner steps.
#![tactic(auto)]

mod at_source;
mod covering;
mod hashed_chain;
mod matching;
mod nsec3_evidence;
mod nsec3_steps;

pub use nsec3_steps::judge;
