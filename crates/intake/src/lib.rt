//! Intake: which records of an upstream's answer a cache stores, and for how long. The answer is read, its header looked at,
//! and its records are put together in RRsets with the signatures that cover them; each of these groups is stored as one
//! record, or skipped.
//!
//! Specs, in reading order: `Batch`, which public clauses cite, with what it stands on, `Group`, `Signed` and `Stored`;
//! `WireFault`, how a reader's fault is told; and for the inner steps `Pile`, `Once` and `SignedGroup`.
#![tactic(auto)]

mod agreed;
mod each_once;
mod grouping;
mod header;
mod intake;
mod intake_fault;
mod key;
mod nsec;
mod nsec3;
mod pile;
mod signed_group;
mod stored;
mod table;
mod taken;

pub use intake::{batch_of, batch_of_message};
pub use intake_fault::IntakeFault;
pub use taken::Taken;
