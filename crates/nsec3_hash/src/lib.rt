//! Hashed owner names (RFC 5155, section 5): the iterated hash of a name, and hashes as base32hex text (RFC 4648).
//!
//! Specs, in reading order: `IteratedHash`, `Base32Hex`. Public clauses cite both.
#![tactic(auto)]

mod base32hex;
mod iterated_hash;

pub use base32hex::{from_base32hex, order_law, to_base32hex};
pub use iterated_hash::hash_name;
