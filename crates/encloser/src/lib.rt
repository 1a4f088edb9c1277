//! The names above a name: closest enclosers, their wildcards, next closer names and ancestors (RFC 4592, RFC 5155). By them a
//! cache reckons from an NSEC record which names a zone lacks, and where a wildcard would stand, and which names a search by
//! hashes asks for. Laws, as functions with an empty body, say that each is one.
//!
//! Its specs, which public clauses cite, in reading order: `specs/Encloser.antt`.
#![tactic(auto)]

mod ancestors;
mod enclosers;
mod laws;

pub use ancestors::Ancestors;
pub use enclosers::{common_encloser, next_closer, wildcard_of};
pub use laws::{ancestors_in_turn, one_common_encloser, one_next_closer, wildcard_fits};

#[cfg(test)]
mod tests;
