//! The denial records of one zone that a store holds, by chain, found by search.
//!
//! Of this crate's specs read `specs/Zone.antt`; its words are those of `cache_meaning` (`specs/Held.antt`,
//! `specs/Zones.antt`). For the inner steps there are, in reading order, `Spans`, `Chains`, `Views`, `Changes` and `ApexHashes`.
#![tactic(auto)]

mod apex_hashes;
mod chain_records;
mod changes;
mod nsec3_span;
mod nsec_span;
mod placed;
mod zone_chains;
mod zone_records;

pub use chain_records::ChainRecords;
pub use zone_records::ZoneRecords;
