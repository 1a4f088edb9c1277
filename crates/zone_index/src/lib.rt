//! A zone that is found by search: which records it has, which names are live and which exist, by name and by hash; and
//! whether a kept record is true of it.
//!
//! Public clauses cite `Live`. Specs of the inner steps, in reading order: `Entries`, `Hashes`, `Truth`.
#![tactic(auto)]

mod entry;
mod hash_table;
mod live_names;
mod owner_records;
mod sought;
mod truth;
mod type_bits;
mod zone_index;
mod zone_records;
mod zone_search;

pub use live_names::LiveNames;
pub use zone_index::ZoneIndex;
pub use zone_records::ZoneRecords;
pub use zone_search::ZoneSearch;
