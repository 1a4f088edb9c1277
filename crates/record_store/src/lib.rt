//! The records that a cache holds, found by search: the held state of `cache_meaning`, in the order of keys.
//!
//! Public clauses cite the definitions of `cache_meaning` and `held_laws` (`KeyOrder`), and `Gauges`. Specs of its own, which serve the
//! inner steps, in reading order: `Marks`, `Ranks`, `Counts`, `Holding`, `LookUp`, `Putting`, `Dropping`.
#![tactic(auto)]

mod counts;
mod dropping;
mod gauges;
mod goings;
mod gone;
mod holding;
mod look_up;
mod marks;
mod phases;
mod putting;
mod ranks;
mod same_set;
mod set_and_alias;
mod set_search;
mod sets;
mod state;
mod store;
mod zone_ref;
mod zone_search;
mod zones;

pub use set_and_alias::SetAndAlias;
pub use store::Store;
pub use zone_ref::ZoneRef;
