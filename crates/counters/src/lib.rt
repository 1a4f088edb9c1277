//! What a worker of the forwarder counts.
//!
//! Its specs: `specs/Counts.antt`, which the contracts cite.
#![tactic(auto)]

mod counter;
mod counts;
mod laws;

pub use counter::{COUNTERS, Counter};
pub use counts::Counts;
pub use laws::{each_count_is_a_sum, each_has_its_place};
