//! What a cache holds and proves: the definitions that the crates above are proved by. Beside them stand the plain store, which
//! holds and finds in their words over one list, and what all proofs share over any `HeldZone`, as what a proof lends and the
//! tests of types. Its specs in reading order: `Held`, `Zones`, `Evidence`, `NsecSteps`, `Nsec3Steps`, `Prove`, `Ttl`,
//! `Verdict`, `Lent`, `Examples`. No public clause cites `Views`.
#![tactic(auto)]

mod answers;
mod chain;
mod claim;
mod denials;
mod displaced;
mod examples;
mod forwarded;
mod held_chain;
mod held_records;
mod held_zone;
mod key_order;
mod place;
mod plain_store;
mod plain_zone;
mod proven;
mod records;
mod sets;
mod types;
mod wildcard;

pub use answers::{answer_by_wildcard, exact_proof, name_error, no_data};
pub use chain::Chain;
pub use denials::Denials;
pub use examples::{
    a_cut_and_a_dname, a_held_set, a_wildcard, an_arc_over_the_end, an_empty_name,
    an_empty_wildcard, name_errors, opt_out, two_chains,
};
pub use forwarded::is_forwarded;
pub use held_records::MOST_RECORDS;
pub use held_zone::HeldZone;
pub use place::Place;
pub use plain_store::PlainStore;
pub use plain_zone::PlainZone;
pub use proven::Proven;
pub use sets::{that_is_usable, usable_set};
pub use types::{deny_type, deny_type_below, hand_nothing_on};
pub use wildcard::wildcard_below;
