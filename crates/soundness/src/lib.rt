//! The laws that no true name is denied: what held records prove is what every zone says of which they are true.
//!
//! Specs, in reading order: `True` (what a record says of its zone), `Sound` (when a proof is sound), `Steps` (what each step of a
//! proof goes on from); and of zones written out `Examples`, `HashedExamples` and `StoredRun`. Public clauses cite them all.
#![tactic(auto)]

mod examples;
mod hashed_examples;
mod laws;
mod nsec;
mod nsec3;
mod stored_run;

pub use examples::{
    a_match_is_worked, an_empty_wildcard_is_worked, before_the_asterisk_is_worked,
    contradicting_records_are_both_used, the_zone_of_rfc_4592_is_worked,
};
pub use hashed_examples::{a_hashed_cover_is_worked, a_hashed_match_is_worked};
pub use laws::{
    answer_by_the_set, each_answer_is_sound, each_used_record_is_held, the_zone_is_asked,
};
pub use nsec::{
    answer_by_an_nsec_wildcard, each_nsec_proof_is_sound, name_error_by_nsecs,
    no_data_by_an_empty_name, no_data_by_an_nsec_match, no_data_by_an_nsec_wildcard,
};
pub use nsec3::{
    answer_by_an_nsec3_wildcard, each_nsec3_proof_is_sound, name_error_by_nsec3s,
    no_data_by_an_nsec3_match, no_data_by_an_nsec3_wildcard,
};
pub use stored_run::the_stored_run_has_a_zone;
