//! What a signed zone means: which names exist in it, what it answers to a name and a type, when signed records are true
//! of it, and what denials prove of every zone that they are true of. It has definitions, to be read in the order `Zone`,
//! `Lookup`, `Consistent`, `Denial`, `Hashed`, `HashedDenial`, and laws of them as functions with an empty body. Zones and records
//! written out, of which the laws speak, have `Examples`, `DenialExamples` and `HashedExamples`; `ZoneTable` has the steps of a lookup.
#![tactic(auto)]

mod add_fault;
mod denial;
mod denial_examples;
mod examples;
mod group;
mod hashed_denial;
mod hashed_examples;
mod looked;
mod lookup;
mod same_records;
mod zone_table;

pub use add_fault::AddFault;
pub use denial::{
    answer_by_a_set, closest_encloser, existence_inside, name_error, no_bar_above,
    no_data_by_a_match, no_data_by_a_wildcard, no_data_of_a_proof_type,
};
pub use denial_examples::{
    a_ds_of_two_zones, a_name_before_the_asterisk, an_empty_wildcard,
    what_each_condition_keeps_out, what_the_nsecs_prove, why_ends_are_live,
};
pub use examples::{
    a_zone_of_two_hosts, a_zone_with_a_cut, lookups_at_every_turn, the_zone_of_rfc_4592,
    what_is_not_true_of_a_zone,
};
pub use hashed_denial::{
    hashed_closest_encloser, hashed_name_error, hashed_wildcard, no_data_by_a_hashed_match,
    no_name_by_a_hash,
};
pub use hashed_examples::{
    a_zone_of_one_name, an_opt_out_match, the_zone_of_rfc_5155, what_each_hash_condition_keeps_out,
    what_is_not_true_of_a_hashed_zone, what_the_nsec3s_prove,
};
pub use looked::Looked;
pub use lookup::{one_answer, some_answer};
pub use same_records::order_means_nothing;
pub use zone_table::ZoneTable;
