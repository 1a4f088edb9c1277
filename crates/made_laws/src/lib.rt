//! The laws of the made zone: what intake takes from its messages is true of it, for every seed and number of names.
//!
//! So soundness has a witness of every size that is no example. The zone and its messages are those of `zone_maker`; what is
//! true of a zone is said in `soundness`. Its specs: `MadeNsec` (what an owner's NSEC says), `MadeBatch` (the batches that
//! intake takes from the messages).
#![tactic(auto)]

mod laws;

pub use laws::{
    each_made_answer_is_the_zones, each_made_nsec_is_true, every_made_message_is_taken,
    every_made_record_is_true, the_owners_are_the_live_names,
};
