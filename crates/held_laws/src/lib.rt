//! What holds of every state that batches of records make, as laws of the definitions of `cache_meaning`: functions with
//! an empty body. Read `specs/HeldLaws.antt` and `specs/KeyOrder.antt`, and of `cache_meaning` first `specs/Held.antt` and
//! `specs/Zones.antt`.
#![tactic(auto)]

mod answers;
mod key_order;
mod laws;

pub use answers::{answers_read_lookups_alone, what_is_answered_reads_no_order};
pub use key_order::{
    a_batch_reads_no_order, kept_in_key_order, key_order_is_one, key_order_keeps_all,
};
pub use laws::{
    at_most_two_chains, each_chain_has_a_record, no_two_of_one_key, none_has_expired,
    order_means_nothing, within_the_limit,
};
