//! What one version of the cache answers: what its records prove of the question, the set or else what the first of the zone's
//! chains proves that proves something, or else what CNAMEs and DNAMEs lead to (RFC 1034, section 3.6.2; RFC 6672). The same by
//! octets: what becomes of a query's octets over a store, and what an upstream answer's octets make of one. And the cache that
//! threads share, whose queries answer by one published version.
//!
//! Specs, in reading order: of what is proved of a question `SoundVerdict`, `Replies` and `Caches`; of walks `Target`, `Dname`,
//! `Walk`, `SoundWalk`, `WalkReply` and `Origin`, and `Lent`, the walk that a lent one is; of octets `Answering`, `QueryStep`,
//! `Queried`, `Inserted` and `OctetLaws`.
#![tactic(auto)]

mod answering;
mod cache_fault;
mod counts;
mod dname_step;
mod inserting;
mod laws;
mod leading;
mod lent_dname;
mod octet_laws;
mod once;
mod origin;
mod outcome;
mod parts;
mod proving;
mod query_outcome;
mod query_step;
mod querying;
mod replying;
mod rule;
mod search;
mod shared_cache;
mod step;
mod stepping;
mod target;
mod walk;
mod walk_replying;
mod walking;
mod writing;

pub use answering::{Answering, reply_by};
pub use cache_fault::CacheFault;
pub use counts::Counts;
pub use inserting::insert_octets;
pub use laws::{
    a_dname_redirects, a_walk_reads_no_order, an_alias_leads_on, each_query_is_answered_soundly,
    each_walk_is_sound, the_topmost_is_taken,
};
pub use octet_laws::{octets_have_one_outcome, stores_reply_as_held};
pub use origin::Origin;
pub use outcome::Outcome;
pub use parts::{answer_by_set, prove_by_chains};
pub use proving::{answer, prove, prove_in};
pub use query_outcome::QueryOutcome;
pub use query_step::{QueryStep, query_step_of};
pub use querying::query_octets;
pub use replying::reply;
pub use rule::Rule;
pub use shared_cache::{CacheSeat, SharedCache};
pub use walk::{End, MAX_LINKS, Walk, Way};
pub use walk_replying::{walk_reply, walk_reply_within};
pub use walking::{follow, synthesise, walk_from};
pub use writing::{write_redirected, write_trail, write_walk, write_walk_within};
