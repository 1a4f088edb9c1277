//! What a zone's set and its NSEC records prove of a name.
//!
//! `exact` and `judge` are the definitions of `cache_meaning` that their clauses name, and each proof is sound by the laws of
//! `soundness`. Neither takes memory. `NsecEvidence` serves the inner steps.
#![tactic(auto)]

mod at_source;
mod covering;
mod nsec_evidence;
mod nsec_steps;
mod set_step;
mod source;

pub use nsec_steps::judge;
pub use set_step::exact;
