//! An audit of a recorded run: whether its output fits its input, if not, by which clause, and whether a zone is as each record
//! says that a reply uses. And the line that is printed for what it finds.
//!
//! Of this crate's specs read `Spelled`, `Clauses`, `Replies`, `Findings`, `Line` and `Upheld`, in this order; `Version`, `Pairs`,
//! `Order`, `Faults`, `Answering` and `First` serve the inner steps.
#![tactic(auto)]

mod answering;
mod audit_fault;
mod auditing;
mod checked;
mod clause;
mod fault;
mod fault_at;
mod finding;
mod laws;
mod line;
mod order;
mod pair;
mod pair_check;
mod reading;
mod turns;

pub use audit_fault::AuditFault;
pub use auditing::audit;
pub use clause::Clause;
pub use finding::Finding;
pub use laws::{clauses_say_fit, yes_is_upheld};
pub use line::finding_line;
