//! What an audit reads: a zone and a recorded run, from octets.
//!
//! Specs, in reading order: `Source`, `Laws`. `Pieces` serves the reader's inner steps.
#![tactic(auto)]

mod audit_source;
mod laws;
mod reading;
mod source_fault;
mod taking;

pub use audit_source::{AuditSource, read_source};
pub use laws::one_reading;
pub use source_fault::SourceFault;
