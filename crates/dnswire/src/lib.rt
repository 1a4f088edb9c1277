//! DNS messages (RFC 1035, section 4): exact readers of queries and of whole messages.
//!
//! Specs, in reading order: `Query` and `Message`, which public clauses cite; what these stand on, `Header`, `Question`,
//! `MessageName`, `RrHead`, `Data` and `InTurn`; and for the readers' inner steps `LabelsLeft`, `NameLabels`, `Runs`,
//! `RecordsPassed`, `DataField` and `Expansions`.
#![tactic(auto)]

mod data;
mod edns;
mod field;
pub mod flags;
mod head;
mod header;
mod header_flags;
mod label_run;
mod message;
mod message_name;
mod name_labels;
mod name_read;
mod name_skip;
mod name_table;
mod query_read;
mod question;
mod question_fields;
mod rr;
mod rr_fields;
mod run_sizes;
mod section;
mod wire_fault;

pub use edns::{DO, Edns, LEAST_PAYLOAD};
pub use head::Head;
pub use header_flags::HeaderFlags;
pub use message::{Message, read_message};
pub use query_read::{QueryRead, read_query};
pub use question::{MAX_ASKED, Question};
pub use rr::{Rr, RrList};
pub use wire_fault::WireFault;
