//! The records that a cache keeps of validated answers, and exact readers of the data of NSEC, NSEC3 and RRSIG records
//! (RFC 4034, RFC 5155).
//!
//! Specs, in reading order: `TypeSet`, `NsecParts`, `Nsec3Parts`, `Rrsig`, `TimeLeft`, and `Proof`, what a proof is made of. Public
//! clauses cite them all, but not `Kept`, the form in which records are kept.
#![tactic(auto)]

mod batch;
mod kept_nsec;
mod kept_nsec3;
mod kept_set;
mod kept_strings;
mod nsec3_parts;
mod nsec3_rec;
mod nsec_parts;
mod nsec_rec;
mod pieces;
mod record;
mod record_list;
mod rrsig;
mod set_rec;
mod time_left;
mod type_set;
mod verdict;

pub use batch::Batch;
pub use kept_nsec::KeptNsec;
pub use kept_nsec3::KeptNsec3;
pub use kept_set::KeptSet;
pub use nsec_parts::{NsecFault, NsecParts};
pub use nsec_rec::NsecRec;
pub use nsec3_parts::{HASH_OCTETS, Nsec3Fault, Nsec3Parts};
pub use nsec3_rec::Nsec3Rec;
pub use record::Record;
pub use record_list::RecordList;
pub use rrsig::{Rrsig, SigFault};
pub use set_rec::SetRec;
pub use time_left::remaining;
pub use type_set::{LentTypes, MapFault, TypeSet};
pub use verdict::{Denial, Kind, Verdict};
