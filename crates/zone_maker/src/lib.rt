//! A zone made to measure, by a seed and a number of names, with the messages and queries that are about it.
//!
//! Its specs, in reading order: `Made`, `Messages`, `Questions`; and `NameKinds`, for the inner steps.
#![tactic(auto)]

mod laws;
mod made;
mod message;
mod name_kind;
mod names;
mod pieces;
mod query;
mod zone;

pub use laws::{a_made_zone, worked_octets};
pub use made::{Made, make};
pub use query::question;
