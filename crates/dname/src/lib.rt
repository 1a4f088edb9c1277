//! What all other crates stand on: domain names in canonical order, the arcs of an order, octets and lists, and the
//! numbers of types. It knows no message, no record and no zone.
//!
//! Its specs, in reading order:
//! - `specs/Name.antt`: what a name is, its wire form, above and below, canonical order
//! - `specs/Read.antt`: what octets say of a name at their front, and each fault
//! - `specs/NameData.antt`: the name that octets are, read whole
//! - `specs/Pack.antt`: strings of octets that lie one behind another
//! - `specs/Tests.antt`: tests of names and lists, with which the definitions above compute
//! - `specs/Arc.antt`: arcs of the ring that an order makes of its values
//! - `specs/Digest.antt`: a number that keeps the order of the names under one apex
//! - `specs/Order.antt`: the laws of canonical order, which no public clause cites
//! - `specs/ShortOrLong.antt`: where a pack's octets lie, which no public clause cites
#![tactic(auto)]

mod arc;
mod boxed_name;
mod item_list;
mod labels;
mod lent_name;
mod name;
mod name_data;
mod name_fault;
mod octets;
mod octets_list;
mod order;
mod pack;
mod packed;
mod pieces;
mod reader;
mod slices;
mod stored_octets;
pub mod types;
mod wire;

pub use arc::{arc_has, arcs_meet, arcs_part_the_ring, inside_by_arc};
pub use boxed_name::BoxedName;
pub use item_list::ItemList;
pub use lent_name::LentName;
pub use name::Name;
pub use name_data::{a_name_is_read_whole, name_in, one_name_in};
pub use name_fault::NameFault;
pub use octets::{Octets, OutOfMemory};
pub use octets_list::OctetsList;
pub use order::{descendants_stand_together, digest_keeps_the_order};
pub use pack::Pack;
pub use packed::Packed;
pub use slices::{octets_between, octets_from, u16_at, u32_at};
pub use wire::MAX_WIRE;
