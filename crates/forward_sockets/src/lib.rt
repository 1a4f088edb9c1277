//! The sockets of one worker of a forwarder, on the machine's own network: those at which clients ask, by datagrams and by streams, and
//! one for each asking of the upstream. Trusted, as no clause says what is on the wire.
#![tactic(auto)]

mod address;
mod asked_stream;
mod askings;
mod client_ring;
mod connection;
mod datagrams;
mod faults;
mod heard;
mod listeners;
mod moments;
mod open_fault;
mod opening;
mod pace;
mod queries;
mod random_ids;
mod ready;
mod replies;
mod sending;
mod sockets;
mod streaming;
mod streams;
mod watch;

pub use faults::{Fault, Faults};
pub use listeners::MAX_LISTENERS;
pub use open_fault::OpenFault;
pub use random_ids::RandomIds;
pub use sockets::Sockets;
