//! The outside as traits with a written meaning and a count of faults, their forms in memory, and
//! thin adapters over the streams, the network and the clock of std.
//!
//! Specs, in reading order: `Told`, `Fault`, `Datagram`, `Event`, `Returned`, which the traits cite;
//! `SteadySource`, `FaultPlan`, `MemorySource`, `MemorySink`, `MemoryLink`, `MemoryHarbor` for the
//! forms in memory; `Stream`, `Udp` for the adapters. Public clauses cite them all.
#![tactic(auto)]

mod clock;
mod datagram;
mod datagram_octets;
mod event;
mod failed;
mod fault_plan;
mod gate;
mod harbor;
mod link;
mod memory_harbor;
mod memory_link;
mod memory_sink;
mod memory_source;
mod sink;
mod slices;
mod source;
mod steady;
mod stream;
mod system_clock;
mod udp;
mod writing;

pub use clock::{Clock, FixedClock};
pub use datagram::{Datagram, MAX_DATAGRAM, Peer};
pub use datagram_octets::DatagramOctets;
pub use event::Event;
pub use failed::Failed;
pub use gate::{Gate, OpenGate, Side};
pub use harbor::Harbor;
pub use link::Link;
pub use memory_harbor::MemoryHarbor;
pub use memory_link::MemoryLink;
pub use memory_sink::MemorySink;
pub use memory_source::MemorySource;
pub use sink::Sink;
pub use source::Source;
pub use steady::{SteadySink, SteadySource};
pub use stream::{StreamSink, StreamSource};
pub use system_clock::SystemClock;
pub use udp::{UdpHarbor, UdpLink};
pub use writing::write_whole;

/// No memory was left for what the call had to keep.
pub type OutOfMemory = std::alloc::AllocError;
