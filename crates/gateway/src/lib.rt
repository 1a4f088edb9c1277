//! Connections of streams as a trait, its form in memory, and a thin adapter over the network of std.
//!
//! Specs, in reading order: `Connection`, which the trait cites; `Reach`; `MemoryGateway` for the form in memory; `Tcp` for the
//! adapter. Public clauses cite them all.
#![tactic(auto)]

mod call_plan;
mod gateway;
mod memory_gateway;
mod tcp;
mod timed_source;
mod watched_sink;
mod watched_source;

pub use gateway::Gateway;
pub use memory_gateway::MemoryGateway;
pub use tcp::TcpGateway;
pub use timed_source::TimedSource;
pub use watched_sink::WatchedSink;
pub use watched_source::WatchedSource;
