//! A forwarder that denies from its cache: the table of the queries that wait for the upstream, what one datagram does, what a worker
//! does over its link, and some workers, each over a link and on a thread of its own, all over one new cache.
//!
//! Of this crate's specs read `specs/Pending.antt`, `Done`, `Sound`, `Serves`, `Turn`, `Rounds`, `Worker`, `Links` and `Back`, in this
//! order; `Latest`, `AtWork`, `Sight` and `Workers` serve the inner steps.
#![tactic(auto)]

mod action;
mod answer;
mod binding;
mod bound_link;
mod datagram;
mod deed;
mod event;
mod forwarder;
mod latest;
mod laws;
mod parting;
mod parts;
mod round;
mod serve_error;
mod serve_fault;
mod service;
mod storing;
mod why;
mod work;
mod worker;
mod worker_core;
mod workers;
mod workspace;

pub use action::Action;
pub use datagram::serve_datagram;
pub use deed::Deed;
pub use event::Event;
pub use forwarder::serve;
pub use laws::shifts_serve;
pub use serve_error::ServeError;
pub use serve_fault::ServeFault;
pub use service::Service;
pub use why::Why;
pub use work::serve_worker;
pub use worker_core::{SLOTS, WorkerCore};
