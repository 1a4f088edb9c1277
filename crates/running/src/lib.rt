//! A run of the program `dnsreplay`: frames of queries and upstream answers in, frames of what becomes of them out; or datagrams
//! or connections on loopback; or an audit of a recorded run; or a forwarder that never ends. `run` carries the headline, and the
//! program calls it by `run_here`.
//!
//! Read `specs/Run.antt`, `Serve`, `Connections`, `Audit`, `Forward`, `Help` and `Status`, then `Summary` and `Made`, then `Words`
//! of `command_line`, and then the specs of `replay_meaning`, `serving`, `stream_server`, `run_audit`, `audit_source` and
//! `forwarding`.
#![tactic(auto)]

mod audit;
mod commands;
mod forward;
mod loading;
mod machine;
mod reading;
mod replay;
mod selfrun;
mod status;
mod summary;
mod tcp;
mod telling;

pub use commands::run;
pub use forward::{Operator, OutletFault, Outlets, Shown};
pub use machine::run_here;
pub use status::Status;
