//! The cache for C: snapshots of what is held, each behind a handle of its own. `include/dnsreplay.h` is what a C program reads.
//!
//! Specs, in reading order: `Codes`, `Handle` and `Calls`, which the calls cite; `State`, what a handle's fields stand for; and
//! `Owns`, what a handle owns.
#![tactic(auto)]

mod code;
mod exports;
mod kept;
mod loose;
mod putting;
mod snapshot;
