//! The questions of one worker that wait for the upstream's answers, with the clients that want them.
//!
//! Its specs, in reading order:
//! - `specs/Waiting.antt`: a question that waits, and one slot of the table
//! - `specs/Steps.antt`: what events do to the table, and who is replied to
//! - `specs/Laws.antt`: what holds of every run of events
//! - `specs/Index.antt`: what is kept beside the slots, which no public clause cites
#![tactic(auto)]

mod client;
mod copying;
mod guest;
mod held;
mod index;
mod laws;
mod mark;
mod place;
mod waiting_table;

pub use client::Client;
pub use laws::{
    a_question_waits_by_these_times, asked_by_stream_once, asked_once, never_for_long, once,
    waits_from_its_coming,
};
pub use place::Place;
pub use waiting_table::{ASKINGS, CLIENTS, PATIENCE, SLOTS, STEP, WaitingTable};
