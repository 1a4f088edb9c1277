//! What an operator of the forwarder reads: its status, and the lines that it writes to standard error.
//!
//! Its specs: `specs/Status.antt`, `Notices.antt`, `Lines.antt`, `Start.antt` and `Laws.antt`, which the contracts cite.
#![tactic(auto)]

mod cache_report;
mod call;
mod call_faults;
mod family;
mod heard;
mod laws;
mod notice;
mod notices;
mod start;
mod status;
mod told;
mod totals;
mod worker_report;

pub use cache_report::CacheReport;
pub use call::{CALLS, Call};
pub use call_faults::CallFaults;
pub use laws::{
    each_counter_is_shown_once, lines_are_minutes_apart, lines_come_by_these_times,
    lines_count_what_is_new, no_two_counters_are_alike, silence_and_return_take_turns,
};
pub use notice::{Notice, What, notice_text};
pub use notices::{NOTICES, Notices};
pub use start::start_text;
pub use status::status_text;
pub use worker_report::WorkerReport;
