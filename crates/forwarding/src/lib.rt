//! A worker that forwards queries without end, and denies from the cache. Whatever it sends is lawful when it is sent: it is what the
//! events that it received call for, by the one history of the cache.
//!
//! Its specs, in reading order: `Limit`, `Passed`, `Options` and `ExtendedError`, `Done`, `Turn`, `Lawful`, `Holding`, `Laws`; for the inner
//! steps `Stored`, `Buffers` and `Ends`, and for the outlet in memory `MemoryOutlet`.
#![tactic(auto)]

mod answering;
mod asking;
mod buffers;
mod carried;
mod counting;
mod dice;
mod extended_error;
mod holding;
mod laws;
mod left_out;
mod memory_outlet;
mod name_ends;
mod opt_options;
mod outlet;
mod own_names;
mod passed_errors;
mod passed_names;
mod querying;
mod sent;
mod storing;
mod synthesized;
mod telling;
mod ticking;
mod told_laws;
mod want;
mod worker;

pub use arrivals::{Came, Carrier, Event, MAX_MESSAGE, MessageOctets, Moment};
pub use carried::Carried;
pub use dice::Dice;
pub use extended_error::{EXTENDED_ERROR, SYNTHESIZED};
pub use holding::Holding;
pub use laws::{
    each_is_asked_by_stream_once, each_query_is_replied_to_once, each_turn_is_a_step,
    each_turn_is_lawful, none_is_asked_twice, none_waits_for_long, what_is_dropped,
};
pub use memory_outlet::MemoryOutlet;
pub use outlet::Outlet;
pub use own_names::OWN_NAMES;
pub use passed_errors::write_told_relay;
pub use passed_names::PassedNames;
pub use sent::{Receiver, Sent};
pub use synthesized::mark_synthesized;
pub use told_laws::{a_mark_is_an_option, errors_are_passed_on};
pub use want::Want;
pub use worker::{serve_on, serve_some};
