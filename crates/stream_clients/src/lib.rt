//! The connections of one worker's clients, each with what came over it and what is to be written (RFC 7766; messages after their
//! lengths, RFC 1035, section 4.2.2). It is data alone: who moves octets between sockets and these connections is elsewhere.
//!
//! Its specs, in reading order:
//! - `specs/Number.antt`: the number of a client's connection
//! - `specs/Connection.antt`: one connection, what stands next in it, and what calls make of it
//! - `specs/Idle.antt`: which connections have waited too long
//! - `specs/Places.antt`: the places of connections
//! - `specs/Steps.antt`: the calls, one by one
//! - `specs/Laws.antt`: what holds of every run of calls
#![tactic(auto)]

mod client_number;
mod connection;
mod laws;
mod next;
mod output;
mod place;
mod reply_fault;
mod stream_clients;

pub use client_number::{ClientNumber, PLACES};
pub use connection::{MOST_LEFT, PATIENCE, UNANSWERED};
pub use laws::{
    a_stream_has_these_bounds, a_whole_message_is_next, each_gets_its_replies, each_has_its_number,
    each_stream_is_split, few_are_unanswered, others_are_left_alone, the_gone_get_nothing,
    the_gone_stay_gone,
};
pub use next::Next;
pub use output::MOST_OUTPUT;
pub use reply_fault::ReplyFault;
pub use stream_clients::StreamClients;
