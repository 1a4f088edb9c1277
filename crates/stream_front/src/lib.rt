//! A stream of messages, each after its length in two octets, as DNS has it over TCP (RFC 1035, section 4.2.2; RFC 7766,
//! section 8), in whatever pieces it comes. It knows no cache and no socket.
//!
//! Specs, in reading order: `Split`, what messages a stream has; `Feed`, what a front gives of each piece; `Ahead`, what stands
//! at the front of octets; `Read`, what is read of a source. Public clauses cite them all; `Buffer` serves the inner steps.
#![tactic(auto)]

mod ahead;
mod feed_fault;
mod feeding;
mod front;
mod laws;
mod read_fault;
mod stream_buffer;

pub use ahead::{Ahead, LEAST_MESSAGE, first};
pub use feed_fault::FeedFault;
pub use feeding::feed;
pub use front::Front;
pub use laws::{one_split, pieces_make_one_stream};
pub use read_fault::ReadFault;
