//! A server of streams: what a message gets from the cache, a stream from its beginning to its end, and connections that are
//! accepted one after the other, served and given back.
//!
//! Of this crate's specs read `specs/Turn.antt`, `Stream` and `Served`, in this order; `ReplyPlaces`, `Piece` and `Next` serve
//! the inner steps.
#![tactic(auto)]

mod connect_fault;
mod connection;
mod framing;
mod pieces;
mod reply_places;
mod replying;
mod server;
mod serving;
mod stream_fault;
mod turn;

pub use connect_fault::ConnectFault;
pub use replying::long_reply;
pub use server::serve_connections;
pub use serving::{MOST_OCTETS, serve_stream};
pub use stream_fault::StreamFault;
