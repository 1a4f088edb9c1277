//! Replies to DNS queries, and the queries by which they are asked upstream, written octet by octet (RFC 1035, section
//! 4.1).
//!
//! Specs, in reading order: `Kept`, `Reply`, `Shown`, `Sections`, `Error`, `Ask` and `Relay`, which public clauses cite;
//! `Answered`, the reply that held records give; and for the inner steps `Draft`, `Owner` and `Count`.
#![tactic(auto)]

mod alias_reply;
mod ask;
mod draft;
mod error;
mod header;
mod long_reply;
mod owner;
pub mod rcode;
mod records;
mod relay;
mod reply;
mod reply_buffer;
mod sections;

pub use alias_reply::{write_alias_reply, write_alias_reply_within};
pub use ask::write_ask;
pub use draft::{MAX_LONG_REPLY, MAX_REPLY};
pub use error::{write_error, write_plain};
pub use long_reply::write_long_reply;
pub use relay::{write_relay, write_relay_within};
pub use reply::{limit_of, write_reply, write_reply_within};
pub use reply_buffer::{LongReplyBuffer, Reply, ReplyBuffer};
pub use sections::Sections;
