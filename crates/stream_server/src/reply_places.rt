//! What a server of one stream has at hand.
ghost use Rattle.std.specs.Prelude.{◌≡◌, []};

use arrayvec::ArrayVec;
use reply_core::{LongReplyBuffer, ReplyBuffer};

/// So many octets of a reply with its length are written at once.
pub(crate) const AT_ONCE: usize = 4096;

/// Places for replies, and for the first octets of one behind its length.
#[derive(Drop)]
pub(crate) struct ReplyPlaces {
    pub(crate) reply: ReplyBuffer,
    pub(crate) long: LongReplyBuffer,
    pub(crate) first: ArrayVec<u8, AT_ONCE>,
}

impl ReplyPlaces {
    pub(crate) fn new() -> ReplyPlaces {
        ReplyPlaces {
            reply: ReplyBuffer::new(),
            long: LongReplyBuffer::new(),
            first: ArrayVec::new(),
        }
    }
}

/// Which place has the reply.
#[derive(Clone, Copy, Debug, PartialEq, Eq)]
pub(crate) enum Answer {
    /// Nothing goes back.
    Nothing,
    Short,
    Long,
}
