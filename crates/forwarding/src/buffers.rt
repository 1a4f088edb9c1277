ghost use Rattle.std.specs.Prelude.{◌≡◌, ◌≤◌, length};
ghost use Rattle.arrivals.specs.declared.event.TheConstants.{MAX_MESSAGE};
ghost use Rattle.forwarding.specs.Buffers.{octets_in};

use arrivals::Carrier;
use reply_core::{LongReplyBuffer, ReplyBuffer};

/// Places for replies, one for each carrier: what goes by a datagram needs no place of 64 KiB. They are made once for all replies.
#[derive(Drop)]
pub(crate) struct Buffers {
    pub(crate) datagram: ReplyBuffer,
    pub(crate) stream: LongReplyBuffer,
}

impl Buffers {
    pub(crate) fn new() -> Buffers {
        Buffers {
            datagram: ReplyBuffer::new(),
            stream: LongReplyBuffer::new(),
        }
    }

    /// The octets of the reply that goes by the carrier.
    pub(crate) fn octets(&self, carrier: Carrier) -> &[u8]
        ensures value { result.now ≡ octets_in self.now carrier }
        ensures fits { length result.now ≤ MAX_MESSAGE }
    {
        match carrier {
            Carrier::Datagram => self.datagram.as_slice(),
            Carrier::Stream => self.stream.as_slice(),
        }
    }
}
