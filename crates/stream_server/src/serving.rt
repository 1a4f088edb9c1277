//! One stream from its beginning to its end.
ghost use Rattle.cache_versions.specs.Seats.{seen_by};
ghost use Rattle.resolver.specs.Caches.{HasOnlyRead, IsSeatOf};
ghost use Rattle.stream_server.specs.Stream.{HasFaults, HasStreamed};

use crate::StreamFault;
use crate::pieces::answer_read;
use crate::reply_places::ReplyPlaces;
use outside_core::{Clock, Sink, Source};
use resolver::{CacheSeat, SharedCache};
use std::alloc::Global;
use stream_front::Front;

/// The most octets that a stream may have.
pub const MOST_OCTETS: usize = 67_108_864;

/// Answers the messages of the source's stream in their order, each once it is whole and at a moment that the clock then tells, to
/// the stream's end, and gives how many octets of a message follow the last one. What was read and written before a fault stays.
///
/// `Source` and `Sink` come where a call of theirs failed; `TooSmall` once a length has come that no message has, and nothing behind it
/// is answered; `TooLong` once more octets were read than a stream may have. Memory is taken for octets that are read alone, some 74 kB
/// at most.
pub fn serve_stream<S: Source, K: Sink, C: Clock>(
    alloc: Global,
    cache: &SharedCache,
    seat: &mut CacheSeat,
    source: &mut S,
    sink: &mut K,
    clock: &C,
) -> Result<u32, StreamFault>
    requires { IsSeatOf cache.now seat.old }
    ensures read { HasOnlyRead cache.now seat.old seat.new }
    ensures faults { HasFaults (S.faults source.old) (S.faults source.new)
        (K.faults sink.old) (K.faults sink.new) result }
    ensures streamed { HasStreamed (C.Clock.moment clock.now) (seen_by seat.old) (seen_by seat.new)
        (S.taken source.old) (S.taken source.new) (S.left source.old) (S.left source.new)
        (K.written sink.old) (K.written sink.new) result }
{
    let mut front = Front::fresh(alloc);
    let mut places = ReplyPlaces::new();
    let mut read = 0;
    while read <= MOST_OCTETS {
        let count = front.read(source, MOST_OCTETS + 1 - read)?;
        if count == 0 {
            return Ok(front.rest().len() as u32);
        }
        answer_read(cache, seat, &mut front, clock, sink, &mut places)?;
        read += count;
    }
    Err(StreamFault::TooLong)
}
