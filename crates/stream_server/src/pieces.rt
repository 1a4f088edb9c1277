//! The messages that have come whole.
ghost use Rattle.std.specs.Prelude.{◌≡◌, None};
ghost use Rattle.cache_versions.specs.Seats.{seen_by};
ghost use Rattle.outside_core.specs.Fault.{HasCause};
ghost use Rattle.resolver.specs.Caches.{HasOnlyRead, IsSeatOf};
ghost use Rattle.stream_front.specs.Split.{too_small_in};
ghost use Rattle.stream_server.specs.Piece.{AreAnswered, HasAnswered, IsOneAnswered, SinkFaults};

use crate::StreamFault;
use crate::framing::write_answer;
use crate::reply_places::ReplyPlaces;
use crate::turn::answer;
use outside_core::{Clock, Failed, Sink};
use resolver::{CacheSeat, SharedCache};
use stream_front::{Ahead, Front, first};

/// Answers each message that has come whole, in order, at a moment that the clock tells where there may be one. It takes no memory.
pub(crate) fn answer_read<K: Sink, C: Clock>(
    cache: &SharedCache,
    seat: &mut CacheSeat,
    front: &mut Front,
    clock: &C,
    sink: &mut K,
    places: &mut ReplyPlaces,
) -> Result<(), StreamFault>
    requires seat { IsSeatOf cache.now seat.old }
    requires open { too_small_in front.old ≡ None }
    ensures read { HasOnlyRead cache.now seat.old seat.new }
    ensures answered { HasAnswered (C.Clock.moment clock.now) (seen_by seat.old) (seen_by seat.new)
        front.old front.new (K.written sink.old) (K.written sink.new) result }
    ensures faults { SinkFaults (K.faults sink.old) (K.faults sink.new) result }
{
    if front.waits() {
        return Ok(());
    }
    let left = answer_all(cache, seat, front.rest(), clock.now(), sink, places)?;
    front.keep(left);
    Ok(())
}

// Answers each whole message at the front of the octets, in order, at the moment, and gives how many octets follow them.
fn answer_all<K: Sink>(
    cache: &SharedCache,
    seat: &mut CacheSeat,
    octets: &[u8],
    now: u32,
    sink: &mut K,
    places: &mut ReplyPlaces,
) -> Result<usize, StreamFault>
    requires { IsSeatOf cache.now seat.old }
    ensures read { HasOnlyRead cache.now seat.old seat.new }
    ensures answered { AreAnswered now (seen_by seat.old) (seen_by seat.new) octets.now
        (K.written sink.old) (K.written sink.new) result }
    ensures faults { SinkFaults (K.faults sink.old) (K.faults sink.new) result }
{
    let mut rest = octets;
    loop {
        match first(rest) {
            Ahead::Message { message, after } => {
                match answer_one(cache, seat, message, now, sink, places) {
                    Ok(()) => rest = after,
                    Err(_) => return Err(StreamFault::Sink),
                }
            }
            Ahead::Part => return Ok(rest.len()),
            Ahead::TooSmall { length } => return Err(StreamFault::TooSmall { length }),
        }
    }
}

// Answers one message.
fn answer_one<K: Sink>(
    cache: &SharedCache,
    seat: &mut CacheSeat,
    message: &[u8],
    now: u32,
    sink: &mut K,
    places: &mut ReplyPlaces,
) -> Result<(), Failed>
    requires { IsSeatOf cache.now seat.old }
    ensures read { HasOnlyRead cache.now seat.old seat.new }
    ensures answered { IsOneAnswered now (seen_by seat.new) message.now
        (K.written sink.old) (K.written sink.new) result }
    ensures cause { HasCause (K.faults sink.old) (K.faults sink.new) result }
{
    let which = answer(cache, seat, message, now, places);
    write_answer(sink, which, places)
}
