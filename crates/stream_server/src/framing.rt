//! A reply behind its length.
ghost use Rattle.std.specs.Prelude.{◌≡◌, ℕ, ◌+◌, ◌<◌, ◌≤◌, ◌^◌, ◌++◌, List, length, OnOk, OnErr};
ghost use Rattle.byteorder.specs.Endian.{big_bytes};
ghost use Rattle.outside_core.specs.Fault.{HasCause};
ghost use Rattle.outside_core.specs.Told.{append_told};
ghost use Rattle.stream_front.specs.Split.{framed};
ghost use Rattle.stream_server.specs.ReplyPlaces.{octets_at};
ghost use Rattle.stream_server.specs.Stream.{IsCutShort};
ghost use Rattle.stream_server.specs.declared.reply_places.TheConstants.{AT_ONCE};

use crate::reply_places::{AT_ONCE, Answer, ReplyPlaces};
use arrayvec::ArrayVec;
use outside_core::{Failed, Sink, write_whole};

/// The octets of a length.
const LENGTH: usize = 2;

/// Writes what the reply places have for a message.
pub(crate) fn write_answer<K: Sink>(
    sink: &mut K,
    answer: Answer,
    places: &mut ReplyPlaces,
) -> Result<(), Failed>
    ensures written { OnOk result (K.written sink.new
        ≡ append_told (K.written sink.old) (octets_at places.old answer)) }
    ensures part { OnErr result ((went : List ℕ) × IsCutShort went (octets_at places.old answer)
        × (K.written sink.new ≡ append_told (K.written sink.old) went)) }
    ensures cause { HasCause (K.faults sink.old) (K.faults sink.new) result }
{
    match answer {
        Answer::Nothing => Ok(()),
        Answer::Short => write_framed(sink, places.reply.as_slice(), &mut places.first),
        Answer::Long => write_framed(sink, places.long.as_slice(), &mut places.first),
    }
}

// Writes the reply behind its length, so that the first octets of it go at once with the length (RFC 7766, section 8).
fn write_framed<K: Sink>(
    sink: &mut K,
    reply: &[u8],
    first: &mut ArrayVec<u8, AT_ONCE>,
) -> Result<(), Failed>
    requires { length reply.now < 2 ^ 16 }
    ensures written { OnOk result (K.written sink.new
        ≡ append_told (K.written sink.old) (framed reply.now)) }
    ensures part { OnErr result ((went : List ℕ) × IsCutShort went (framed reply.now)
        × (K.written sink.new ≡ append_told (K.written sink.old) went)) }
    ensures cause { HasCause (K.faults sink.old) (K.faults sink.new) result }
{
    let (now, later) = reply.split_at(reply.len().min(AT_ONCE - LENGTH));
    fill(first, reply.len() as u16, now);
    write_both(sink, first, later)
}

// Puts the length and the octets in place of what was there.
fn fill(first: &mut ArrayVec<u8, AT_ONCE>, size: u16, octets: &[u8])
    requires { length octets.now + 2 ≤ AT_ONCE }
    ensures { first.new.items ≡ big_bytes 2 size ++ octets.now }
{
    first.clear();
    let has_length = first.try_extend_from_slice(&size.to_be_bytes()).is_ok();
    prove!(has_length);
    let has_octets = first.try_extend_from_slice(octets).is_ok();
    prove!(has_octets);
}

// Writes the first octets and then the later ones.
fn write_both<K: Sink>(sink: &mut K, first: &[u8], later: &[u8]) -> Result<(), Failed>
    requires { 1 ≤ length first.now }
    ensures written { OnOk result (K.written sink.new
        ≡ append_told (K.written sink.old) (first.now ++ later.now)) }
    ensures part { OnErr result ((went : List ℕ) × IsCutShort went (first.now ++ later.now)
        × (K.written sink.new ≡ append_told (K.written sink.old) went)) }
    ensures cause { HasCause (K.faults sink.old) (K.faults sink.new) result }
{
    match write_whole(sink, first) {
        Ok(()) => write_whole(sink, later),
        Err(failed) => Err(failed),
    }
}
