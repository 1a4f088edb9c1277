//! Octets into a room of the caller's.
ghost use Rattle.std.specs.Prelude.{MatchBool};
ghost use Rattle.dnsreplay_c.specs.Calls.{IsWithoutRoom, IsWritten};

/// Whether the octets fit. Then they are at the front of the room, the rest of which stays as it was, and their number is written;
/// else both stay.
pub(crate) fn put(octets: &[u8], room: &mut [u8], written: &mut usize) -> bool
    ensures { MatchBool result (IsWritten octets.now room.old room.new written.new)
        (IsWithoutRoom octets.now room.old room.new written.old written.new) }
{
    if octets.len() > room.len() {
        return false;
    }
    room[..octets.len()].copy_from_slice(octets);
    *written = octets.len();
    true
}
