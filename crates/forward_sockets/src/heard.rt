//! What is heard of a socket.
ghost use Rattle.std.specs.Prelude.{◌≡◌, ◌≤◌, length};

use arrivals::{MAX_MESSAGE, MessageOctets};

/// What a socket had at its turn.
#[derive(Clone, Copy, Debug, PartialEq, Eq)]
pub(crate) enum Heard {
    /// A message. There may be more.
    Message,
    /// No message, but there may be more.
    Other,
    /// Nothing: the system tells when there is more.
    Nothing,
    /// That there will be nothing more.
    End,
}

/// Puts a message in the place of another.
pub(crate) fn put(into: &mut MessageOctets, octets: &[u8])
    requires { length octets.now ≤ MAX_MESSAGE }
    ensures { into.new.items ≡ octets.now }
{
    into.clear();
    let fitted = into.try_extend_from_slice(octets).is_ok();
    prove!(fitted);
}
