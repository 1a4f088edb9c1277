ghost use Rattle.std.specs.Prelude.{◌≡◌, ◌≤◌, ◌+◌, [], ◌++◌, length, take};

use crate::draft::{Draft, MAX_LONG_REPLY, MAX_REPLY};
use std::marker::Model;

/// A place for the octets of one reply, of N at most, seen as their list. No call on it takes memory.
#[derive(Debug, Drop)]
pub struct Reply<const N: usize> {
    pub(crate) draft: Draft<N>,
}

/// That of a reply in a datagram.
pub type ReplyBuffer = Reply<MAX_REPLY>;

/// That of a reply on a stream. It is of 64 KiB itself, so one is made for many replies.
pub type LongReplyBuffer = Reply<MAX_LONG_REPLY>;

impl<const N: usize> Model for Reply<N> {
    ghost use Rattle.std.specs.Prelude.{List, ℕ};
    ghost use Rattle.reply_core.specs.Draft.{octets_of};

    ghost Value = { List ℕ };

    ghost view = { λ b. octets_of b.draft.written };
}

impl<const N: usize> Reply<N> {
    /// An empty buffer.
    pub fn new() -> Reply<N>
        ensures { result ≡ [] }
    {
        Reply {
            draft: Draft::new(N),
        }
    }

    /// Holds these octets in place of what it held.
    pub fn fill(&mut self, octets: &[u8])
        requires { length octets.now ≤ N }
        ensures { self.new ≡ octets.now }
    {
        self.replace_from(0, octets);
    }

    /// Holds these octets in place of those from place `at` on.
    pub fn replace_from(&mut self, at: usize, octets: &[u8])
        requires at { at ≤ length self.old }
        requires fits { at + length octets.now ≤ N }
        ensures { self.new ≡ take at self.old ++ octets.now }
    {
        self.draft.cut(at, N);
        self.draft.put(octets);
    }

    /// Empties the buffer.
    pub fn clear(&mut self)
        ensures { self.new ≡ [] }
    {
        self.draft.restart(N);
    }

    pub fn as_slice(&self) -> &[u8]
        ensures value { result.now ≡ self.now }
        ensures fits { length result.now ≤ N }
    {
        self.draft.as_slice()
    }
}
