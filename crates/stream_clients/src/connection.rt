//! One connection.
ghost use Rattle.std.specs.Prelude.{◌≡◌, ◌+◌, ◌<◌, ◌≤◌, ◌^◌, ◌-◌, Some, length, min, take, OnOk, IfOk};
ghost use Rattle.byteorder.specs.Endian.{big_number};
ghost use Rattle.stream_front.specs.Split.{IsPart};
ghost use Rattle.stream_clients.specs.Connection.{IsNext, IsWhole, fresh, message_in, passed, replied, unreplied, with_octets, written};
ghost use Rattle.stream_clients.specs.Idle.{has_waited};
ghost use Rattle.stream_clients.specs.Replies.{IsRepliedTo};

use crate::output::Output;
use crate::{Next, ReplyFault};
use dname::{OutOfMemory, octets_between, u16_at};
use std::alloc::Global;
use std::marker::Model;
use stream_front::{Ahead, Front, first};

/// How many messages of a connection have no reply yet at most.
pub const UNANSWERED: usize = 32;

/// How many octets are kept that belong to no message which was taken: the longest message and its length.
pub const MOST_LEFT: usize = 65_537;

/// How long a connection may be idle, and how long what is to be written may wait, in milliseconds.
pub const PATIENCE: u64 = 10_000;

// The octets of a length.
const LENGTH: usize = 2;

/// A connection that is open. It takes at most 140,000 octets of memory, and none where nothing is left, unanswered or to be written.
#[derive(Drop)]
pub(crate) struct OpenConnection {
    front: Front,
    unanswered: usize,
    output: Output,
    since: u64,
}

impl Model for OpenConnection {
    ghost use Rattle.std.specs.Prelude.{◌≡◌, ◌≤◌, None};
    ghost use Rattle.stream_front.specs.Split.{rest_in, too_small_in};
    ghost use Rattle.stream_clients.specs.Connection.{Connection};
    ghost use Rattle.stream_clients.specs.declared.connection.TheConstants.{UNANSWERED};

    ghost Value = { Connection };

    ghost view = { λ c. record {
      left = rest_in c.front;
      unanswered = c.unanswered;
      output = c.output;
      since = c.since;
    } };

    ghost invariant = { λ c. (too_small_in c.front ≡ None) × (c.unanswered ≤ UNANSWERED) };
}

impl OpenConnection {
    pub(crate) fn fresh(alloc: Global, now: u64) -> OpenConnection
        ensures { result ≡ fresh now }
    {
        OpenConnection {
            front: Front::fresh(alloc),
            unanswered: 0,
            output: Output::empty(alloc),
            since: now,
        }
    }

    /// Takes the first octets of the piece, as many as may be kept, and tells how many.
    pub(crate) fn take(&mut self, piece: &[u8]) -> Result<usize, OutOfMemory>
        ensures ok { IfOk result (λ count.
            with_octets (take count piece.now) self.old ≡ Some self.new) }
        ensures count { IfOk result (λ count.
            count ≡ min (length piece.now) (MOST_LEFT - length self.old.left)) }
        ensures some { IfOk result (λ count.
            IsPart self.old.left → 1 ≤ length piece.now → 1 ≤ count) }
    {
        let count = piece.len().min(room_behind(self.front.rest()));
        self.front.add(octets_between(piece, 0, count))?;
        Ok(count)
    }

    /// What stands next.
    pub(crate) fn next(&self) -> Next
        ensures { IsNext self.now result }
    {
        match first(self.front.rest()) {
            Ahead::Message {
                message: _,
                after: _,
            } => {
                if self.unanswered < UNANSWERED {
                    Next::Message
                } else {
                    Next::TooMany
                }
            }
            Ahead::Part => Next::Nothing,
            Ahead::TooSmall { length: _ } => Next::TooSmall,
        }
    }

    /// The message that stands first.
    pub(crate) fn message(&self) -> &[u8]
        requires { IsNext self.now Next.Message }
        ensures { result.now ≡ message_in self.now.left }
    {
        message_of(self.front.rest())
    }

    /// The message that stands first has been taken.
    pub(crate) fn pass(&mut self)
        requires { IsNext self.old Next.Message }
        ensures { passed self.old ≡ Some self.new }
    {
        let count = count_behind(self.front.rest());
        self.front.keep(count);
        self.unanswered += 1;
    }

    /// A message that was taken has no reply.
    pub(crate) fn no_reply(&mut self, now: u64)
        ensures { unreplied now self.old ≡ Some self.new }
    {
        if self.output.len() == 0 {
            self.since = now;
        }
        self.unanswered = self.unanswered.saturating_sub(1);
    }

    /// Puts the reply of a message behind the others.
    pub(crate) fn reply(&mut self, octets: &[u8], now: u64) -> Result<(), ReplyFault>
        requires { length octets.now < 2 ^ 16 }
        ensures ok { OnOk result (replied octets.now now self.old ≡ Some self.new) }
        ensures fits { IsRepliedTo octets.now self.old.output result }
    {
        self.no_reply(now);
        self.output.put(octets)
    }

    /// What is to be written.
    pub(crate) fn to_write(&self) -> &[u8]
        ensures { result.now ≡ self.now.output }
    {
        self.output.as_slice()
    }

    /// So many octets were written.
    pub(crate) fn written(&mut self, alloc: Global, count: usize, now: u64)
        ensures { written count now self.old ≡ Some self.new }
    {
        if count == 0 {
            return;
        }
        self.output.advance(count);
        self.since = now;
        self.let_go(alloc);
    }

    // Gives memory back where there is nothing to keep.
    fn let_go(&mut self, alloc: Global)
        ensures { self.new ≡ self.old }
    {
        if self.unanswered == 0 && self.output.len() == 0 && self.front.rest().is_empty() {
            self.front = Front::fresh(alloc);
            self.output = Output::empty(alloc);
        }
    }

    /// Whether the connection has waited too long.
    pub(crate) fn has_waited(&self, now: u64) -> bool
        ensures { result ≡ has_waited now self.now }
    {
        let waits = self.unanswered == 0 || self.output.len() != 0;
        waits && now >= self.since && now - self.since >= PATIENCE
    }
}

// How many octets may be kept behind these.
fn room_behind(octets: &[u8]) -> usize
    ensures value { result ≡ MOST_LEFT - length octets.now }
    ensures some { IsPart octets.now → 1 ≤ result }
{
    MOST_LEFT.saturating_sub(octets.len())
}

// The whole message that stands first, without its length.
fn message_of(octets: &[u8]) -> &[u8]
    requires { IsWhole octets.now }
    ensures { result.now ≡ message_in octets.now }
{
    let size = usize::from(u16_at(octets, 0));
    octets_between(octets, LENGTH, LENGTH + size)
}

// How many octets stand behind the whole message that stands first.
fn count_behind(octets: &[u8]) -> usize
    requires { IsWhole octets.now }
    ensures { length octets.now ≡ result + (2 + big_number 2 octets.now) }
{
    octets.len() - LENGTH - usize::from(u16_at(octets, 0))
}
