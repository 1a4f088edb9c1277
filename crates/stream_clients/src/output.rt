//! What is to be written to a client.
ghost use Rattle.std.specs.Prelude.{◌≡◌, ◌<◌, ◌≤◌, ◌^◌, ◌++◌, [], ◌==◌, length, drop, OnOk};
ghost use Rattle.stream_front.specs.Split.{framed};
ghost use Rattle.stream_clients.specs.Replies.{IsRepliedTo};

use crate::ReplyFault;
use dname::{OutOfMemory, octets_from};
use std::alloc::Global;
use std::marker::Model;

/// How many octets wait to be written at most: the longest reply behind 8,192 others.
pub const MOST_OUTPUT: usize = 73_729;

// Room for most outputs.
const SMALL_ROOM: usize = 8192;

// The octets of a length.
const LENGTH: usize = 2;

/// Octets that wait to be written, one reply behind another. They take 73,729 octets of memory at most.
#[derive(Drop)]
pub(crate) struct Output {
    octets: Vec<u8>,
    // So many of them were written.
    gone: usize,
}

impl Model for Output {
    ghost use Rattle.std.specs.Prelude.{◌≤◌, List, ℕ, drop, length};

    ghost Value = { List ℕ };

    ghost view = { λ o. drop o.gone o.octets.items };

    ghost invariant = { λ o. o.gone ≤ length o.octets.items };
}

impl Output {
    /// Nothing is to be written. It takes no memory, and keeps the allocator.
    pub(crate) fn empty(alloc: Global) -> Output
        ensures { result ≡ [] }
    {
        Output {
            octets: Vec::new(alloc),
            gone: 0,
        }
    }

    pub(crate) fn as_slice(&self) -> &[u8]
        ensures { result.now ≡ self.now }
    {
        octets_from(&self.octets, self.gone)
    }

    /// How many octets wait.
    pub(crate) fn len(&self) -> usize
        ensures { result ≡ length self.now }
    {
        self.octets.len() - self.gone
    }

    /// Puts the reply last, behind its length.
    pub(crate) fn put(&mut self, reply: &[u8]) -> Result<(), ReplyFault>
        requires { length reply.now < 2 ^ 16 }
        ensures ok { OnOk result (self.new ≡ self.old ++ framed reply.now) }
        ensures fits { IsRepliedTo reply.now self.old result }
    {
        let more = LENGTH + reply.len();
        if MOST_OUTPUT.saturating_sub(self.len()) < more {
            return Err(ReplyFault::Full);
        }
        self.make_room(more)?;
        self.append(reply)?;
        Ok(())
    }

    fn append(&mut self, reply: &[u8]) -> Result<(), OutOfMemory>
        requires { length reply.now < 2 ^ 16 }
        ensures { OnOk result (self.new ≡ self.old ++ framed reply.now) }
    {
        let size = reply.len() as u16;
        self.octets.extend_from_slice(&size.to_be_bytes())?;
        self.octets.extend_from_slice(reply)
    }

    // Takes memory for so many octets more, where those that were written leave too little.
    fn make_room(&mut self, more: usize) -> Result<(), OutOfMemory>
        requires { more < 2 ^ 17 }
        ensures { self.new ≡ self.old }
    {
        if self.octets.capacity() - self.octets.len() >= more {
            return Ok(());
        }
        self.move_to_front();
        let wanted = room_for(self.octets.len() + more);
        self.octets
            .reserve_exact(wanted.saturating_sub(self.octets.len()))
    }

    // Lets go of those that were written.
    fn move_to_front(&mut self)
        ensures { self.new ≡ self.old }
    {
        let count = self.octets.len() - self.gone;
        self.octets.copy_within(self.gone.., 0);
        self.octets.truncate(count);
        self.gone = 0;
    }

    /// So many more were written.
    pub(crate) fn advance(&mut self, count: usize)
        ensures { self.new ≡ drop count self.old }
    {
        self.gone += count.min(self.octets.len() - self.gone);
    }
}

// How much memory is taken for so many octets.
fn room_for(count: usize) -> usize {
    if count <= SMALL_ROOM {
        SMALL_ROOM
    } else {
        MOST_OUTPUT
    }
}
