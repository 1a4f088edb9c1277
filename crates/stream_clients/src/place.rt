//! A place for connections, one after another.
ghost use Rattle.std.specs.Prelude.{◌≡◌, ◌<◌, ◌≤◌, ◌^◌, ◌+◌, None, Some, is_some, length, take, OnOk, OnErr, IfOk};
ghost use Rattle.stream_clients.specs.declared.next.Next.TheVariants as next;
ghost use Rattle.stream_clients.specs.Connection.{closed, passed, replied, unreplied, with_octets, written};
ghost use Rattle.stream_clients.specs.Idle.{has_waited_at};
ghost use Rattle.stream_clients.specs.Places.{IsNextOf, begun, changed_in, connection_in, count_taken, is_free, message_of, output_of, settled_in, unused};
ghost use Rattle.stream_clients.specs.Replies.{IsReplied};

use crate::connection::OpenConnection;
use crate::{Next, ReplyFault};
use dname::OutOfMemory;
use std::alloc::Global;
use std::marker::Model;

// A place has fewer connections.
const GENERATIONS: u64 = 1 << 58;

/// A place, which has one connection at most.
#[derive(Drop)]
pub(crate) struct Place {
    generation: u64,
    connection: Option<OpenConnection>,
}

impl Model for Place {
    ghost use Rattle.std.specs.Prelude.{◌<◌, ◌^◌};
    ghost use Rattle.stream_clients.specs.Places as spec;

    ghost Value = { spec.Place };

    ghost view = { λ p. record { generation = p.generation; connection = p.connection } };

    ghost invariant = { λ p. p.generation < 2 ^ 58 };
}

impl Place {
    /// A place that has had no connection.
    pub(crate) fn unused() -> Place
        ensures { result ≡ unused }
    {
        Place {
            generation: 0,
            connection: None,
        }
    }

    pub(crate) fn is_free(&self) -> bool
        ensures { result ≡ is_free self.now }
    {
        self.connection.is_none() && self.generation + 1 < GENERATIONS
    }

    /// How many connections the place has had.
    pub(crate) fn generation(&self) -> u64
        ensures value { result ≡ self.now.generation }
        ensures few { result < 2 ^ 58 }
    {
        self.generation
    }

    /// A connection begins.
    pub(crate) fn begin(&mut self, alloc: Global, now: u64)
        requires { self.old.generation + 1 < 2 ^ 58 }
        ensures { self.new ≡ begun now self.old }
    {
        self.generation += 1;
        self.connection = Some(OpenConnection::fresh(alloc, now));
    }

    pub(crate) fn is_open(&self, generation: u64) -> bool
        ensures { result ≡ is_some (connection_in generation self.now) }
    {
        self.generation == generation && self.connection.is_some()
    }

    pub(crate) fn close(&mut self, generation: u64)
        ensures { self.new ≡ changed_in generation closed self.old }
    {
        if self.generation == generation {
            self.connection = None;
        }
    }

    pub(crate) fn take(&mut self, generation: u64, piece: &[u8]) -> Result<usize, OutOfMemory>
        ensures ok { IfOk result (λ count. self.new
            ≡ changed_in generation (with_octets (take count piece.now)) self.old) }
        ensures count { IfOk result (λ count.
            count ≡ count_taken piece.now (connection_in generation self.old)) }
        ensures some { IfOk result (λ count.
            IsNextOf (connection_in generation self.old) next.Nothing
            → 1 ≤ length piece.now → 1 ≤ count) }
        ensures closed { OnErr result (self.new ≡ changed_in generation closed self.old) }
    {
        if self.generation != generation {
            return Ok(piece.len());
        }
        let Some(connection) = &mut self.connection else {
            return Ok(piece.len());
        };
        let taken = connection.take(piece);
        if taken.is_err() {
            self.connection = None;
        }
        taken
    }

    pub(crate) fn next(&mut self, generation: u64) -> Next
        ensures next { IsNextOf (connection_in generation self.old) result }
        ensures settled { self.new ≡ settled_in generation result self.old }
    {
        if self.generation != generation {
            return Next::Nothing;
        }
        let Some(connection) = &self.connection else {
            return Next::Nothing;
        };
        let next = connection.next();
        if next == Next::TooMany || next == Next::TooSmall {
            self.connection = None;
        }
        next
    }

    pub(crate) fn message(&self, generation: u64) -> &[u8]
        requires { IsNextOf (connection_in generation self.now) next.Message }
        ensures { result.now ≡ message_of (connection_in generation self.now) }
    {
        if self.generation != generation {
            return b"";
        }
        match &self.connection {
            Some(connection) => connection.message(),
            None => b"",
        }
    }

    pub(crate) fn pass(&mut self, generation: u64)
        requires { IsNextOf (connection_in generation self.old) next.Message }
        ensures { self.new ≡ changed_in generation passed self.old }
    {
        if self.generation != generation {
            return;
        }
        if let Some(connection) = &mut self.connection {
            connection.pass();
        }
    }

    pub(crate) fn reply(
        &mut self,
        generation: u64,
        octets: &[u8],
        now: u64,
    ) -> Result<(), ReplyFault>
        requires { length octets.now < 2 ^ 16 }
        ensures ok { OnOk result (self.new
            ≡ changed_in generation (replied octets.now now) self.old) }
        ensures fits { IsReplied octets.now (connection_in generation self.old) result }
        ensures closed { OnErr result (self.new ≡ changed_in generation closed self.old) }
    {
        if self.generation != generation {
            return Ok(());
        }
        let Some(connection) = &mut self.connection else {
            return Ok(());
        };
        let replied = connection.reply(octets, now);
        if replied.is_err() {
            self.connection = None;
        }
        replied
    }

    pub(crate) fn no_reply(&mut self, generation: u64, now: u64)
        ensures { self.new ≡ changed_in generation (unreplied now) self.old }
    {
        if self.generation != generation {
            return;
        }
        if let Some(connection) = &mut self.connection {
            connection.no_reply(now);
        }
    }

    pub(crate) fn to_write(&self, generation: u64) -> &[u8]
        ensures { result.now ≡ output_of (connection_in generation self.now) }
    {
        if self.generation != generation {
            return b"";
        }
        match &self.connection {
            Some(connection) => connection.to_write(),
            None => b"",
        }
    }

    pub(crate) fn written(&mut self, generation: u64, alloc: Global, count: usize, now: u64)
        ensures { self.new ≡ changed_in generation (written count now) self.old }
    {
        if self.generation != generation {
            return;
        }
        if let Some(connection) = &mut self.connection {
            connection.written(alloc, count, now);
        }
    }

    /// Whether the connection has waited too long.
    pub(crate) fn has_waited(&self, now: u64) -> bool
        ensures { result ≡ has_waited_at now self.now.connection }
    {
        match &self.connection {
            Some(connection) => connection.has_waited(now),
            None => false,
        }
    }
}
