ghost use Rattle.std.specs.Prelude.{◌≡◌, ◌≤◌, List, ℕ, [], ◌++◌, ◌-◌, length, drop, None, IsTrue, OnOk, OnErr, IfOk};
ghost use Rattle.stream_front.specs.Split.{IsPart, Rest, TooSmall, rest_in, too_small_in};
ghost use Rattle.stream_front.specs.Ahead.{IsWanted};
ghost use Rattle.stream_front.specs.Read.{HasReadCause, HasTaken};

use crate::ReadFault;
use crate::ahead::{LEAST_MESSAGE, LENGTH};
use crate::stream_buffer::StreamBuffer;
use dname::{OutOfMemory, u16_at};
use outside_core::{Failed, Source};
use std::alloc::Global;
use std::marker::Model;

/// What a stream has behind its whole messages so far: less than a message, or a length that no message has. Where each whole message
/// is let go before more is read it takes 65,537 octets at most.
#[derive(Debug, Drop)]
pub struct Front {
    buffer: StreamBuffer,
    // With fewer octets there is no whole message.
    wanted: usize,
    too_small: Option<u16>,
}

impl Model for Front {
    ghost use Rattle.stream_front.specs.Split.{Left, left_of};
    ghost use Rattle.stream_front.specs.Ahead.{IsWanted};

    ghost Value = { Left };

    ghost view = { λ f. left_of f.too_small f.buffer.octets };

    ghost invariant = { λ f. IsWanted f.buffer.octets f.wanted };
}

impl Front {
    /// Before the first octet. It takes no memory, and keeps the allocator.
    pub fn fresh(alloc: Global) -> Front
        ensures { result ≡ Rest [] }
    {
        Front {
            buffer: StreamBuffer::empty(alloc),
            wanted: LENGTH,
            too_small: None,
        }
    }

    /// The length that stands in the stream and that no message has, once it has come.
    pub fn too_small(&self) -> Option<u16>
        ensures { result ≡ too_small_in self.now }
    {
        self.too_small
    }

    /// The octets that belong to no message yet.
    pub fn rest(&self) -> &[u8]
        requires { too_small_in self.now ≡ None }
        ensures { self.now ≡ Rest result.now }
    {
        self.buffer.octets()
    }

    /// Whether too few octets have come for a message whose length is known, so that nobody need look. Where it isn't so there may be less
    /// than a message all the same.
    pub fn waits(&self) -> bool
        requires { too_small_in self.now ≡ None }
        ensures { IsTrue result → IsPart (rest_in self.now) }
    {
        self.buffer.octets().len() < self.wanted
    }

    /// Puts a piece of the stream last.
    pub fn add(&mut self, piece: &[u8]) -> Result<(), OutOfMemory>
        requires { too_small_in self.old ≡ None }
        ensures ok { OnOk result (self.new ≡ Rest (rest_in self.old ++ piece.now)) }
        ensures refused { OnErr result (self.new ≡ self.old) }
    {
        if self.buffer.room() < piece.len() {
            self.buffer.make_room(piece.len())?;
        }
        self.buffer.add(piece);
        Ok(())
    }

    /// Reads the source's next octets, so many at most, and puts them last; 0 of them are the source's end. Memory is taken before
    /// anything is read.
    pub fn read<S: Source>(&mut self, source: &mut S, most: usize) -> Result<usize, ReadFault>
        requires open { too_small_in self.old ≡ None }
        requires some { 1 ≤ most }
        ensures open { too_small_in self.new ≡ None }
        ensures taken { IfOk result (HasTaken (rest_in self.old) (rest_in self.new)
            (S.taken source.old) (S.taken source.new) (S.left source.old) (S.left source.new)) }
        ensures few { IfOk result (λ count. count ≤ most) }
        ensures same { OnErr result (self.new ≡ self.old) }
        ensures failed_taken { OnErr result (S.taken source.new ≡ S.taken source.old) }
        ensures failed_left { OnErr result (S.left source.new ≡ S.left source.old) }
        ensures cause { HasReadCause (S.faults source.old) (S.faults source.new) result }
    {
        if self.buffer.room() == 0 {
            self.buffer.make_room(1)?;
        }
        match self.buffer.read(source, most) {
            Ok(count) => Ok(count),
            Err(Failed) => Err(ReadFault::Source),
        }
    }

    /// Takes the last octets away again.
    pub(crate) fn take_back(&mut self, count: usize)
        ensures { (rest piece : List ℕ) → length piece ≡ count → self.old ≡ Rest (rest ++ piece)
            → self.new ≡ Rest rest }
    {
        self.buffer.cut(count);
        self.wanted = LENGTH;
    }

    /// Only the last octets, so many, belong to no message yet: the messages before them were given.
    pub fn keep(&mut self, count: usize)
        requires open { too_small_in self.old ≡ None }
        requires within { count ≤ length (rest_in self.old) }
        ensures { self.new
            ≡ Rest (drop (length (rest_in self.old) - count) (rest_in self.old)) }
    {
        self.buffer.keep(count);
        self.wanted = wanted_by(self.buffer.octets());
    }

    /// Nothing more is taken from the stream.
    pub(crate) fn fail(&mut self, length: u16)
        ensures { self.new ≡ TooSmall length }
    {
        self.buffer.keep(0);
        self.wanted = LENGTH;
        self.too_small = Some(length);
    }
}

// How many octets there are at least where what begins so has a whole message.
fn wanted_by(octets: &[u8]) -> usize
    ensures { IsWanted octets.now result }
{
    if octets.len() < LENGTH {
        return LENGTH;
    }
    let size = usize::from(u16_at(octets, 0));
    if size < LEAST_MESSAGE {
        return LENGTH;
    }
    LENGTH + size
}
