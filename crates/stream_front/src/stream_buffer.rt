//! Octets that were read, with room for more of them.
ghost use Rattle.std.specs.Prelude.{◌≡◌, ◌<◌, ◌≤◌, ◌^◌, ◌-◌, ℕ, List, [], ◌++◌, length, drop, take, OnOk, OnErr, IfOk};
ghost use Rattle.outside_core.specs.Fault.{HasCause};
ghost use Rattle.stream_front.specs.Read.{HasTaken};

use dname::{OutOfMemory, octets_between};
use outside_core::{Failed, Source};
use std::alloc::Global;
use std::marker::Model;

// Room for most streams, and room for the longest message with its length.
const SMALL_ROOM: usize = 8192;

const WHOLE_ROOM: usize = 2 + 65_535;

/// Octets one behind the other, and room behind them.
#[derive(Debug, Drop)]
pub(crate) struct StreamBuffer {
    store: Vec<u8>,
    // They lie in the store from here on ..
    start: usize,
    // .. and before here.
    end: usize,
}

impl Model for StreamBuffer {
    ghost use Rattle.std.specs.Prelude.{◌≤◌, ◌-◌, length, take, drop};
    ghost use Rattle.stream_front.specs.Buffer.{Buffered};

    ghost Value = { Buffered };

    ghost view = { λ b. record {
      octets = take (b.end - b.start) (drop b.start b.store.items);
      room = length b.store.items - b.end;
    } };

    ghost invariant = { λ b. (b.start ≤ b.end) × (b.end ≤ length b.store.items) };
}

impl StreamBuffer {
    /// No octets, and no room. It takes no memory, and keeps the allocator.
    pub(crate) fn empty(alloc: Global) -> StreamBuffer
        ensures octets { result.octets ≡ [] }
    {
        StreamBuffer {
            store: Vec::new(alloc),
            start: 0,
            end: 0,
        }
    }

    pub(crate) fn octets(&self) -> &[u8]
        ensures { result.now ≡ self.now.octets }
    {
        octets_between(&self.store, self.start, self.end)
    }

    pub(crate) fn room(&self) -> usize
        ensures { result ≡ self.now.room }
    {
        self.store.len() - self.end
    }

    /// Makes room for so many octets more. Where room was given up before the octets that are there they are moved, and memory is taken
    /// where that doesn't do.
    pub(crate) fn make_room(&mut self, more: usize) -> Result<(), OutOfMemory>
        requires { more < 2 ^ 63 }
        ensures octets { self.new.octets ≡ self.old.octets }
        ensures room { OnOk result (more ≤ self.new.room) }
    {
        self.move_to_front();
        let wanted = self.end + more;
        if wanted > self.store.len() {
            self.store.resize(room_for(wanted), 0)?;
        }
        Ok(())
    }

    // Moves the octets to the front of the store.
    fn move_to_front(&mut self)
        ensures { self.new.octets ≡ self.old.octets }
    {
        if self.start == 0 {
            return;
        }
        let count = self.end - self.start;
        self.store.copy_within(self.start..self.end, 0);
        self.start = 0;
        self.end = count;
    }

    /// Puts the piece last.
    pub(crate) fn add(&mut self, piece: &[u8])
        requires { length piece.now ≤ self.old.room }
        ensures { self.new.octets ≡ self.old.octets ++ piece.now }
    {
        let end = self.end + piece.len();
        self.store[self.end..end].copy_from_slice(piece);
        self.end = end;
    }

    /// Puts the source's next octets last, so many at most.
    pub(crate) fn read<S: Source>(&mut self, source: &mut S, most: usize) -> Result<usize, Failed>
        requires room { 1 ≤ self.old.room }
        requires some { 1 ≤ most }
        ensures taken { IfOk result (HasTaken self.old.octets self.new.octets
            (S.taken source.old) (S.taken source.new) (S.left source.old) (S.left source.new)) }
        ensures few { IfOk result (λ count. count ≤ most) }
        ensures same { OnErr result (self.new.octets ≡ self.old.octets) }
        ensures failed_taken { OnErr result (S.taken source.new ≡ S.taken source.old) }
        ensures failed_left { OnErr result (S.left source.new ≡ S.left source.old) }
        ensures cause { HasCause (S.faults source.old) (S.faults source.new) result }
    {
        let last = self.end + most.min(self.store.len() - self.end);
        match source.read(&mut self.store[self.end..last]) {
            Ok(count) => {
                self.end += count;
                Ok(count)
            }
            Err(failed) => Err(failed),
        }
    }

    /// Keeps the last octets alone, so many.
    pub(crate) fn keep(&mut self, count: usize)
        requires { count ≤ length self.old.octets }
        ensures { self.new.octets
            ≡ drop (length self.old.octets - count) self.old.octets }
    {
        if count == 0 {
            self.start = 0;
            self.end = 0;
            return;
        }
        self.start = self.end - count;
    }

    /// Takes the last octets away, so many.
    pub(crate) fn cut(&mut self, count: usize)
        ensures { (rest given : List ℕ) → length given ≡ count → self.old.octets ≡ rest ++ given
            → self.new.octets ≡ rest }
    {
        self.end = self.end.saturating_sub(count).max(self.start);
    }
}

// How much room is made for so many octets.
fn room_for(count: usize) -> usize
    ensures { count ≤ result }
{
    if count <= SMALL_ROOM {
        SMALL_ROOM
    } else {
        count.max(WHOLE_ROOM)
    }
}
