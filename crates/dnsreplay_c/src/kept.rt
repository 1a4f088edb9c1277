//! What a handle's box has.
ghost use Rattle.std.specs.Prelude.{◌≡◌, length, IfOk};
ghost use Rattle.cache_meaning.specs.Held.{nothing_held};
ghost use Rattle.dnsreplay_c.specs.Calls.{HasInserted, HasReplied};

use crate::code::{DONE, NO_MEMORY, NO_ROOM, code_of_fault, code_of_outcome};
use crate::putting::put;
use dname::OutOfMemory;
use record_store::Store;
use reply_core::ReplyBuffer;
use resolver::{Answering, Counts, insert_octets, query_octets};
use std::alloc::Global;
use std::marker::Model;
use std::sync::Arc;

/// A share of one state of the cache, seen as the records that it holds.
#[derive(Drop)]
pub struct Kept {
    store: Arc<Store>,
}

impl Model for Kept {
    ghost use Rattle.std.specs.Arc.{arc_value};
    ghost use Rattle.cache_meaning.specs.Held.{Held};

    ghost Value = { Held };

    ghost view = { λ k. arc_value k.store };
}

impl Kept {
    /// Nothing is held.
    pub(crate) fn empty(alloc: Global) -> Result<Box<Kept>, OutOfMemory>
        ensures { IfOk result (λ made. made.value ≡ nothing_held) }
    {
        let store = Arc::new(alloc, Store::empty(alloc)?)?;
        Ok(Box::new(alloc, Kept { store })?)
    }

    /// A further share of the state.
    pub(crate) fn copy(&self, alloc: Global) -> Result<Box<Kept>, OutOfMemory>
        ensures { IfOk result (λ made. made.value ≡ self.now) }
    {
        let store = Arc::try_clone(&self.store)?;
        Ok(Box::new(alloc, Kept { store })?)
    }

    /// Goes on to the state after an upstream answer's octets, and tells how much was stored. Else it stays, and so do the counts.
    pub(crate) fn insert(
        &mut self,
        alloc: Global,
        octets: &[u8],
        now: u32,
        counts: &mut Counts,
    ) -> i32
        ensures { HasInserted
            self.old octets.now now result self.new counts.old counts.new }
    {
        match insert_octets(alloc, &self.store, octets, now) {
            Ok((next, brought)) => match Arc::new(alloc, next) {
                Ok(store) => {
                    self.store = store;
                    *counts = brought;
                    DONE
                }
                Err(_) => NO_MEMORY,
            },
            Err(fault) => code_of_fault(fault),
        }
    }

    /// Puts a query's reply at the front of the room, and tells how many octets it has. Where it doesn't fit, both stay.
    pub(crate) fn reply(&self, octets: &[u8], now: u32, room: &mut [u8], written: &mut usize) -> i32
        ensures { HasReplied
            self.now octets.now now result room.old room.new written.old written.new }
    {
        let mut buffer = ReplyBuffer::new();
        let outcome = query_octets(&self.store, Answering::ByProof, octets, now, &mut buffer);
        if put(buffer.as_slice(), room, written) {
            code_of_outcome(outcome)
        } else {
            NO_ROOM
        }
    }

    /// How many records are held.
    pub(crate) fn len(&self) -> usize
        ensures { result ≡ length self.now.records }
    {
        self.store.len()
    }
}
