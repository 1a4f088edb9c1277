//! The table.
ghost use Rattle.std.specs.Prelude.{◌≡◌, ◌<◌, ◌≤◌, ℕ, None, Some, length, set, true, slice_index_or, IfOk, IfSome, is_none};
ghost use Rattle.std.specs.List.{position};
ghost use Rattle.waiting_table.specs.Index.{mark_of};
ghost use Rattle.waiting_table.specs.Waiting.{asked_by_stream, client_of, clients_in, empty_table, first_asked, fits, has_id, may_ask_by_stream, slot_at, takes, with_client};
ghost use Rattle.waiting_table.specs.Steps.{again_in, freed, is_due_in, is_late_in, is_quiet, oldest, place_for, place_slot, placed};

use crate::held::Held;
use crate::index::Index;
use crate::mark::mark_of;
use crate::{Client, Place};
use arrivals::Carrier;
use dname::{Name, OutOfMemory};
use dnswire::Question;
use std::alloc::Global;
use std::marker::Model;

/// How many questions can wait at once.
pub const SLOTS: usize = 256;

/// How many clients can wait for one answer.
pub const CLIENTS: usize = 16;

/// How often a question is asked by a datagram at most.
pub const ASKINGS: u8 = 3;

/// How long a question waits, in milliseconds.
pub const PATIENCE: u64 = 4500;

/// A question is asked again so many milliseconds after the first asking, and twice as many after the second.
pub const STEP: u64 = 1000;

/// The questions that wait, seen as the list of 256 slots. Only `new` takes memory.
#[derive(Drop)]
pub struct WaitingTable {
    held: Vec<Held>,
    index: Index,
}

impl Model for WaitingTable {
    ghost use Rattle.std.specs.Prelude.{List};
    ghost use Rattle.waiting_table.specs.Waiting.{Slot};
    ghost use Rattle.waiting_table.specs.Index.{IsIndexOf};

    ghost Value = { List Slot };

    ghost view = { λ t. t.held.items };

    ghost invariant = { λ t. IsIndexOf t.index t.held.items };
}

impl WaitingTable {
    /// No question waits.
    pub fn new(alloc: Global) -> Result<WaitingTable, OutOfMemory>
        ensures { IfOk result (λ table. table ≡ empty_table) }
    {
        let mut held = Vec::with_capacity(alloc, SLOTS)?;
        for _ in 0..SLOTS {
            held.push(Held::new(alloc)?)?;
        }
        Ok(WaitingTable {
            held,
            index: Index::new(),
        })
    }

    /// The number of slots.
    pub fn len(&self) -> usize
        ensures value { result ≡ length self.now }
        ensures all { result ≡ SLOTS }
    {
        self.held.len()
    }

    /// Where a client waits that asks this, once it is entered.
    pub fn place_for(&self, question: &Question) -> Place
        ensures place { result ≡ place_for question.now self.now }
        ensures within { place_slot result < SLOTS }
    {
        if let Some(slot) = self.joinable(question) {
            return Place::Joins { slot };
        }
        if let Some(slot) = self.first_free() {
            return Place::Fills { slot };
        }
        let slot = self.oldest();
        Place::Replaces { slot }
    }

    // The first slot that takes another client for the question.
    fn joinable(&self, question: &Question) -> Option<usize>
        ensures place { result ≡ position (takes question.now) self.now }
        ensures within { IfSome result (λ slot. slot < SLOTS) }
    {
        let mark = mark_of(question);
        for slot in 0..self.held.len() {
            if self.takes(slot, question, mark) {
                return Some(slot);
            }
        }
        None
    }

    // Whether the slot takes another client for the question of this mark.
    fn takes(&self, slot: usize, question: &Question, mark: u32) -> bool
        requires slot { slot < SLOTS }
        requires mark { mark ≡ mark_of question.now.name question.now.qtype }
        ensures { result ≡ takes question.now (slot_at self.now slot) }
    {
        self.index.marks[slot] == mark && self.held[slot].takes(question)
    }

    fn first_free(&self) -> Option<usize>
        ensures place { result ≡ position (λ slot. is_none slot) self.now }
        ensures within { IfSome result (λ slot. slot < SLOTS) }
    {
        self.index.first_free()
    }

    fn oldest(&self) -> usize
        requires { position (λ slot. is_none slot) self.now ≡ None }
        ensures place { result ≡ oldest self.now }
        ensures within { result < SLOTS }
    {
        self.index.oldest()
    }

    /// The client waits there from now on, in milliseconds. Where its question is asked anew, it is by a datagram with this ID.
    pub fn enter(
        &mut self,
        place: Place,
        client: u64,
        carrier: Carrier,
        question: &Question,
        id: u16,
        now: u64,
    )
        requires place { place ≡ place_for question.now self.old }
        requires within { place_slot place < SLOTS }
        ensures { self.new
            ≡ placed now id (client_of client carrier question.now) self.old place }
    {
        match place {
            Place::Joins { slot } => self.join(slot, client, carrier, question),
            Place::Fills { slot } | Place::Replaces { slot } => {
                self.fill(slot, client, carrier, question, id, now);
            }
        }
    }

    fn join(&mut self, slot: usize, client: u64, carrier: Carrier, question: &Question)
        requires within { slot < SLOTS }
        requires takes { takes question.now (slot_at self.old slot) ≡ true }
        ensures { self.new ≡ set self.old slot
            (with_client (client_of client carrier question.now) (slot_at self.old slot)) }
    {
        self.held[slot].join(client, carrier, question);
    }

    fn fill(
        &mut self,
        slot: usize,
        client: u64,
        carrier: Carrier,
        question: &Question,
        id: u16,
        now: u64,
    )
        requires { slot < SLOTS }
        ensures { self.new ≡ set self.old slot
            (Some (first_asked now id (client_of client carrier question.now))) }
    {
        let held = &mut self.held[slot];
        held.fill(client, carrier, question, id, now);
        let until = held.until();
        self.index.fill(slot, mark_of(question), now, until);
    }

    /// No question waits in the slot any longer.
    pub fn free(&mut self, slot: usize)
        requires { slot < SLOTS }
        ensures { self.new ≡ freed slot self.old }
    {
        self.held[slot].free();
        self.index.taken[slot] = false;
    }

    /// The slot's question was asked again, by a datagram with another ID.
    pub fn ask_again(&mut self, slot: usize, id: u16, now: u64)
        requires within { slot < SLOTS }
        requires due { is_due_in now (slot_at self.old slot) ≡ true }
        ensures { self.new ≡ set self.old slot (again_in now id (slot_at self.old slot)) }
    {
        let held = &mut self.held[slot];
        held.ask_again(id, now);
        self.index.until[slot] = held.until();
    }

    /// The slot's question was asked again, by a stream with another ID.
    pub fn ask_by_stream(&mut self, slot: usize, id: u16)
        requires within { slot < SLOTS }
        requires open { may_ask_by_stream (slot_at self.old slot) ≡ true }
        ensures { self.new ≡ set self.old slot (asked_by_stream id (slot_at self.old slot)) }
    {
        let held = &mut self.held[slot];
        held.ask_by_stream(id);
        self.index.until[slot] = held.until();
    }

    /// The first slot from that one on to which a tick does something; 256 where there is none.
    pub fn next_due(&self, from: usize, now: u64) -> usize
        requires { from ≤ SLOTS }
        ensures after { from ≤ result }
        ensures within { result ≤ SLOTS }
        ensures quiet { (k : ℕ) → from ≤ k → k < result
            → is_quiet now (slot_at self.now k) ≡ true }
    {
        for slot in from..SLOTS {
            if self.index.until[slot] <= now && self.index.taken[slot] {
                return slot;
            }
        }
        SLOTS
    }

    /// Whether the slot's question has waited for 4.5 seconds.
    pub fn is_late(&self, slot: usize, now: u64) -> bool
        requires { slot < SLOTS }
        ensures { result ≡ is_late_in now (slot_at self.now slot) }
    {
        self.held[slot].is_late(now)
    }

    /// Whether the slot's question is to be asked again.
    pub fn is_due(&self, slot: usize, now: u64) -> bool
        requires { slot < SLOTS }
        ensures { result ≡ is_due_in now (slot_at self.now slot) }
    {
        self.held[slot].is_due(now)
    }

    /// Whether the slot's question may be asked by a stream: one waits, and it was asked by datagrams alone.
    pub fn may_ask_by_stream(&self, slot: usize) -> bool
        requires { slot < SLOTS }
        ensures { result ≡ may_ask_by_stream (slot_at self.now slot) }
    {
        self.held[slot].may_ask_by_stream()
    }

    /// Whether an answer that came by this carrier, with this ID and question, is one to the slot's question.
    pub fn fits(
        &self,
        slot: usize,
        carrier: Carrier,
        id: u16,
        name: &Name,
        qtype: u16,
        qclass: u16,
    ) -> bool
        requires { slot < SLOTS }
        ensures { result ≡ fits carrier id name.now qtype qclass (slot_at self.now slot) }
    {
        self.held[slot].fits(carrier, id, name, qtype, qclass)
    }

    /// Whether the slot's question was asked by this carrier and with this ID last.
    pub fn has_id(&self, slot: usize, carrier: Carrier, id: u16) -> bool
        requires { slot < SLOTS }
        ensures { result ≡ has_id carrier id (slot_at self.now slot) }
    {
        self.held[slot].has_id(carrier, id)
    }

    /// How many clients want the answer to the slot's question.
    pub fn clients(&self, slot: usize) -> usize
        requires { slot < SLOTS }
        ensures { result ≡ length (clients_in (slot_at self.now slot)) }
    {
        self.held[slot].clients()
    }

    /// One of the clients of the slot, the first being the one who asked first.
    pub fn client(&self, slot: usize, i: usize) -> Client
        requires slot { slot < SLOTS }
        requires within { i < length (clients_in (slot_at self.now slot)) }
        ensures { result ≡ slice_index_or (clients_in (slot_at self.now slot)) i result }
    {
        self.held[slot].client(i)
    }

    /// The question of the slot, as it is asked of the upstream.
    pub fn question(&self, slot: usize) -> &Question
        requires { slot < SLOTS }
        ensures { IfSome (slot_at self.now slot)
            (λ waiting. result.now ≡ waiting.asker.question) }
    {
        self.held[slot].question()
    }
}
