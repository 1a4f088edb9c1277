//! The queries of one worker that wait for the upstream's answers.
ghost use Rattle.std.specs.Prelude.{◌≡◌, ◌%◌, ◌<◌, length, not, Some, IfOk, IfSome};
ghost use Rattle.std.specs.List.{position};
ghost use Rattle.serving.specs.Latest.{AreKept};
ghost use Rattle.serving.specs.Pending.{action_of, empty_table, entry_for, entry_of, least_free, relayed_of, sent_from, table_after, table_at, turn_at, with_entry, without_entry};

use crate::latest::{Latest, copy_of};
use crate::{Action, Event};
use dname::{Name, OutOfMemory};
use dnswire::Question;
use std::alloc::Global;
use std::marker::Model;

/// How many queries can wait at once.
pub const SLOTS: usize = 256;

// How long a query waits, in seconds. A late one keeps its slot until the next question is asked: until then its answer
// still goes to its client.
const PATIENCE: u32 = 5;

/// A table of 256 slots, each with a turn and perhaps a query that waits, seen as the list of the slots.
#[derive(Drop)]
pub struct WorkerCore {
    taken: [bool; SLOTS],
    // When the slot's last entry was sent. It stands apart, so that all are looked at in one pass.
    sent: [u32; SLOTS],
    latest: Vec<Latest>,
}

impl Model for WorkerCore {
    ghost use Rattle.std.specs.Prelude.{List};
    ghost use Rattle.serving.specs.Pending.{Slot};
    ghost use Rattle.serving.specs.Latest.{HasAllSlots, slots_of};

    ghost Value = { List Slot };

    ghost view = { λ c. slots_of c.taken c.sent c.latest.items };

    ghost invariant = { λ c. HasAllSlots c.taken c.sent c.latest.items };
}

impl WorkerCore {
    /// All slots are free, at turn 0.
    pub fn new(alloc: Global) -> Result<WorkerCore, OutOfMemory>
        ensures { IfOk result (λ core. core ≡ empty_table) }
    {
        let mut latest = Vec::new(alloc);
        latest.reserve(SLOTS)?;
        for _ in 0..SLOTS {
            latest.push(Latest::none())?;
        }
        Ok(WorkerCore {
            taken: [false; SLOTS],
            sent: [0; SLOTS],
            latest,
        })
    }

    /// Does what the event asks for. It takes no memory, and what it costs doesn't grow with what waits: of the table it reads
    /// marks and moments, and at most one query.
    ///
    /// `Ask` first frees each slot whose entry is 5 or more seconds old, by a clock of 32 bits. `ServFail` comes where all slots are
    /// then taken. Otherwise the least free slot takes the query, and its ID is 256 times the slot's turn, and the slot. `Came` frees
    /// the slot that the ID names, where it is taken at the ID's turn by a query of this name, type and class. A slot that is freed
    /// goes on to its next turn, from 255 to 0.
    pub fn step(&mut self, event: Event<'_>) -> Action
        ensures action { result ≡ action_of self.old event.entry }
        ensures table { self.new ≡ table_after self.old event.entry }
    {
        match event {
            Event::Ask {
                client,
                question,
                now,
            } => self.ask(client, question, now),
            Event::Came {
                id,
                name,
                qtype,
                qclass,
            } => self.came(id, name, qtype, qclass),
        }
    }

    fn ask(&mut self, client: u64, question: &Question, now: u32) -> Action
        ensures action { let kept = table_at now self.old in result
            ≡ sent_from kept (least_free kept) }
        ensures table { let kept = table_at now self.old in self.new
            ≡ with_entry kept (least_free kept) (entry_of client question.now now) }
    {
        self.free_late(now);
        let Some(slot) = self.least_free() else {
            return Action::ServFail;
        };
        let turn = self.take(slot, client, question, now);
        Action::Send {
            id: 256 * u16::from(turn) + slot as u16,
        }
    }

    // Frees the slots of late entries.
    fn free_late(&mut self, now: u32)
        ensures { self.new ≡ table_at now self.old }
    {
        keep(&mut self.taken, &self.sent, now);
    }

    fn least_free(&self) -> Option<usize>
        ensures place { result ≡ least_free self.now }
        ensures within { IfSome result (λ slot. slot < 256) }
    {
        first_free(&self.taken)
    }

    // The slot takes the entry, and its turn is given.
    fn take(&mut self, slot: usize, client: u64, question: &Question, now: u32) -> u8
        requires within { slot < 256 }
        requires free { least_free self.old ≡ Some slot }
        ensures turn { result ≡ turn_at self.old slot }
        ensures table { self.new
            ≡ with_entry self.old (Some slot) (entry_of client question.now now) }
    {
        self.taken[slot] = true;
        self.sent[slot] = now;
        self.latest[slot].renew(client, question)
    }

    fn came(&mut self, id: u16, name: &Name, qtype: u16, qclass: u16) -> Action
        ensures action { result ≡ relayed_of (entry_for self.old id name.now qtype qclass) }
        ensures table { self.new
            ≡ without_entry self.old (id % 256) (entry_for self.old id name.now qtype qclass) }
    {
        let slot = usize::from(id) % SLOTS;
        if !self.taken[slot] {
            return Action::Ignored;
        }
        let latest = &self.latest[slot];
        if !latest.fits(id / 256, name, qtype, qclass) {
            return Action::Ignored;
        }
        let client = latest.client;
        let question = copy_of(&latest.question);
        self.taken[slot] = false;
        Action::Relay { client, question }
    }
}

// A slot stays taken if its entry isn't late. It has no branch, so that several slots are done at once, and all 256 that grow
// late together cost no more than none.
fn keep(taken: &mut [bool; SLOTS], sent: &[u32; SLOTS], now: u32)
    ensures kept { AreKept now taken.old sent.now taken.new }
    ensures size { length taken.new ≡ 256 }
{
    for slot in 0..SLOTS {
        taken[slot] = taken[slot] & (now.wrapping_sub(sent[slot]) < PATIENCE);
    }
}

fn first_free(taken: &[bool; SLOTS]) -> Option<usize>
    ensures place { result ≡ position not taken.now }
    ensures within { IfSome result (λ slot. slot < 256) }
{
    for slot in 0..taken.len() {
        if !taken[slot] {
            return Some(slot);
        }
    }
    None
}
