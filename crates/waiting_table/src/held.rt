//! One slot.
ghost use Rattle.std.specs.Prelude.{◌≡◌, ◌<◌, ◌+◌, Some, None, length, nat_le, true, slice_index_or, IfOk, IfSome};
ghost use Rattle.waiting_table.specs.Index.{Rests};
ghost use Rattle.waiting_table.specs.Steps.{again_in, is_due_in, is_late_in};
ghost use Rattle.waiting_table.specs.Waiting.{asked_by_stream, client_of, clients_in, fits, first_asked, has_id, may_ask_again, may_ask_by_stream, same_asked, takes, with_client};

use crate::Client;
use crate::copying::same_question;
use crate::guest::Guest;
use crate::waiting_table::{ASKINGS, CLIENTS, PATIENCE, STEP};
use arrayvec::ArrayVec;
use arrivals::Carrier;
use dname::{Name, OutOfMemory};
use dnswire::Question;
use std::alloc::Global;
use std::marker::Model;

/// A slot, seen as the question that waits in it, if one does. It has room for all clients, and what it held last stays until it is
/// filled anew.
#[derive(Drop)]
pub(crate) struct Held {
    taken: bool,
    asker: Client,
    joined: Vec<Guest>,
    since: u64,
    last: u64,
    times: u8,
    by: Carrier,
    id: u16,
}

impl Model for Held {
    ghost use Rattle.waiting_table.specs.Waiting.{Slot};
    ghost use Rattle.waiting_table.specs.Index.{HasRoom, slot_of};
    ghost use Rattle.std.specs.Vec.{vec_capacity};

    ghost Value = { Slot };

    ghost view = { λ h. slot_of h.taken h.asker h.joined.items h.since h.last h.times h.by h.id };

    ghost invariant = { λ h. HasRoom h.joined.items (vec_capacity h.joined) };
}

impl Held {
    /// A free slot.
    pub(crate) fn new(alloc: Global) -> Result<Held, OutOfMemory>
        ensures { IfOk result (λ held. held ≡ None) }
    {
        let joined = Vec::with_capacity(alloc, CLIENTS - 1)?;
        Ok(Held {
            taken: false,
            asker: nobody(),
            joined,
            since: 0,
            last: 0,
            times: 0,
            by: Carrier::Datagram,
            id: 0,
        })
    }

    /// The client's question is asked for the first time, with the ID, in place of what the slot held.
    pub(crate) fn fill(
        &mut self,
        client: u64,
        carrier: Carrier,
        question: &Question,
        id: u16,
        now: u64,
    )
        ensures { self.new ≡ Some (first_asked now id (client_of client carrier question.now)) }
    {
        self.joined.clear();
        self.asker.number = client;
        self.asker.carrier = carrier;
        self.asker.question = same_question(question);
        self.since = now;
        self.last = now;
        self.times = 1;
        self.by = Carrier::Datagram;
        self.id = id;
        self.taken = true;
    }

    /// The client joins.
    pub(crate) fn join(&mut self, client: u64, carrier: Carrier, question: &Question)
        requires { takes question.now self.old ≡ true }
        ensures { self.new ≡ with_client (client_of client carrier question.now) self.old }
    {
        let guest = Guest::of(client, carrier, question, &self.asker.question);
        self.joined.push_reserved(guest);
    }

    /// The question was asked again, by a datagram with another ID.
    pub(crate) fn ask_again(&mut self, id: u16, now: u64)
        requires { is_due_in now self.old ≡ true }
        ensures { self.new ≡ again_in now id self.old }
    {
        self.last = now;
        self.times += 1;
        self.id = id;
    }

    /// The question was asked again, by a stream with another ID.
    pub(crate) fn ask_by_stream(&mut self, id: u16)
        requires { may_ask_by_stream self.old ≡ true }
        ensures { self.new ≡ asked_by_stream id self.old }
    {
        self.by = Carrier::Stream;
        self.id = id;
    }

    /// No question waits any longer.
    pub(crate) fn free(&mut self)
        ensures { self.new ≡ None }
    {
        self.taken = false;
    }

    /// Whether another client may join for the question.
    pub(crate) fn takes(&self, question: &Question) -> bool
        ensures { result ≡ takes question.now self.now }
    {
        self.taken && same_asked(&self.asker.question, question) && self.joined.len() + 1 < CLIENTS
    }

    /// Whether an answer by this carrier, with this ID and question, is one to the slot's.
    pub(crate) fn fits(
        &self,
        carrier: Carrier,
        id: u16,
        name: &Name,
        qtype: u16,
        qclass: u16,
    ) -> bool
        ensures { result ≡ fits carrier id name.now qtype qclass self.now }
    {
        let question = &self.asker.question;
        self.has_id(carrier, id)
            && question.name == *name
            && question.qtype == qtype
            && question.qclass == qclass
    }

    /// Whether the question was asked by this carrier and with this ID last.
    pub(crate) fn has_id(&self, carrier: Carrier, id: u16) -> bool
        ensures { result ≡ has_id carrier id self.now }
    {
        self.taken && self.by == carrier && self.id == id
    }

    /// Whether a question waits that wasn't asked by a stream.
    pub(crate) fn may_ask_by_stream(&self) -> bool
        ensures { result ≡ may_ask_by_stream self.now }
    {
        self.taken && self.by == Carrier::Datagram
    }

    /// Whether a question has waited for 4.5 seconds.
    pub(crate) fn is_late(&self, now: u64) -> bool
        ensures { result ≡ is_late_in now self.now }
    {
        self.taken && has_passed(self.since, PATIENCE, now)
    }

    /// Whether a question is to be asked again.
    pub(crate) fn is_due(&self, now: u64) -> bool
        ensures { result ≡ is_due_in now self.now }
    {
        self.taken
            && self.may_ask_again()
            && has_passed(self.last, STEP * u64::from(self.times), now)
    }

    // Whether the question was asked by datagrams alone, and fewer than three times.
    fn may_ask_again(&self) -> bool
        ensures { IfSome self.now (λ waiting. result ≡ may_ask_again waiting) }
    {
        self.by == Carrier::Datagram && self.times < ASKINGS
    }

    /// Before that moment a tick does nothing to the question.
    pub(crate) fn until(&self) -> u64
        ensures { IfSome self.now (Rests result) }
    {
        let late = self.since.saturating_add(PATIENCE);
        if self.may_ask_again() {
            late.min(self.last.saturating_add(STEP * u64::from(self.times)))
        } else {
            late
        }
    }

    /// How many clients want the answer.
    pub(crate) fn clients(&self) -> usize
        ensures { result ≡ length (clients_in self.now) }
    {
        if self.taken { self.joined.len() + 1 } else { 0 }
    }

    /// One of the clients that want the answer, the first being the one who asked first.
    pub(crate) fn client(&self, i: usize) -> Client
        requires { i < length (clients_in self.now) }
        ensures { result ≡ slice_index_or (clients_in self.now) i result }
    {
        if i == 0 {
            Client {
                number: self.asker.number,
                carrier: self.asker.carrier,
                question: same_question(&self.asker.question),
            }
        } else {
            self.joined[i - 1].client(&self.asker.question)
        }
    }

    /// The question that is asked of the upstream.
    pub(crate) fn question(&self) -> &Question
        ensures { IfSome self.now (λ waiting. result.now ≡ waiting.asker.question) }
    {
        &self.asker.question
    }
}

// What a new slot has: it is never read.
fn nobody() -> Client {
    let question = Question {
        id: 0,
        rd: false,
        ad: false,
        cd: false,
        name: Name::root(),
        asked: ArrayVec::new(),
        qtype: 0,
        qclass: 0,
        edns: None,
    };
    Client {
        number: 0,
        carrier: Carrier::Datagram,
        question,
    }
}

// Whether one answer serves both.
fn same_asked(one: &Question, other: &Question) -> bool
    ensures { result ≡ same_asked one.now other.now }
{
    one.name == other.name
        && one.qtype == other.qtype
        && one.qclass == other.qclass
        && one.cd == other.cd
}

// Whether so many milliseconds have passed since then.
fn has_passed(since: u64, wait: u64, now: u64) -> bool
    ensures { result ≡ nat_le (since + wait) now }
{
    now >= since && now - since >= wait
}
