ghost use Rattle.std.specs.Prelude.{◌≡◌, ◌≤◌, ◌↔◌, [], ◌∷◌, ◌++◌, length, Some, IsErr, IsTrue, IfOk, OnOk, OnErr};
ghost use Rattle.outside_core.specs.declared.event.Event.TheVariants.{Awaited, Sent};
ghost use Rattle.outside_core.specs.Datagram.{datagram_of};
ghost use Rattle.outside_core.specs.Fault.{HasCause};
ghost use Rattle.outside_core.specs.FaultPlan.{plan_of};
ghost use Rattle.outside_core.specs.MemoryLink.{link_of, Starves, after_receipt, IsCongested, after_sending, after_failed_call, bound_at};

use crate::fault_plan::FaultPlan;
use crate::{Datagram, Event, Failed, Link, OutOfMemory, Peer};
use std::alloc::{AllocError, Global};
use std::marker::Model;
use std::sync::Wait;

/// A link in memory, of whose calls some fail, with the room for all that goes over it, which it took
/// when it was made. It has 0 for both ports until a harbor binds it. Its counts of calls and of
/// faults stay at 2^64 - 1 once they are there.
#[derive(Debug, Drop)]
pub struct MemoryLink {
    events: Vec<Event>,
    // The last is received next.
    incoming: Vec<Datagram>,
    // How many more datagrams may be sent.
    room: usize,
    port: u16,
    upstream: u16,
    plan: FaultPlan,
}

impl Model for MemoryLink {
    ghost use Rattle.std.specs.Prelude.{◌+◌, ◌≤◌, reverse, vec_len, vec_capacity};
    ghost use Rattle.outside_core.specs.MemoryLink.{Linking};

    ghost Value = { Linking };

    ghost view = { λ l. record {
      events = l.events.items;
      left = reverse l.incoming.items;
      room = l.room;
      port = l.port;
      upstream = l.upstream;
      plan = l.plan;
    } };

    ghost invariant = { λ l.
        vec_len l.events + vec_len l.incoming + l.room ≤ vec_capacity l.events };
}

impl MemoryLink {
    /// A link that receives these datagrams and has room to send so many. Those of its calls fail
    /// whose numbers, counted from 1 over both kinds, are in `failing`, each receipt beyond the
    /// datagrams, and each sending beyond the room.
    pub fn with_room(
        alloc: Global,
        incoming: Vec<Datagram>,
        room: usize,
        failing: Vec<u32>,
    ) -> Result<MemoryLink, OutOfMemory>
        ensures { IfOk result (λ link.
            link ≡ link_of incoming.items room (plan_of failing.items)) }
    {
        let number = incoming.len().checked_add(room).ok_or(AllocError)?;
        let mut incoming = incoming;
        incoming.reverse();
        Ok(MemoryLink {
            events: Vec::with_capacity(alloc, number)?,
            incoming,
            room,
            port: 0,
            upstream: 0,
            plan: FaultPlan::of(failing),
        })
    }

    /// What went over the link so far, in turn.
    pub fn events(&self) -> &[Event]
        ensures { result.now ≡ self.now.events }
    {
        &self.events
    }

    // The link at a port, with an upstream port.
    pub(crate) fn bound(self, port: u16, upstream: u16) -> MemoryLink
        ensures { result ≡ bound_at port upstream self }
    {
        let mut link = self;
        link.port = port;
        link.upstream = upstream;
        link
    }

    // Whether a call has failed.
    pub(crate) fn has_failed(&self) -> bool
        ensures { IsTrue result ↔ (1 ≤ self.now.plan.faults) }
    {
        self.plan.has_failed()
    }
}

impl Link for MemoryLink {
    ghost events = { λ l. Some l.events };

    ghost port = { λ l. l.port };

    ghost upstream = { λ l. l.upstream };

    ghost faults = { λ l. l.plan.faults };

    fn receive<R: Wait>(&mut self, _rt: &R, into: &mut Datagram) -> Result<(), Failed>
        ensures awaited { OnOk result (
            self.new.events ≡ self.old.events ++ Awaited into.new ∷ []) }
        ensures failed { OnErr result (self.new.events ≡ self.old.events) }
        ensures port { self.new.port ≡ self.old.port }
        ensures upstream { self.new.upstream ≡ self.old.upstream }
        ensures cause { HasCause self.old.plan.faults self.new.plan.faults result }

        // Beyond the trait: the answer, the datagram and the link after the call follow from it.
        ensures fails { IsErr result ↔ Starves self.old }
        ensures given { OnOk result (self.old.left ≡ into.new ∷ self.new.left) }
        ensures after { OnOk result (
            self.new ≡ after_receipt into.new self.new.left self.old) }
        ensures failed_into { OnErr result (into.new ≡ into.old) }
        ensures failed_after { OnErr result (self.new ≡ after_failed_call self.old) }
    {
        if self.plan.is_due() {
            return Err(self.plan.fail());
        }
        match self.incoming.pop() {
            None => Err(self.plan.fail()),
            Some(next) => {
                *into = next.copy();
                let fitted = self.events.push(Event::Awaited(next)).is_ok();
                prove!(fitted);
                self.plan.succeed();
                Ok(())
            }
        }
    }

    fn send(&mut self, to: Peer, octets: &[u8]) -> Result<(), Failed>
        requires { length octets.now ≤ 4096 }
        ensures sent { OnOk result (
            self.new.events ≡ self.old.events ++ Sent (datagram_of to octets.now) ∷ []) }
        ensures failed { OnErr result (self.new.events ≡ self.old.events) }
        ensures port { self.new.port ≡ self.old.port }
        ensures upstream { self.new.upstream ≡ self.old.upstream }
        ensures cause { HasCause self.old.plan.faults self.new.plan.faults result }

        // Beyond the trait: the answer and the link after the call follow from it.
        ensures fails { IsErr result ↔ IsCongested self.old }
        ensures after { OnOk result
            (self.new ≡ after_sending (datagram_of to octets.now) self.old) }
        ensures failed_after { OnErr result (self.new ≡ after_failed_call self.old) }
    {
        if self.plan.is_due() || self.room == 0 {
            return Err(self.plan.fail());
        }
        let fitted = self
            .events
            .push(Event::Sent(Datagram::of(to, octets)))
            .is_ok();
        prove!(fitted);
        self.room -= 1;
        self.plan.succeed();
        Ok(())
    }
}
