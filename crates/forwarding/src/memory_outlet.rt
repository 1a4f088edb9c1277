//! An outlet in memory.
ghost use Rattle.std.specs.Prelude.{◌≡◌, ◌≤◌, ◌∷◌, [], length, Some, IfOk};
ghost use Rattle.arrivals.specs.declared.event.TheConstants.{MAX_MESSAGE};
ghost use Rattle.cache_versions.specs.Seats.{seen_by};
ghost use Rattle.resolver.specs.Caches.{IsSeatOf};
ghost use Rattle.forwarding.specs.Done.{to_client, to_upstream};
ghost use Rattle.forwarding.specs.Holding.{holding_of};
ghost use Rattle.forwarding.specs.Lawful.{MaySend, MayShow, with_event, with_sends};
ghost use Rattle.forwarding.specs.MemoryOutlet.{after_giving, after_receipt, after_showing, outlet_of, sent_to, told_by};

use crate::{Carried, Holding, Outlet, PassedNames, Receiver, Sent};
use arrivals::{Carrier, Event, MessageOctets};
use counters::Counts;
use dname::OutOfMemory;
use resolver::{CacheSeat, SharedCache};
use std::alloc::{AllocError, Global};
use std::marker::Model;
use std::sync::Wait;

/// An outlet in memory that was opened for these passed names, with the room for all that goes over it, which it took when it was
/// made. Where no event is left, `receive` waits without end, and so do `reply` and `ask` where no room is left.
#[derive(Drop)]
pub struct MemoryOutlet<'a, R: Wait> {
    rt: &'a R,
    passed: &'a PassedNames,
    carried: Vec<Carried>,
    // The last is received next.
    incoming: Vec<Event>,
    // How many more messages may be sent.
    room: usize,
    shown: Counts,
    holding: Holding,
}

impl<'a, R: Wait> Model for MemoryOutlet<'a, R> {
    ghost use Rattle.std.specs.Prelude.{◌+◌, ◌≤◌, reverse, vec_len, vec_capacity};
    ghost use Rattle.forwarding.specs.MemoryOutlet.{Carrying};

    ghost Value = { Carrying };

    ghost view = { λ o. record {
      passes = o.passed.now;
      carried = o.carried.items;
      left = reverse o.incoming.items;
      room = o.room;
      shown = o.shown;
      holding = o.holding;
    } };

    ghost invariant = { λ o.
        vec_len o.carried + vec_len o.incoming + o.room ≤ vec_capacity o.carried };
}

impl<'a, R: Wait> MemoryOutlet<'a, R> {
    /// An outlet that is opened for these passed names, gives these events, in order, and has room to send so many messages.
    pub fn with_room(
        rt: &'a R,
        alloc: Global,
        passed: &'a PassedNames,
        events: Vec<Event>,
        room: usize,
    ) -> Result<MemoryOutlet<'a, R>, OutOfMemory>
        ensures { IfOk result (λ outlet. outlet ≡ outlet_of passed.now events.items room) }
    {
        let number = events.len().checked_add(room).ok_or(AllocError)?;
        let mut incoming = events;
        incoming.reverse();
        Ok(MemoryOutlet {
            rt,
            passed,
            carried: Vec::with_capacity(alloc, number)?,
            incoming,
            room,
            shown: Counts::new(),
            holding: Holding::nothing(),
        })
    }

    /// What went over it so far, in turn.
    pub fn carried(&self) -> &[Carried]
        ensures { result.now ≡ self.now.carried }
    {
        &self.carried
    }

    /// The counts that it was shown last: none, before the first tick.
    pub fn shown(&self) -> &Counts
        ensures { result.now ≡ self.now.shown }
    {
        &self.shown
    }

    /// What the version held of which it was told last: nothing, before the first tick.
    pub fn holding(&self) -> Holding
        ensures { result ≡ self.now.holding }
    {
        self.holding
    }

    // Keeps what is to be sent.
    fn keep(&mut self, receiver: Receiver, octets: &[u8])
        requires { length octets.now ≤ MAX_MESSAGE }
        ensures room { 1 ≤ self.old.room }
        ensures after { self.new ≡ after_giving (sent_to receiver octets.now) self.old }
    {
        if self.room == 0 {
            wait_on(self.rt);
        }
        let octets = octets_of(octets);
        let fitted = self
            .carried
            .push(Carried::Given(Sent { receiver, octets }))
            .is_ok();
        prove!(fitted);
        self.room -= 1;
    }
}

// The same event once more. It takes no memory.
fn copy_of(event: &Event) -> Event
    ensures { result ≡ event.now }
{
    Event {
        moment: event.moment,
        came: event.came,
        octets: octets_of(event.octets.as_slice()),
    }
}

fn octets_of(octets: &[u8]) -> MessageOctets
    requires { length octets.now ≤ MAX_MESSAGE }
    ensures { result.items ≡ octets.now }
{
    let mut kept: MessageOctets = MessageOctets::new();
    let fitted = kept.try_extend_from_slice(octets).is_ok();
    prove!(fitted);
    kept
}

// Waits without end.
fn wait_on<R: Wait>(rt: &R)
    ensures { ⊥ }
{
    for _ in rt.forever() {}
    unreachable!()
}

impl<'a, R: Wait> Outlet for MemoryOutlet<'a, R> {
    ghost told = { λ o. Some (told_by o) };

    fn receive<W: Wait>(&mut self, rt: &W, into: &mut Event)
        ensures told { told_by self.new ≡ with_event into.new (told_by self.old) }

        // Beyond the trait: the event and the outlet after the call follow from it.
        ensures given { self.old.left ≡ into.new ∷ self.new.left }
        ensures after { self.new ≡ after_receipt into.new self.new.left self.old }
    {
        match self.incoming.pop() {
            None => wait_on(rt),
            Some(next) => {
                *into = copy_of(&next);
                let fitted = self.carried.push(Carried::Received(next)).is_ok();
                prove!(fitted);
            }
        }
    }

    fn reply(
        &mut self,
        cache: &SharedCache,
        seat: &CacheSeat,
        passed: &PassedNames,
        client: u64,
        octets: &[u8],
    )
        requires object { IsSeatOf cache.now seat.now }
        requires fits { length octets.now ≤ MAX_MESSAGE }
        requires lawful { MaySend passed.now (seen_by seat.now) (Some (told_by self.old))
            (to_client client octets.now) }
        ensures told { told_by self.new
            ≡ with_sends (to_client client octets.now ∷ []) (told_by self.old) }

        // Beyond the trait: the outlet after the call follows from it.
        ensures room { 1 ≤ self.old.room }
        ensures after { self.new ≡ after_giving (to_client client octets.now) self.old }
    {
        let (_cache, _seat, _passed) = (cache, seat, passed);
        self.keep(Receiver::ToClient(client), octets);
    }

    fn ask(
        &mut self,
        cache: &SharedCache,
        seat: &CacheSeat,
        passed: &PassedNames,
        slot: usize,
        carrier: Carrier,
        octets: &[u8],
    )
        requires object { IsSeatOf cache.now seat.now }
        requires fits { length octets.now ≤ 4096 }
        requires lawful { MaySend passed.now (seen_by seat.now) (Some (told_by self.old))
            (to_upstream slot carrier octets.now) }
        ensures told { told_by self.new
            ≡ with_sends (to_upstream slot carrier octets.now ∷ []) (told_by self.old) }

        // Beyond the trait: the outlet after the call follows from it.
        ensures room { 1 ≤ self.old.room }
        ensures after { self.new ≡ after_giving (to_upstream slot carrier octets.now) self.old }
    {
        let (_cache, _seat, _passed) = (cache, seat, passed);
        self.keep(Receiver::ToUpstream { slot, carrier }, octets);
    }

    fn show(
        &mut self,
        cache: &SharedCache,
        seat: &CacheSeat,
        passed: &PassedNames,
        counts: &Counts,
        holding: Holding,
    )
        requires object { IsSeatOf cache.now seat.now }
        requires exact { MayShow passed.now (seen_by seat.now) (Some (told_by self.old))
            counts.now }
        requires holding { holding ≡ holding_of (seen_by seat.now) }
        ensures told { told_by self.new ≡ told_by self.old }

        // Beyond the trait: the outlet after the call follows from it.
        ensures after { self.new ≡ after_showing counts.now holding self.old }
    {
        let (_cache, _seat, _passed) = (cache, seat, passed);
        self.shown = counts.copy();
        self.holding = holding;
    }
}
