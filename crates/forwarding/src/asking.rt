//! A client waits for the upstream's answer.
ghost use Rattle.std.specs.Prelude.{◌≡◌, ◌<◌, ◌∷◌, [], map};
ghost use Rattle.arrivals.specs.declared.carrier.Carrier.TheVariants.{Datagram};
ghost use Rattle.cache_versions.specs.Seats.{seen_by};
ghost use Rattle.counters.specs.Counts.{counted};
ghost use Rattle.resolver.specs.Caches.{IsSeatOf};
ghost use Rattle.reply_core.specs.Ask.{ask_octets};
ghost use Rattle.waiting_table.specs.Waiting.{client_of};
ghost use Rattle.waiting_table.specs.Steps.{given_up, place_for, place_slot};
ghost use Rattle.waiting_table.specs.declared.waiting_table.TheConstants.{SLOTS};
ghost use Rattle.forwarding.specs.Done.{asking, failed, to_upstream, waiting_tallies, waits};
ghost use Rattle.forwarding.specs.Lawful.{MaySend, MaySendAll, more_sent};

use crate::telling::fail_all;
use crate::{Outlet, PassedNames};
use arrivals::Carrier;
use counters::{Counter, Counts};
use dnswire::Question;
use reply_core::{ReplyBuffer, write_ask};
use resolver::{CacheSeat, SharedCache};
use waiting_table::{Place, WaitingTable};

/// The client waits there from now on, in milliseconds: it joins, or its question is asked with the ID. Those of a question that is
/// given up for it are told first.
pub(crate) fn wait<O: Outlet>(
    outlet: &mut O,
    cache: &SharedCache,
    seat: &CacheSeat,
    passed: &PassedNames,
    table: &mut WaitingTable,
    place: Place,
    client: u64,
    carrier: Carrier,
    question: &Question,
    id: u16,
    now: u64,
)
    requires object { IsSeatOf cache.now seat.now }
    requires place { place ≡ place_for question.now table.old }
    requires within { place_slot place < SLOTS }
    requires lawful { MaySendAll passed.now (seen_by seat.now) (O.Outlet.told outlet.old)
        (waits table.old now id (client_of client carrier question.now)).sends }
    ensures table { table.new
        ≡ (waits table.old now id (client_of client carrier question.now)).table }
    ensures told { O.Outlet.told outlet.new ≡ more_sent (O.Outlet.told outlet.old)
        (waits table.old now id (client_of client carrier question.now)).sends }
{
    give_up(outlet, cache, seat, passed, table, place);
    ask_at(outlet, cache, seat, passed, place, question, id);
    table.enter(place, client, carrier, question, id, now);
}

// Those who wait where another question is to wait are told of a failed server.
fn give_up<O: Outlet>(
    outlet: &mut O,
    cache: &SharedCache,
    seat: &CacheSeat,
    passed: &PassedNames,
    table: &WaitingTable,
    place: Place,
)
    requires object { IsSeatOf cache.now seat.now }
    requires within { place_slot place < SLOTS }
    requires lawful { MaySendAll passed.now (seen_by seat.now) (O.Outlet.told outlet.old)
        (map failed (given_up table.now place)) }
    ensures { O.Outlet.told outlet.new ≡ more_sent (O.Outlet.told outlet.old)
        (map failed (given_up table.now place)) }
{
    match place {
        Place::Joins { slot: _ } => {}
        Place::Fills { slot: _ } => {}
        Place::Replaces { slot } => fail_all(outlet, cache, seat, passed, table, slot),
    }
}

// The question is asked by a datagram, unless its client joins.
fn ask_at<O: Outlet>(
    outlet: &mut O,
    cache: &SharedCache,
    seat: &CacheSeat,
    passed: &PassedNames,
    place: Place,
    question: &Question,
    id: u16,
)
    requires object { IsSeatOf cache.now seat.now }
    requires lawful { MaySendAll passed.now (seen_by seat.now) (O.Outlet.told outlet.old)
        (asking id question.now place) }
    ensures { O.Outlet.told outlet.new
        ≡ more_sent (O.Outlet.told outlet.old) (asking id question.now place) }
{
    match place {
        Place::Joins { slot: _ } => {}
        Place::Fills { slot } | Place::Replaces { slot } => {
            let by = Carrier::Datagram;
            ask(outlet, cache, seat, passed, slot, by, question, id);
        }
    }
}

/// The question is asked of the upstream by the carrier, for the slot.
pub(crate) fn ask<O: Outlet>(
    outlet: &mut O,
    cache: &SharedCache,
    seat: &CacheSeat,
    passed: &PassedNames,
    slot: usize,
    carrier: Carrier,
    question: &Question,
    id: u16,
)
    requires object { IsSeatOf cache.now seat.now }
    requires lawful { MaySend passed.now (seen_by seat.now) (O.Outlet.told outlet.old)
        (to_upstream slot carrier (ask_octets question.now id)) }
    ensures { O.Outlet.told outlet.new ≡ more_sent (O.Outlet.told outlet.old)
        (to_upstream slot carrier (ask_octets question.now id) ∷ []) }
{
    let mut out = ReplyBuffer::new();
    write_ask(question, id, &mut out);
    outlet.ask(cache, seat, passed, slot, carrier, out.as_slice());
}

/// Counts a client that is to wait there, and those of a question that is given up for it.
pub(crate) fn count_wait(table: &WaitingTable, place: Place, counts: &mut Counts)
    requires { place_slot place < SLOTS }
    ensures { counts.new ≡ counted (waiting_tallies table.now place) counts.old }
{
    match place {
        Place::Joins { slot: _ } => counts.add(Counter::Joined, 1),
        Place::Fills { slot: _ } => counts.add(Counter::Asked, 1),
        Place::Replaces { slot } => {
            counts.add(Counter::Full, table.clients(slot) as u64);
            counts.add(Counter::Asked, 1);
        }
    }
}
