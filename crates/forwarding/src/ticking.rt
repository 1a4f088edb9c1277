//! A tick.
ghost use Rattle.std.specs.Prelude.{◌≡◌, ◌<◌, ◌%◌, ◌^◌, ◌&&◌, [], length, not, All, set};
ghost use Rattle.cache_meaning.specs.Held.{nothing_held};
ghost use Rattle.cache_versions.specs.Lends.{seat_in};
ghost use Rattle.cache_versions.specs.Seats.{opening_by, seen_by};
ghost use Rattle.counters.specs.Counts.{counted};
ghost use Rattle.resolver.specs.Caches.{HasGoneOn, IsSeatOf};
ghost use Rattle.waiting_table.specs.Waiting.{slot_at};
ghost use Rattle.waiting_table.specs.Steps.{is_due_in, is_late_in, late_clients, late_in, ticked_slot};
ghost use Rattle.waiting_table.specs.declared.waiting_table.TheConstants.{SLOTS};
ghost use Rattle.arrivals.specs.declared.came.Came.TheVariants as comes;
ghost use Rattle.forwarding.specs.Done.{due_in, tick_done, tick_sends};
ghost use Rattle.forwarding.specs.Holding.{WasHeld, holding_of};
ghost use Rattle.forwarding.specs.Lawful.{IsAtWork, IsCalled, MaySendAll, more_sent};

use crate::asking::ask;
use crate::telling::fail_all;
use crate::{Dice, Holding, Outlet, PassedNames, each_turn_is_lawful};
use arrivals::{Carrier, Event};
use cache_versions::VersionRef;
use counters::{Counter, Counts};
use record_store::Store;
use resolver::{CacheSeat, SharedCache};
use waiting_table::{SLOTS, WaitingTable};

/// Nothing came for a while: the seat lets its old version go, late questions are given up, and those that are due are asked again.
/// `holding` is what was held at the last tick, and becomes what is held now.
pub(crate) fn serve_tick<O: Outlet, D: Dice>(
    outlet: &mut O,
    dice: &D,
    cache: &SharedCache,
    seat: &mut CacheSeat,
    passed: &PassedNames,
    table: &mut WaitingTable,
    counts: &mut Counts,
    holding: &mut Holding,
    event: &Event,
)
    requires object { IsSeatOf cache.now seat.old }
    requires holding { WasHeld holding.old (seen_by seat.old) }
    requires tick { event.now.came ≡ comes.Tick }
    requires called { IsCalled passed.now (seen_by seat.old) table.old counts.old event.now
        (O.Outlet.told outlet.old) }
    ensures object { IsSeatOf cache.now seat.new }
    ensures work { IsAtWork passed.now (seen_by seat.new) table.new counts.new
        (O.Outlet.told outlet.new) }
    ensures holding { holding.new ≡ holding_of (seen_by seat.new) }
{
    each_turn_is_lawful();
    look_over(cache, seat, holding);
    let now = event.moment.millis;
    if table.next_due(0, now) == table.len() {
        counts.each_is_small();
        return;
    }
    count_tick(table, now, counts);
    let ids = draw(dice, table, now);
    tick(outlet, cache, seat, passed, table, &ids, now);
}

// What the published version holds, to which the seat goes on. It is counted where it isn't the version of the last tick.
fn look_over(cache: &SharedCache, seat: &mut CacheSeat, holding: &mut Holding)
    requires object { IsSeatOf cache.now seat.old }
    requires holding { WasHeld holding.old (seen_by seat.old) }
    ensures on { HasGoneOn cache.now seat.old seat.new }
    ensures holding { holding.new ≡ holding_of (seen_by seat.new) }
{
    let version = cache.read(seat);
    if version.number() != holding.version {
        *holding = holding_of(&version);
    }
}

fn holding_of(version: &VersionRef<'_, Store>) -> Holding
    requires { opening_by (seat_in version.now) ≡ nothing_held }
    ensures { result ≡ holding_of (seen_by (seat_in version.now)) }
{
    let state = version.state();
    Holding {
        records: state.len(),
        zones: state.zones(),
        chains: state.chains(),
        version: version.number(),
    }
}

// Counts the clients of late questions, and the questions that are asked again.
fn count_tick(table: &WaitingTable, now: u64, counts: &mut Counts)
    ensures { counts.new ≡ counted (tick_done now [] table.now).tallies counts.old }
{
    counts.add(Counter::Late, late(table, now));
    counts.add(Counter::AskedAgain, due(table, now));
}

// How many clients of late questions there are, modulo 2^64.
fn late(table: &WaitingTable, now: u64) -> u64
    ensures { result ≡ length (late_clients now table.now) % 2 ^ 64 }
{
    let mut number = 0_u64;
    for slot in 0..table.len() {
        number = number.wrapping_add(late_at(table, slot, now));
    }
    number
}

fn late_at(table: &WaitingTable, slot: usize, now: u64) -> u64
    requires { slot < SLOTS }
    ensures { result ≡ length (late_in now (slot_at table.now slot)) }
{
    if table.is_late(slot, now) {
        table.clients(slot) as u64
    } else {
        0
    }
}

// How many questions are asked again.
fn due(table: &WaitingTable, now: u64) -> u64
    ensures { result ≡ due_in now table.now }
{
    let mut number = 0;
    for slot in 0..table.len() {
        if is_asked_again(table, slot, now) {
            number += 1;
        }
    }
    number
}

fn is_asked_again(table: &WaitingTable, slot: usize, now: u64) -> bool
    requires { slot < SLOTS }
    ensures { result ≡ (not (is_late_in now (slot_at table.now slot))
        && is_due_in now (slot_at table.now slot)) }
{
    !table.is_late(slot, now) && table.is_due(slot, now)
}

// An ID for each slot whose question is asked again.
fn draw<D: Dice>(dice: &D, table: &WaitingTable, now: u64) -> [u16; SLOTS]
    ensures { All (λ id. id < 65536) result }
{
    let mut ids = [0; SLOTS];
    for slot in 0..SLOTS {
        ids[slot] = draw_for(dice, table, slot, now);
    }
    ids
}

fn draw_for<D: Dice>(dice: &D, table: &WaitingTable, slot: usize, now: u64) -> u16
    requires { slot < SLOTS }
    ensures { result < 65536 }
{
    if table.is_due(slot, now) {
        dice.draw()
    } else {
        0
    }
}

// All slots in order.
fn tick<O: Outlet>(
    outlet: &mut O,
    cache: &SharedCache,
    seat: &CacheSeat,
    passed: &PassedNames,
    table: &mut WaitingTable,
    ids: &[u16; SLOTS],
    now: u64,
)
    requires object { IsSeatOf cache.now seat.now }
    requires lawful { MaySendAll passed.now (seen_by seat.now) (O.Outlet.told outlet.old)
        (tick_done now ids.now table.old).sends }
    ensures table { table.new ≡ (tick_done now ids.now table.old).table }
    ensures told { O.Outlet.told outlet.new ≡ more_sent (O.Outlet.told outlet.old)
        (tick_done now ids.now table.old).sends }
{
    for slot in 0..table.len() {
        tick_slot(outlet, cache, seat, passed, table, slot, ids[slot], now);
    }
}

fn tick_slot<O: Outlet>(
    outlet: &mut O,
    cache: &SharedCache,
    seat: &CacheSeat,
    passed: &PassedNames,
    table: &mut WaitingTable,
    slot: usize,
    id: u16,
    now: u64,
)
    requires object { IsSeatOf cache.now seat.now }
    requires slot { slot < SLOTS }
    requires lawful { MaySendAll passed.now (seen_by seat.now) (O.Outlet.told outlet.old)
        (tick_sends now slot id (slot_at table.old slot)) }
    ensures table { table.new ≡ set table.old slot (ticked_slot now id (slot_at table.old slot)) }
    ensures told { O.Outlet.told outlet.new ≡ more_sent (O.Outlet.told outlet.old)
        (tick_sends now slot id (slot_at table.old slot)) }
{
    if table.is_late(slot, now) {
        fail_all(outlet, cache, seat, passed, table, slot);
        table.free(slot);
        return;
    }
    if !table.is_due(slot, now) {
        return;
    }
    ask(
        outlet,
        cache,
        seat,
        passed,
        slot,
        Carrier::Datagram,
        table.question(slot),
        id,
    );
    table.ask_again(slot, id, now);
}
