//! An answer of the upstream.
ghost use Rattle.std.specs.Prelude.{◌≡◌, ◌≤◌, ◌<◌, false, length, true, Some, None, IfOk, IfSome, OnOk};
ghost use mathlib.Core.List.{IsPrefix};
ghost use Rattle.arrivals.specs.declared.came.Came.TheVariants as comes;
ghost use Rattle.arrivals.specs.declared.carrier.Carrier.TheVariants as carriers;
ghost use Rattle.cache_versions.specs.Seats.{seen_by};
ghost use Rattle.counters.specs.Counts.{times, with_tally};
ghost use Rattle.resolver.specs.Caches.{IsSeatOf};
ghost use Rattle.dnswire.specs.declared.wire_fault.WireFault.{WireFault};
ghost use Rattle.reply_core.specs.declared.rcode.TheConstants.{MAX_RCODE};
ghost use Rattle.waiting_table.specs.Waiting.{clients_in, fits, slot_at};
ghost use Rattle.waiting_table.specs.declared.waiting_table.TheConstants.{SLOTS};
ghost use Rattle.forwarding.specs.Done.{IsAnswer, bare_id, is_bare_for, is_cut, relayed_with, trusted};
ghost use Rattle.forwarding.specs.Lawful.{IsAtWork, IsCalled};

use crate::asking::ask;
use crate::buffers::Buffers;
use crate::counting::relayed_with;
use crate::storing::store;
use crate::telling::{fail_all, relay_all};
use crate::{Dice, Outlet, PassedNames, each_turn_is_lawful};
use arrivals::{Carrier, Event};
use counters::{Counter, Counts};
use dname::{OutOfMemory, u16_at};
use dnswire::flags::TC;
use dnswire::{HeaderFlags, Message, WireFault, read_message};
use reply_core::rcode::{NAME_ERROR, NO_ERROR};
use resolver::{CacheSeat, SharedCache};
use std::alloc::{AllocError, Global};
use std::sync::Wait;
use waiting_table::WaitingTable;

/// Does what a message of the upstream asks for, which came over the slot's socket, of this carrier.
pub(crate) fn serve_answer<R: Wait, O: Outlet, D: Dice>(
    rt: &R,
    alloc: Global,
    outlet: &mut O,
    dice: &D,
    cache: &SharedCache,
    seat: &mut CacheSeat,
    passed: &PassedNames,
    table: &mut WaitingTable,
    counts: &mut Counts,
    event: &Event,
    slot: usize,
    carrier: Carrier,
    out: &mut Buffers,
)
    requires object { IsSeatOf cache.now seat.old }
    requires slot { slot < SLOTS }
    requires answer { event.now.came ≡ comes.Answer slot carrier }
    requires called { IsCalled passed.now (seen_by seat.old) table.old counts.old event.now
        (O.Outlet.told outlet.old) }
    ensures object { IsSeatOf cache.now seat.new }
    ensures begins { IsPrefix (seen_by seat.old) (seen_by seat.new) }
    ensures work { IsAtWork passed.now (seen_by seat.new) table.new counts.new
        (O.Outlet.told outlet.new) }
{
    match answer_in(alloc, event) {
        Err(_) => {
            each_turn_is_lawful();
            counts.add(Counter::Unread, 1);
        }
        Ok(None) => serve_bare(
            outlet, cache, seat, passed, table, counts, event, slot, carrier,
        ),
        Ok(Some(message)) => serve_message(
            rt, alloc, outlet, dice, cache, seat, passed, table, counts, event, slot, carrier,
            message, out,
        ),
    }
}

// What has no question may tell that the upstream couldn't read the query: its clients are told of a failed server at once.
fn serve_bare<O: Outlet>(
    outlet: &mut O,
    cache: &SharedCache,
    seat: &CacheSeat,
    passed: &PassedNames,
    table: &mut WaitingTable,
    counts: &mut Counts,
    event: &Event,
    slot: usize,
    carrier: Carrier,
)
    requires object { IsSeatOf cache.now seat.now }
    requires slot { slot < SLOTS }
    requires answer { event.now.came ≡ comes.Answer slot carrier }
    requires none { IsAnswer event.now.octets.items None }
    requires called { IsCalled passed.now (seen_by seat.now) table.old counts.old event.now
        (O.Outlet.told outlet.old) }
    ensures { IsAtWork passed.now (seen_by seat.now) table.new counts.new
        (O.Outlet.told outlet.new) }
{
    each_turn_is_lawful();
    if !is_bare_for(table, slot, carrier, event) {
        counts.add(Counter::Ignored, 1);
        return;
    }
    counts.add(Counter::Unreadable, table.clients(slot) as u64);
    fail_all(outlet, cache, seat, passed, table, slot);
    table.free(slot);
}

// Whether it has no question, and the ID with which the slot's question was asked, by its carrier.
fn is_bare_for(table: &WaitingTable, slot: usize, carrier: Carrier, event: &Event) -> bool
    requires { slot < SLOTS }
    ensures { result
        ≡ is_bare_for (slot_at table.now slot) carrier (bare_id event.now.octets.items) }
{
    match bare_id(event.octets.as_slice()) {
        Some(id) => table.has_id(slot, carrier, id),
        None => false,
    }
}

// The ID of an answer that has no question.
fn bare_id(octets: &[u8]) -> Option<u16>
    ensures { result ≡ bare_id octets.now }
{
    if octets.len() < 12 {
        return None;
    }
    if !HeaderFlags::of(u16_at(octets, 2)).is_answer() || u16_at(octets, 4) != 0 {
        return None;
    }
    Some(u16_at(octets, 0))
}

// An answer to the slot's question is relayed, unless it was cut short.
fn serve_message<R: Wait, O: Outlet, D: Dice>(
    rt: &R,
    alloc: Global,
    outlet: &mut O,
    dice: &D,
    cache: &SharedCache,
    seat: &mut CacheSeat,
    passed: &PassedNames,
    table: &mut WaitingTable,
    counts: &mut Counts,
    event: &Event,
    slot: usize,
    carrier: Carrier,
    message: Message,
    out: &mut Buffers,
)
    requires object { IsSeatOf cache.now seat.old }
    requires slot { slot < SLOTS }
    requires answer { event.now.came ≡ comes.Answer slot carrier }
    requires message { IsAnswer event.now.octets.items (Some message) }
    requires rcode { message.rcode ≤ MAX_RCODE }
    requires called { IsCalled passed.now (seen_by seat.old) table.old counts.old event.now
        (O.Outlet.told outlet.old) }
    ensures object { IsSeatOf cache.now seat.new }
    ensures begins { IsPrefix (seen_by seat.old) (seen_by seat.new) }
    ensures work { IsAtWork passed.now (seen_by seat.new) table.new counts.new
        (O.Outlet.told outlet.new) }
{
    if !fits(table, slot, carrier, &message) {
        each_turn_is_lawful();
        counts.add(Counter::Ignored, 1);
        return;
    }
    if is_cut(carrier, &message) {
        serve_cut(
            outlet, dice, cache, seat, passed, table, counts, event, slot, &message,
        );
        return;
    }
    serve_whole(
        rt, alloc, outlet, cache, seat, passed, table, counts, event, slot, carrier, message, out,
    );
}

// Whether the message is an answer to the slot's question.
fn fits(table: &WaitingTable, slot: usize, carrier: Carrier, message: &Message) -> bool
    requires { slot < SLOTS }
    ensures { result ≡ fits carrier message.now.id message.now.name message.now.qtype
        message.now.qclass (slot_at table.now slot) }
{
    table.fits(
        slot,
        carrier,
        message.id,
        &message.name,
        message.qtype,
        message.qclass,
    )
}

// Whether it was cut short to go into a datagram.
fn is_cut(carrier: Carrier, message: &Message) -> bool
    ensures { result ≡ is_cut carrier message.now }
{
    match carrier {
        Carrier::Datagram => message.flags.has_tc(),
        Carrier::Stream => false,
    }
}

// The slot's question is asked by a stream, since its answer was cut short.
fn serve_cut<O: Outlet, D: Dice>(
    outlet: &mut O,
    dice: &D,
    cache: &SharedCache,
    seat: &CacheSeat,
    passed: &PassedNames,
    table: &mut WaitingTable,
    counts: &mut Counts,
    event: &Event,
    slot: usize,
    message: &Message,
)
    requires object { IsSeatOf cache.now seat.now }
    requires slot { slot < SLOTS }
    requires answer { event.now.came ≡ comes.Answer slot carriers.Datagram }
    requires message { IsAnswer event.now.octets.items (Some message.now) }
    requires fits { fits carriers.Datagram message.now.id message.now.name message.now.qtype
        message.now.qclass (slot_at table.old slot) ≡ true }
    requires cut { is_cut carriers.Datagram message.now ≡ true }
    requires called { IsCalled passed.now (seen_by seat.now) table.old counts.old event.now
        (O.Outlet.told outlet.old) }
    ensures { IsAtWork passed.now (seen_by seat.now) table.new counts.new
        (O.Outlet.told outlet.new) }
{
    each_turn_is_lawful();
    let id = dice.draw();
    counts.add(Counter::AskedByStream, 1);
    let by = Carrier::Stream;
    ask(
        outlet,
        cache,
        seat,
        passed,
        slot,
        by,
        table.question(slot),
        id,
    );
    table.ask_by_stream(slot, id);
}

// The answer is stored, and then goes to all clients that wait for it.
fn serve_whole<R: Wait, O: Outlet>(
    rt: &R,
    alloc: Global,
    outlet: &mut O,
    cache: &SharedCache,
    seat: &mut CacheSeat,
    passed: &PassedNames,
    table: &mut WaitingTable,
    counts: &mut Counts,
    event: &Event,
    slot: usize,
    carrier: Carrier,
    message: Message,
    out: &mut Buffers,
)
    requires object { IsSeatOf cache.now seat.old }
    requires slot { slot < SLOTS }
    requires answer { event.now.came ≡ comes.Answer slot carrier }
    requires message { IsAnswer event.now.octets.items (Some message) }
    requires rcode { message.rcode ≤ MAX_RCODE }
    requires fits { fits carrier message.id message.name message.qtype message.qclass
        (slot_at table.old slot) ≡ true }
    requires whole { is_cut carrier message ≡ false }
    requires called { IsCalled passed.now (seen_by seat.old) table.old counts.old event.now
        (O.Outlet.told outlet.old) }
    ensures object { IsSeatOf cache.now seat.new }
    ensures begins { IsPrefix (seen_by seat.old) (seen_by seat.new) }
    ensures work { IsAtWork passed.now (seen_by seat.new) table.new counts.new
        (O.Outlet.told outlet.new) }
{
    each_turn_is_lawful();
    counts.add(store(rt, alloc, cache, seat, passed, event), 1);
    count_relay(table, slot, message.rcode, counts);
    let message = trusted(message);
    relay_all(outlet, cache, seat, passed, table, slot, &message, out);
    table.free(slot);
}

// Counts the clients that get an answer with the RCODE.
fn count_relay(table: &WaitingTable, slot: usize, rcode: u16, counts: &mut Counts)
    requires { slot < SLOTS }
    ensures { counts.new ≡ with_tally counts.old
        (times (length (clients_in (slot_at table.now slot))) (relayed_with rcode)) }
{
    counts.add(relayed_with(rcode), table.clients(slot) as u64);
}

// The message, with AD only where its RCODE lets it speak.
fn trusted(message: Message) -> Message
    ensures value { result ≡ trusted message }
    ensures rcode { result.rcode ≡ message.rcode }
{
    if message.rcode == NO_ERROR || message.rcode == NAME_ERROR {
        return message;
    }
    let mut message = message;
    let bits = if message.flags.has_tc() { TC } else { 0 };
    message.flags = HeaderFlags::of(bits);
    message
}

// The answer of a standard query that the message is, if it is one.
fn answer_in(alloc: Global, event: &Event) -> Result<Option<Message>, OutOfMemory>
    ensures answer { IfOk result (IsAnswer event.now.octets.items) }
    ensures rcode { IfOk result (λ answer.
        IfSome answer (λ message. message.rcode ≤ MAX_RCODE)) }
{
    answer_of(alloc, event.octets.as_slice())
}

fn answer_of(alloc: Global, octets: &[u8]) -> Result<Option<Message>, OutOfMemory>
    ensures answer { IfOk result (IsAnswer octets.now) }
    ensures rcode { IfOk result (λ answer.
        IfSome answer (λ message. message.rcode ≤ MAX_RCODE)) }
{
    match read_message(alloc, octets) {
        Ok(message) => {
            if message.flags.is_answer() {
                Ok(Some(message))
            } else {
                Ok(None)
            }
        }
        Err(fault) => {
            pass_over(fault)?;
            Ok(None)
        }
    }
}

// What can't be read is no answer.
fn pass_over(fault: WireFault) -> Result<(), OutOfMemory>
    ensures { OnOk result (fault ≡ WireFault.OutOfMemory → ⊥) }
{
    match fault {
        WireFault::Short
        | WireFault::BadCount
        | WireFault::BadName { at: _ }
        | WireFault::BadData { at: _ } => Ok(()),
        WireFault::OutOfMemory => Err(AllocError),
    }
}
