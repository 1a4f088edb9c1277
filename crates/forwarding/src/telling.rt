//! What the clients of a slot are told.
ghost use Rattle.std.specs.Prelude.{◌≡◌, ◌<◌, ◌≤◌, ◌∷◌, [], map};
ghost use Rattle.cache_versions.specs.Seats.{seen_by};
ghost use Rattle.resolver.specs.Caches.{IsSeatOf};
ghost use Rattle.reply_core.specs.declared.rcode.TheConstants.{MAX_RCODE};
ghost use Rattle.waiting_table.specs.Waiting.{clients_in, slot_at};
ghost use Rattle.waiting_table.specs.declared.waiting_table.TheConstants.{SLOTS};
ghost use Rattle.forwarding.specs.Buffers.{octets_in};
ghost use Rattle.forwarding.specs.Done.{answered, failed};
ghost use Rattle.forwarding.specs.ExtendedError.{told_relay};
ghost use Rattle.forwarding.specs.Lawful.{MaySend, MaySendAll, more_sent};
ghost use Rattle.forwarding.specs.Limit.{limit_for};

use crate::buffers::Buffers;
use crate::{Outlet, PassedNames, write_told_relay};
use arrivals::Carrier;
use dnswire::Message;
use reply_core::rcode::SERVER_FAILURE;
use reply_core::{MAX_LONG_REPLY, ReplyBuffer, limit_of, write_plain};
use resolver::{CacheSeat, SharedCache};
use waiting_table::{Client, WaitingTable};

/// Each client of the slot is told of a failed server.
pub(crate) fn fail_all<O: Outlet>(
    outlet: &mut O,
    cache: &SharedCache,
    seat: &CacheSeat,
    passed: &PassedNames,
    table: &WaitingTable,
    slot: usize,
)
    requires object { IsSeatOf cache.now seat.now }
    requires slot { slot < SLOTS }
    requires lawful { MaySendAll passed.now (seen_by seat.now) (O.Outlet.told outlet.old)
        (map failed (clients_in (slot_at table.now slot))) }
    ensures { O.Outlet.told outlet.new ≡ more_sent (O.Outlet.told outlet.old)
        (map failed (clients_in (slot_at table.now slot))) }
{
    for i in 0..table.clients(slot) {
        fail_one(outlet, cache, seat, passed, &table.client(slot, i));
    }
}

fn fail_one<O: Outlet>(
    outlet: &mut O,
    cache: &SharedCache,
    seat: &CacheSeat,
    passed: &PassedNames,
    client: &Client,
)
    requires object { IsSeatOf cache.now seat.now }
    requires lawful { MaySend passed.now (seen_by seat.now) (O.Outlet.told outlet.old)
        (failed client.now) }
    ensures { O.Outlet.told outlet.new
        ≡ more_sent (O.Outlet.told outlet.old) (failed client.now ∷ []) }
{
    let mut out = ReplyBuffer::new();
    write_plain(&client.question, SERVER_FAILURE, &mut out);
    outlet.reply(cache, seat, passed, client.number, out.as_slice());
}

/// Each client of the slot gets the answer.
pub(crate) fn relay_all<O: Outlet>(
    outlet: &mut O,
    cache: &SharedCache,
    seat: &CacheSeat,
    passed: &PassedNames,
    table: &WaitingTable,
    slot: usize,
    message: &Message,
    out: &mut Buffers,
)
    requires object { IsSeatOf cache.now seat.now }
    requires slot { slot < SLOTS }
    requires rcode { message.now.rcode ≤ MAX_RCODE }
    requires lawful { MaySendAll passed.now (seen_by seat.now) (O.Outlet.told outlet.old)
        (map (answered message.now) (clients_in (slot_at table.now slot))) }
    ensures { O.Outlet.told outlet.new ≡ more_sent (O.Outlet.told outlet.old)
        (map (answered message.now) (clients_in (slot_at table.now slot))) }
{
    for i in 0..table.clients(slot) {
        relay_one(
            outlet,
            cache,
            seat,
            passed,
            &table.client(slot, i),
            message,
            out,
        );
    }
}

fn relay_one<O: Outlet>(
    outlet: &mut O,
    cache: &SharedCache,
    seat: &CacheSeat,
    passed: &PassedNames,
    client: &Client,
    message: &Message,
    out: &mut Buffers,
)
    requires object { IsSeatOf cache.now seat.now }
    requires rcode { message.now.rcode ≤ MAX_RCODE }
    requires lawful { MaySend passed.now (seen_by seat.now) (O.Outlet.told outlet.old)
        (answered message.now client.now) }
    ensures { O.Outlet.told outlet.new
        ≡ more_sent (O.Outlet.told outlet.old) (answered message.now client.now ∷ []) }
{
    write_answer(client, message, out);
    let octets = out.octets(client.carrier);
    outlet.reply(cache, seat, passed, client.number, octets);
}

// Writes the answer for the client, within what it takes.
fn write_answer(client: &Client, message: &Message, out: &mut Buffers)
    requires { message.now.rcode ≤ MAX_RCODE }
    ensures { octets_in out.new client.now.carrier
        ≡ told_relay (limit_for client.now.carrier client.now.question.edns) client.now.question
        message.now }
{
    let question = &client.question;
    match client.carrier {
        Carrier::Datagram => {
            let limit = limit_of(question.edns);
            write_told_relay(limit, question, message, &mut out.datagram);
        }
        Carrier::Stream => {
            write_told_relay(MAX_LONG_REPLY, question, message, &mut out.stream);
        }
    }
}
