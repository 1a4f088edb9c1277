//! What one datagram does.
ghost use Rattle.std.specs.Prelude.{◌≡◌, ◌≤◌, [], Option, None, IfOk, OnErr};
ghost use Rattle.denial_records.specs.declared.batch.Batch.{Batch};
ghost use Rattle.dnswire.specs.declared.query_read.QueryRead.TheVariants.{Query};
ghost use Rattle.cache_versions.specs.Seats.{seen_by};
ghost use Rattle.resolver.specs.Caches.{HasGoneOn, HasOnlyRead, IsSeatOf};
ghost use Rattle.serving.specs.Pending.{least_free, table_at};
ghost use Rattle.outside_core.specs.declared.datagram.Peer.TheVariants.{Client, Upstream};
ghost use Rattle.reply_core.specs.Error.{error_octets};
ghost use Rattle.serving.specs.declared.deed.Deed.{Deed};
ghost use Rattle.serving.specs.declared.why.Why.{Why};
ghost use Rattle.serving.specs.Done.{IsDoneBy, asked, client_done, done_as};
ghost use Rattle.serving.specs.Serves.{DoesServe, IsKept, IsLeft, IsUnmoved};

use crate::answer::answer_in;
use crate::storing::store;
use crate::{Action, Deed, Event, Why, WorkerCore};
use dname::OutOfMemory;
use dnswire::{Head, QueryRead, Question, read_query};
use outside_core::{Datagram, Peer};
use reply_core::rcode::{BAD_VERSION, FORMAT_ERROR, NOT_IMPLEMENTED, SERVER_FAILURE};
use reply_core::{ReplyBuffer, write_ask, write_error, write_plain, write_relay};
use resolver::{CacheSeat, Outcome, SharedCache};
use std::alloc::Global;
use std::sync::Wait;

/// Does what a datagram asks for at a moment, in seconds, up to what is to be sent: that is what `out` holds then, in place of
/// what it held. A client's query is answered from the cache, where that can be, and else goes upstream. The upstream's answer
/// to it is stored, and goes to the client. Only what the upstream sends takes memory.
pub fn serve_datagram<R: Wait>(
    rt: &R,
    alloc: Global,
    cache: &SharedCache,
    seat: &mut CacheSeat,
    core: &mut WorkerCore,
    datagram: &Datagram,
    now: u32,
    out: &mut ReplyBuffer,
) -> Result<Deed, OutOfMemory>
    requires { IsSeatOf cache.now seat.old }
    ensures on { HasGoneOn cache.now seat.old seat.new }
    ensures done { IfOk result (λ deed.
        DoesServe now seat.old seat.new core.old datagram.now deed out.new core.new) }

    // After want of memory.
    ensures upstream { OnErr result (datagram.now.peer ≡ Upstream) }
    ensures empty { OnErr result (out.new ≡ []) }
    ensures unmoved { OnErr result (IsUnmoved seat.old seat.new) }
    ensures table { OnErr result (IsLeft core.old datagram.now.octets core.new) }
{
    out.clear();
    let octets = datagram.octets.as_slice();
    match datagram.peer {
        Peer::Client(client) => Ok(client_datagram(cache, seat, core, client, octets, now, out)),
        Peer::Upstream => upstream_datagram(rt, alloc, cache, seat, core, octets, now, out),
    }
}

fn client_datagram(
    cache: &SharedCache,
    seat: &mut CacheSeat,
    core: &mut WorkerCore,
    client: u64,
    octets: &[u8],
    now: u32,
    out: &mut ReplyBuffer,
) -> Deed
    requires object { IsSeatOf cache.now seat.old }
    requires empty { out.old ≡ [] }
    ensures read { HasOnlyRead cache.now seat.old seat.new }
    ensures done { IsDoneBy core.old now (seen_by seat.new) (Client client) octets.now
        (done_as result out.new core.new None) }
{
    match read_query(octets) {
        QueryRead::Dropped => Deed::Quiet,
        QueryRead::NotImp(head) => fault(client, &head, NOT_IMPLEMENTED, out),
        QueryRead::FormErr(head) => fault(client, &head, FORMAT_ERROR, out),
        QueryRead::BadVers(question) => {
            write_plain(&question, BAD_VERSION, out);
            let why = Why::Error;
            Deed::ToClient { client, why }
        }
        QueryRead::Query(question) => query(cache, seat, core, client, &question, now, out),
    }
}

// Tells the client of a fault by a header alone.
fn fault(client: u64, head: &Head, rcode: u16, out: &mut ReplyBuffer) -> Deed
    requires opcode { head.now.opcode ≤ 15 }
    requires rcode { rcode ≤ 15 }
    ensures deed { result ≡ Deed.ToClient client Why.Error }
    ensures octets { out.new ≡ error_octets head.now rcode }
{
    write_error(head, rcode, out);
    let why = Why::Error;
    Deed::ToClient { client, why }
}

// Asks the cache, and else the upstream.
fn query(
    cache: &SharedCache,
    seat: &mut CacheSeat,
    core: &mut WorkerCore,
    client: u64,
    question: &Question,
    now: u32,
    out: &mut ReplyBuffer,
) -> Deed
    requires { IsSeatOf cache.now seat.old }
    ensures read { HasOnlyRead cache.now seat.old seat.new }
    ensures done { done_as result out.new core.new None
        ≡ client_done core.old now (seen_by seat.new) client (Query question.now) }
{
    match cache.query(seat, question, now, out) {
        Outcome::Answered { version } => {
            let why = Why::Answered { version };
            Deed::ToClient { client, why }
        }
        Outcome::Forward { version: _ } => ask_upstream(core, client, question, now, out),
    }
}

fn ask_upstream(
    core: &mut WorkerCore,
    client: u64,
    question: &Question,
    now: u32,
    out: &mut ReplyBuffer,
) -> Deed
    ensures { let kept = table_at now core.old in done_as result out.new core.new None
        ≡ asked kept now client question.now (least_free kept) }
{
    let event = Event::Ask {
        client,
        question,
        now,
    };
    match core.step(event) {
        Action::Send { id } => {
            write_ask(question, id, out);
            Deed::ToUpstream
        }
        Action::ServFail => {
            write_plain(question, SERVER_FAILURE, out);
            let why = Why::ServFail;
            Deed::ToClient { client, why }
        }
        Action::Relay {
            client: _,
            question: _,
        }
        | Action::Ignored => unreachable!(),
    }
}

fn upstream_datagram<R: Wait>(
    rt: &R,
    alloc: Global,
    cache: &SharedCache,
    seat: &mut CacheSeat,
    core: &mut WorkerCore,
    octets: &[u8],
    now: u32,
    out: &mut ReplyBuffer,
) -> Result<Deed, OutOfMemory>
    requires object { IsSeatOf cache.now seat.old }
    requires empty { out.old ≡ [] }
    ensures on { HasGoneOn cache.now seat.old seat.new }
    ensures done { IfOk result (λ deed. (batch : Option Batch) × IsKept seat.old seat.new batch
        × IsDoneBy core.old now (seen_by seat.new) Upstream octets.now
        (done_as deed out.new core.new batch)) }
    ensures empty { OnErr result (out.new ≡ []) }
    ensures unmoved { OnErr result (IsUnmoved seat.old seat.new) }
    ensures table { OnErr result (IsLeft core.old octets.now core.new) }
{
    let Some(message) = answer_in(alloc, octets)? else {
        return Ok(Deed::Ignored);
    };
    let event = Event::Came {
        id: message.id,
        name: &message.name,
        qtype: message.qtype,
        qclass: message.qclass,
    };
    match core.step(event) {
        Action::Relay { client, question } => {
            write_relay(&question, &message, out);
            match store(rt, alloc, cache, seat, message, now) {
                Ok(()) => {
                    let why = Why::Relayed;
                    Ok(Deed::ToClient { client, why })
                }
                Err(fault) => {
                    out.clear();
                    Err(fault)
                }
            }
        }
        Action::Ignored => Ok(Deed::Ignored),
        Action::Send { id: _ } | Action::ServFail => unreachable!(),
    }
}
