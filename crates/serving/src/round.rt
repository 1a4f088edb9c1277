//! Datagrams that come together: all are received, then done, then answered.
ghost use Rattle.std.specs.Prelude.{◌≡◌, ◌⊎◌, ◌<◌, ◌≤◌, length, map, take, IfOk, OnOk, OnErr};
ghost use Rattle.std.specs.List.{All};
ghost use Rattle.cache_versions.specs.Seats.{number_by};
ghost use Rattle.resolver.specs.Caches.{HasGoneOn, IsSeatOf};
ghost use Rattle.outside_core.specs.Datagram.{IsClient};
ghost use Rattle.outside_core.specs.Fault.{HasCause};
ghost use Rattle.outside_core.specs.declared.datagram.Peer.{Peer};
ghost use Rattle.outside_core.specs.declared.event.Event.TheVariants.{Sent};
ghost use Rattle.serving.specs.AtWork.{DoesSome, IsSentInPart, came_as, due_of};
ghost use Rattle.serving.specs.Serves.{DoesServe, IsUnmoved};
ghost use Rattle.serving.specs.Turn.{sent_by};
ghost use Rattle.serving.specs.Worker.{more_told};

use crate::workspace::Answer;
use crate::{Deed, WorkerCore, serve_datagram};
use dname::OutOfMemory;
use outside_core::{Clock, Datagram, Failed, Link, Peer};
use reply_core::ReplyBuffer;
use resolver::{CacheSeat, SharedCache};
use std::alloc::Global;
use std::sync::Wait;

// An upstream's answer may want memory, and then no other datagram may be left without its deed: so it comes alone.

/// Waits for a datagram. Behind a client's come those of clients that have come already, so many in all at most, as far as
/// there is room. How many these are.
pub(crate) fn receive_some<R: Wait, L: Link>(
    rt: &R,
    link: &mut L,
    datagrams: &mut Vec<Datagram>,
    most: usize,
) -> Result<usize, Failed>
    requires some { 1 ≤ most }
    requires room { 1 ≤ length datagrams.old.items }
    ensures room { length datagrams.new.items ≡ length datagrams.old.items }
    ensures some { IfOk result (λ count. 1 ≤ count) }
    ensures most { IfOk result (λ count. count ≤ most) }
    ensures within { IfOk result (λ count. count ≤ length datagrams.new.items) }
    ensures came { IfOk result (λ count. L.Link.events link.new
        ≡ more_told (L.Link.events link.old) (came_as (take count datagrams.new.items))) }
    ensures clients { IfOk result (λ count. (count ≡ 1)
        ⊎ All (λ datagram. IsClient datagram.peer) (take count datagrams.new.items)) }
    ensures failed { OnErr result (L.Link.events link.new ≡ L.Link.events link.old) }
    ensures port { L.Link.port link.new ≡ L.Link.port link.old }
    ensures upstream { L.Link.upstream link.new ≡ L.Link.upstream link.old }
    ensures cause { HasCause (L.Link.faults link.old) (L.Link.faults link.new) result }
{
    link.receive(rt, &mut datagrams[0])?;
    if datagrams[0].peer == Peer::Upstream {
        return Ok(1);
    }
    let mut count = 1;
    while count < most && count < datagrams.len() {
        if !link.receive_waiting(&mut datagrams[count]) {
            return Ok(count);
        }
        count += 1;
    }
    Ok(count)
}

/// Does the datagrams in order, at the moment that the clock tells, and leaves what is to be sent in the answers. Only where the
/// one datagram is the upstream's can memory be wanted.
pub(crate) fn do_all<R: Wait, C: Clock>(
    rt: &R,
    alloc: Global,
    cache: &SharedCache,
    seat: &mut CacheSeat,
    clock: &C,
    core: &mut WorkerCore,
    datagrams: &[Datagram],
    answers: &mut Vec<Answer>,
) -> Result<(), OutOfMemory>
    requires object { IsSeatOf cache.now seat.old }
    requires room { length datagrams.now ≤ length answers.old.items }
    requires clients { (length datagrams.now ≡ 1)
        ⊎ All (λ datagram. IsClient datagram.peer) datagrams.now }
    ensures object { IsSeatOf cache.now seat.new }
    ensures number { number_by seat.new ≡ number_by seat.old }
    ensures room { length answers.new.items ≡ length answers.old.items }
    ensures done { OnOk result (DoesSome (C.Clock.moment clock.now)
        seat.old seat.new core.old core.new datagrams.now
        (due_of (take (length datagrams.now) answers.new.items))) }
    ensures one { OnErr result (length datagrams.now ≡ 1) }
    ensures unmoved { OnErr result (IsUnmoved seat.old seat.new) }
{
    let now = clock.now();
    for i in 0..datagrams.len() {
        do_one(
            rt,
            alloc,
            cache,
            seat,
            now,
            core,
            &datagrams[i],
            &mut answers[i],
        )?;
    }
    Ok(())
}

fn do_one<R: Wait>(
    rt: &R,
    alloc: Global,
    cache: &SharedCache,
    seat: &mut CacheSeat,
    now: u32,
    core: &mut WorkerCore,
    datagram: &Datagram,
    answer: &mut Answer,
) -> Result<(), OutOfMemory>
    requires { IsSeatOf cache.now seat.old }
    ensures on { HasGoneOn cache.now seat.old seat.new }
    ensures done { OnOk result (DoesServe now seat.old seat.new core.old datagram.now
        answer.new.deed answer.new.octets core.new) }
    ensures upstream { OnErr result (datagram.now.peer ≡ Peer.Upstream) }
    ensures unmoved { OnErr result (IsUnmoved seat.old seat.new) }
{
    answer.deed = serve_datagram(
        rt,
        alloc,
        cache,
        seat,
        core,
        datagram,
        now,
        &mut answer.octets,
    )?;
    Ok(())
}

/// Sends what is to be sent by the answers, in order, up to the first failure.
pub(crate) fn send_all<L: Link>(link: &mut L, answers: &[Answer]) -> Result<(), Failed>
    ensures sent { OnOk result (L.Link.events link.new
        ≡ more_told (L.Link.events link.old) (map Sent (due_of answers.now))) }
    ensures part { OnErr result (IsSentInPart (due_of answers.now)
        (L.Link.events link.old) (L.Link.events link.new)) }
    ensures port { L.Link.port link.new ≡ L.Link.port link.old }
    ensures upstream { L.Link.upstream link.new ≡ L.Link.upstream link.old }
    ensures cause { HasCause (L.Link.faults link.old) (L.Link.faults link.new) result }
{
    for answer in answers {
        send(link, answer.deed, &answer.octets)?;
    }
    Ok(())
}

// Sends the octets to whom the deed says.
fn send<L: Link>(link: &mut L, deed: Deed, out: &ReplyBuffer) -> Result<(), Failed>
    ensures sent { OnOk result (L.Link.events link.new
        ≡ more_told (L.Link.events link.old) (map Sent (sent_by deed out.now))) }
    ensures failed { OnErr result (L.Link.events link.new ≡ L.Link.events link.old) }
    ensures some { OnErr result (1 ≤ length (sent_by deed out.now)) }
    ensures port { L.Link.port link.new ≡ L.Link.port link.old }
    ensures upstream { L.Link.upstream link.new ≡ L.Link.upstream link.old }
    ensures cause { HasCause (L.Link.faults link.old) (L.Link.faults link.new) result }
{
    match deed {
        Deed::Quiet | Deed::Ignored => Ok(()),
        Deed::ToUpstream => link.send(Peer::Upstream, out.as_slice()),
        Deed::ToClient { client, why: _ } => link.send(Peer::Client(client), out.as_slice()),
    }
}
