// Links, harbors and clocks in memory, as generic callers see them.
ghost use Rattle.std.specs.Prelude.{◌≡◌, List, length, map, ◌++◌, option_map, Some, IfOk, IfSome, OnOk};
ghost use Rattle.std.specs.List.{All};
ghost use Rattle.outside_core.specs.declared.datagram.Datagram.{Datagram as Carried};
ghost use Rattle.outside_core.specs.declared.event.Event.TheVariants.{Awaited, Found, Sent};
ghost use Rattle.outside_core.specs.Datagram.{IsClient};
ghost use Rattle.outside_core.specs.Event.{one_more_told};
ghost use Rattle.outside_core.specs.MemoryLink.{IsFresh};
ghost use Rattle.outside_core.specs.Returned.{unused, then_returned, TellsAtMost};

use outside_core::{
    Clock, Datagram, Event, Failed, FixedClock, Harbor, Link, MemoryHarbor, MemoryLink,
    OutOfMemory, Peer,
};
use std::alloc::Global;
use std::sync::Wait;
use std::test::Fail;

// Sends back what it receives.
fn echo<R: Wait, L: Link>(rt: &R, link: &mut L, into: &mut Datagram) -> Result<(), Failed>
    ensures events { OnOk result (L.events link.new ≡ one_more_told
        (one_more_told (L.events link.old) (Awaited into.new)) (Sent into.new)) }
    ensures port { L.port link.new ≡ L.port link.old }
    ensures unfailing { OnOk result (L.faults link.new ≡ L.faults link.old) }
{
    link.receive(rt, into)?;
    link.send(into.peer, into.octets.as_slice())
}

// Takes what clients sent and waits already, at most 16 datagrams, and gives their number. `into`
// has the last of them.
pub(crate) fn drain<L: Link>(link: &mut L, into: &mut Datagram) -> usize
    ensures found { (came : List Carried) × (length came ≡ result)
        × All (λ (one : Carried). IsClient one.peer) came
        × (L.events link.new
        ≡ option_map (λ before. before ++ map Found came) (L.events link.old)) }
    ensures port { L.port link.new ≡ L.port link.old }
    ensures upstream { L.upstream link.new ≡ L.upstream link.old }
    ensures faults { L.faults link.new ≡ L.faults link.old }
{
    let mut count = 0;
    while count < 16 && link.receive_waiting(into) {
        count += 1;
    }
    count
}

// Binds a link and hands it back at once.
fn visit<H: Harbor>(harbor: &mut H, port: u16, upstream: u16) -> Result<(), Failed>
    ensures unused { OnOk result (TellsAtMost (H.came_back harbor.new)
        (then_returned (H.came_back harbor.old) (Some (unused port upstream)))) }
    ensures unfailing { OnOk result (H.faults harbor.new ≡ H.faults harbor.old) }
{
    let link = harbor.bind(port, upstream)?;
    harbor.part(port, link);
    Ok(())
}

fn moment<C: Clock>(clock: &C) -> u32 {
    clock.now()
}

// A link that receives a question of a client and an answer of the upstream resolver.
fn two_to_come(alloc: Global, room: usize, failing: Vec<u32>) -> Result<MemoryLink, OutOfMemory>
    ensures fresh { IfOk result IsFresh }
    ensures port { IfOk result (λ link. link.port ≡ 0) }
{
    let mut incoming = Vec::new(alloc);
    incoming.push(Datagram::of(Peer::Client(7), b"question"))?;
    incoming.push(Datagram::of(Peer::Upstream, b"answer"))?;
    MemoryLink::with_room(alloc, incoming, room, failing)
}

// Such links, the first without room to send, and the other with room for one datagram.
fn two_links(alloc: Global) -> Result<Vec<MemoryLink>, OutOfMemory>
    ensures { IfOk result (λ links. All IsFresh links.items) }
{
    let mut links = Vec::new(alloc);
    links.push(two_to_come(alloc, 0, Vec::new(alloc))?)?;
    links.push(two_to_come(alloc, 1, Vec::new(alloc))?)?;
    Ok(links)
}

// Whether the next receipt gives this.
fn takes<R: Wait, L: Link>(rt: &R, link: &mut L, from: Peer, text: &[u8]) -> bool {
    let mut held = Datagram::of(Peer::Client(1), b"before");
    link.receive(rt, &mut held) == Ok(()) && is_this(&held, from, text)
}

fn is_this(held: &Datagram, peer: Peer, text: &[u8]) -> bool {
    held.peer == peer && held.octets.as_slice() == text
}

// Whether a receipt fails and leaves what was held before.
fn starves<R: Wait>(rt: &R, link: &mut MemoryLink) -> bool {
    let mut held = Datagram::of(Peer::Client(1), b"before");
    link.receive(rt, &mut held) == Err(Failed) && is_this(&held, Peer::Client(1), b"before")
}

// Receipts and sendings are counted together: the second and the third call fail.
#[test]
fn a_link_fails_where_it_is_told(rt: HostRuntime) -> Result<(), Fail> {
    let alloc = rt.alloc();
    let mut link = two_to_come(alloc, 2, vec![in alloc; 2, 3]?)?;
    assert!(rt; takes(&rt, &mut link, Peer::Client(7), b"question"));
    assert!(rt; link.send(Peer::Upstream, b"lost") == Err(Failed));
    assert!(rt; starves(&rt, &mut link));
    Ok(())
}

// Nothing is left to come, and no room to send. Calls that fail are no events.
#[test]
fn a_link_fails_at_its_ends(rt: HostRuntime) -> Result<(), Fail> {
    let alloc = rt.alloc();
    let mut link = two_to_come(alloc, 2, vec![in alloc; 2, 3]?)?;
    let answers = spent(&rt, &mut link);
    assert!(rt;
        answers == [Ok(()), Ok(()), Err(Failed), Err(Failed)],
        "{answers:?}"
    );
    let wanted = [
        Event::Awaited(Datagram::of(Peer::Client(7), b"question")),
        Event::Sent(Datagram::of(Peer::Upstream, b"ask")),
        Event::Awaited(Datagram::of(Peer::Upstream, b"answer")),
        Event::Sent(Datagram::of(Peer::Upstream, b"answer")),
    ];
    assert!(rt; link.events() == wanted.as_slice(), "{:?}", link.events());
    Ok(())
}

// What the calls after the third answer: a sending, an echo, and a receipt and a sending more.
fn spent<R: Wait>(rt: &R, link: &mut MemoryLink) -> [Result<(), Failed>; 4] {
    let mut held = Datagram::of(Peer::Client(1), b"before");
    let mut answers = [Err(Failed); 4];
    let _first = link.receive(rt, &mut held);
    let _second = link.send(Peer::Upstream, b"lost");
    let _third = link.receive(rt, &mut held);
    answers[0] = link.send(Peer::Upstream, b"ask");
    answers[1] = echo(rt, link, &mut held);
    answers[2] = link.receive(rt, &mut held);
    answers[3] = link.send(Peer::Upstream, b"more");
    answers
}

#[test]
fn of_a_link_in_memory_nothing_is_taken_without_waiting(rt: HostRuntime) -> Result<(), Fail> {
    let alloc = rt.alloc();
    let mut link = two_to_come(alloc, 0, Vec::new(alloc))?;
    let mut held = Datagram::of(Peer::Upstream, b"");
    let before = drain(&mut link, &mut held);
    assert!(rt; takes(&rt, &mut link, Peer::Client(7), b"question"));
    let after = drain(&mut link, &mut held);
    assert!(rt; (before, after) == (0, 0), "{before} {after}");
    Ok(())
}

// The link that is bound next, after an echo over it; and what the echo answers.
fn echoed<R: Wait>(
    rt: &R,
    harbor: &mut MemoryHarbor,
    port: u16,
) -> Option<(MemoryLink, Result<(), Failed>)>
    ensures { IfSome result (λ bound. bound.0.port ≡ port) }
{
    let mut held = Datagram::of(Peer::Upstream, b"");
    let Ok(mut link) = harbor.bind(port, 5353) else {
        return None;
    };
    let answer = echo(rt, &mut link, &mut held);
    Some((link, answer))
}

// The ports of the two links that came back, and how much went over each.
fn two_back(harbor: &MemoryHarbor) -> Option<[(u16, usize); 2]> {
    match harbor.came_back() {
        [first, second] => Some([
            (first.0, first.1.events().len()),
            (second.0, second.1.events().len()),
        ]),
        _ => None,
    }
}

// The second of its binds fails, and so does that beyond its links.
#[test]
fn a_harbor_binds_in_order_and_has_links_back_once(rt: HostRuntime) -> Result<(), Fail> {
    let alloc = rt.alloc();
    let mut harbor = MemoryHarbor::with_links(alloc, two_links(alloc)?, vec![in alloc; 2]?)?;
    let (first, first_echo) = echoed(&rt, &mut harbor, 5300).ok_or("the first bind failed")?;
    let second_bind = visit(&mut harbor, 5301, 5353);
    let (second, second_echo) = echoed(&rt, &mut harbor, 5301).ok_or("the third bind failed")?;
    let last_bind = visit(&mut harbor, 5302, 5353);

    // The first link has no room to send, and the second has.
    assert!(rt; (first_echo, second_echo) == (Err(Failed), Ok(())));
    assert!(rt; (second_bind, last_bind) == (Err(Failed), Err(Failed)));
    harbor.part(5301, second);
    harbor.part(5300, first);
    assert!(rt; two_back(&harbor) == Some([(5301, 2), (5300, 1)]));
    Ok(())
}

#[test]
fn a_link_beyond_the_room_is_dropped(rt: HostRuntime) -> Result<(), Fail> {
    let alloc = rt.alloc();
    let mut harbor = MemoryHarbor::with_links(alloc, two_links(alloc)?, Vec::new(alloc))?;
    let spare = two_to_come(alloc, 1, Vec::new(alloc))?;
    let first = visit(&mut harbor, 5300, 5353);
    let second = visit(&mut harbor, 5301, 5353);
    assert!(rt; (first, second) == (Ok(()), Ok(())));
    harbor.part(0, spare);
    let back = two_back(&harbor);
    assert!(rt; back == Some([(5300, 0), (5301, 0)]), "{back:?}");
    Ok(())
}

#[test]
fn a_fixed_clock_stands_still(rt: HostRuntime) {
    let clock = FixedClock { now: 1_700_000_000 };
    assert!(rt; [moment(&clock), moment(&clock)] == [1_700_000_000; 2]);
}
