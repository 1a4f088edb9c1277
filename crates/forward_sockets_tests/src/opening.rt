//! Sockets are opened, alone and several at one address.
use crate::scene::{end, free_port, no_event, open, query, sends, v4, v6};
use arrivals::{Came, Carrier};
use forward_sockets::{Faults, OpenFault, RandomIds, Sockets};
use std::alloc::Global;
use std::io::ErrorKind;
use std::net::{Net, OpenListener, SocketAddr};
use std::test::Fail;
use std::thread;
use std::time::Clock;

// Which of two addresses can't be had, and for what.
fn fault_of<N: Net>(
    net: &N,
    alloc: Global,
    addresses: &[SocketAddr; 2],
) -> Option<(SocketAddr, Carrier)> {
    match Sockets::bind(net, alloc, addresses, v4(9)) {
        Err(
            OpenFault::Address {
                address,
                carrier,
                cause,
            },
        ) if cause.kind() == ErrorKind::AddrInUse => Some((address, carrier)),
        _ => None,
    }
}

#[test]
fn an_address_that_another_has_is_named(rt: HostRuntime) -> Result<(), Fail> {
    let taken = end(&rt, v6(0))?;
    let addresses = [v4(free_port(&rt)?), taken.local_addr()?];
    let fault = fault_of(&rt, rt.alloc(), &addresses);
    assert!(rt;
        fault == Some((addresses[1], Carrier::Datagram)),
        "{fault:?}"
    );
    let taken = rt.bind(v4(0))?;
    let addresses = [taken.local_addr()?, v6(free_port(&rt)?)];
    let fault = fault_of(&rt, rt.alloc(), &addresses);
    assert!(rt; fault == Some((addresses[0], Carrier::Stream)), "{fault:?}");
    Ok(())
}

// How many queries come to a worker's sockets until three ticks come, and which calls failed.
fn queries_at<C: Clock>(clock: &C, sockets: Sockets) -> (u32, Faults) {
    let mut sockets = sockets;
    let mut into = no_event();
    let (mut count, mut ticks) = (0u32, 0u32);
    for _ in 0..100 {
        sockets.receive(clock, &mut into);
        match into.came {
            Came::Tick => ticks = ticks.saturating_add(1),
            _ => count = count.saturating_add(1),
        }
        if ticks == 3 {
            break;
        }
    }
    (count, *sockets.faults())
}

// A worker's sockets go to its thread, and what failed comes back.
#[test]
fn sockets_go_to_a_thread(rt: HostRuntime) -> Result<(), Fail> {
    let address = v4(free_port(&rt)?);
    let sockets = open(&rt, rt.alloc(), &[address], v4(9))?;
    let client = end(&rt, address)?;
    assert!(rt; sends(&client, address, &query(1)));
    let here = &rt;
    let served = thread::scope(thread::scope_env(), here, |scope| {
        match scope.spawn(move || queries_at(here, sockets)) {
            Ok(worker) => Some(worker.join(here)),
            Err(_) => None,
        }
    });
    let Some((count, faults)) = served else {
        return Err(Fail::from("no thread"));
    };
    assert!(rt; count == 1 && faults.query.count == 0, "{count} {faults:?}");
    Ok(())
}

// Two at one address, each of which goes to a thread of its own.
fn two<N: Net>(net: &N, alloc: Global, address: SocketAddr) -> Result<Vec<Sockets>, Fail> {
    let mut both = Vec::new(alloc);
    both.push(open(net, alloc, &[address], v4(9))?)?;
    both.push(open(net, alloc, &[address], v4(9))?)?;
    Ok(both)
}

#[test]
fn workers_share_an_address(rt: HostRuntime) -> Result<(), Fail> {
    for like in [v4(free_port(&rt)?), v6(free_port(&rt)?)] {
        let both = two(&rt, rt.alloc(), like)?;
        for id in 0..64u16 {
            let client = end(&rt, like)?;
            assert!(rt; sends(&client, like, &query(id)), "{id}");
        }
        let counts = thread::map_vec(&rt, both, &|sockets| queries_at(&rt, sockets))?;
        let (mut all, mut fair) = (0u32, true);
        for (count, _) in &counts {
            all = all.saturating_add(*count);
            fair = fair && *count > 0;
        }
        assert!(rt; fair && all == 64, "{all}");
    }
    Ok(())
}

// Of 1,000 IDs drawn from 65,536 some 992 are distinct, and 900 are all but certain.
#[test]
fn ids_differ(rt: HostRuntime) -> Result<(), Fail> {
    let ids = RandomIds::over(&rt);
    ids.check()?;
    let mut drawn: Vec<u16> = Vec::new(rt.alloc());
    for _ in 0..1000 {
        let id = ids.draw();
        if !drawn.contains(&id) {
            drawn.push(id)?;
        }
    }
    assert!(rt; drawn.len() > 900, "{}", drawn.len());
    Ok(())
}
