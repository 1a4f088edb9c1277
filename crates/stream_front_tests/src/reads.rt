//! A stream that is read of a source.
ghost use Rattle.std.specs.Prelude.{◌≡◌, ◌≤◌, None, length};
ghost use Rattle.stream_front.specs.Split.{rest_in, too_small_in};

use super::messages::STREAM;
use outside_core::MemorySource;
use std::alloc::Global;
use std::test::Fail;
use stream_front::{Ahead, Front, ReadFault, first};

// How many looks at the front there were, and how many messages it gave.
#[derive(Clone, Copy, Debug, PartialEq, Eq)]
struct Seen {
    looks: u32,
    messages: u32,
}

// How many messages stand at the front of the octets, and how many octets follow them.
fn count(octets: &[u8]) -> (u32, usize)
    ensures { result.1 ≤ length octets.now }
{
    let mut messages = 0_u32;
    let mut rest = octets;
    for _ in 0..octets.len() {
        let Ahead::Message { after, .. } = first(rest) else {
            break;
        };
        messages = messages.saturating_add(1);
        rest = after;
    }
    (messages, rest.len().min(octets.len()))
}

// Looks at the front, where there may be a message.
fn look(front: &mut Front, seen: &mut Seen)
    requires { too_small_in front.old ≡ None }
    ensures { too_small_in front.new ≡ None }
{
    if front.waits() {
        return;
    }
    let (messages, rest) = count(front.rest());
    front.keep(rest);
    seen.looks = seen.looks.saturating_add(1);
    seen.messages = seen.messages.saturating_add(messages);
}

// What is seen of two streams, one behind the other, that are read so many octets at a time, and how it ends.
fn read_by(
    alloc: Global,
    most: usize,
    failing: &[u32],
) -> Result<(Seen, Result<usize, ReadFault>), Fail>
    requires { 1 ≤ most }
{
    let mut octets = Vec::from_slice(alloc, STREAM)?;
    octets.extend_from_slice(STREAM)?;
    let mut source = MemorySource::of(octets, Vec::from_slice(alloc, failing)?);
    let mut front = Front::fresh(alloc);
    let mut seen = Seen {
        looks: 0,
        messages: 0,
    };
    for _ in 0..200 {
        match front.read(&mut source, most) {
            Ok(0) => return Ok((seen, Ok(front.rest().len()))),
            Ok(_) => look(&mut front, &mut seen),
            Err(fault) => return Ok((seen, Err(fault))),
        }
    }
    Err(Fail::from("it doesn't end"))
}

#[test]
fn a_stream_may_be_read_so_many_octets_at_a_time(rt: HostRuntime) -> Result<(), Fail> {
    let alloc = rt.alloc();
    let mut wrong = None;
    for most in 1..120 {
        let (seen, ended) = read_by(alloc, most, &[])?;
        if seen.messages != 4 || ended != Ok(0) {
            wrong = Some(most);
        }
    }
    assert!(rt; wrong.is_none(), "{wrong:?}");
    Ok(())
}

// At each message's length, and once it is whole.
#[test]
fn a_message_is_looked_at_twice_octet_by_octet(rt: HostRuntime) -> Result<(), Fail> {
    let (seen, _) = read_by(rt.alloc(), 1, &[])?;
    assert!(rt;
        seen == Seen {
            looks: 8,
            messages: 4
        },
        "{seen:?}"
    );
    Ok(())
}

#[test]
fn what_was_read_before_a_fault_stays(rt: HostRuntime) -> Result<(), Fail> {
    let (seen, ended) = read_by(rt.alloc(), 50, &[2])?;
    assert!(rt;
        seen.messages == 1 && ended == Err(ReadFault::Source),
        "{seen:?}"
    );
    Ok(())
}
