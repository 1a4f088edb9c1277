use crate::pieces::{is_owner, joined, nth, push_label, push_long};
use dname::OutOfMemory;
use dnswire::{HeaderFlags, Message, Rr, WireFault, read_message};
use std::alloc::Global;
use std::test::Fail;

// A message of 210 octets: one question, and an SOA and an NSEC record, each with its RRSIG.
const PIECES: [&[u8]; 10] = [
    b"\x00\x01\x81\xa0\x00\x01\x00\x00\x00\x04\x00\x00",
    b"\x01a\x07example\x00\x00\x10\x00\x01",
    b"\x07example\x00\x00\x06\x00\x01\x00\x00\x0e\x10\x00\x16",
    b"\x00\x00\x00\x00\x00\x01\x00\x00\x0e\x10\x00\x00\x02\x58\x00\x01\x51\x80\x00\x00\x01\x2c",
    b"\x07example\x00\x00\x2e\x00\x01\x00\x00\x0e\x10\x00\x1f",
    b"\x00\x06\x0d\x01\x00\x00\x0e\x10\x77\x35\x94\x00\x35\xa4\xe9\x00\x00\x01\x07example\x00ZZZZ",
    b"\x01a\x07example\x00\x00\x2f\x00\x01\x00\x00\x0e\x10\x00\x13",
    b"\x01b\x07example\x00\x00\x06\x40\x00\x00\x00\x00\x03",
    b"\x01a\x07example\x00\x00\x2e\x00\x01\x00\x00\x0e\x10\x00\x1f",
    b"\x00\x2f\x0d\x02\x00\x00\x0e\x10\x77\x35\x94\x00\x35\xa4\xe9\x00\x00\x01\x07example\x00ZZZZ",
];

// The fault of the message truncated after so many octets, by where its names and fields begin.
fn fault_of_truncated(size: usize) -> WireFault {
    match size {
        12..=22 => WireFault::BadName { at: 12 },
        27..=35 => WireFault::BadName { at: 27 },
        68..=76 => WireFault::BadName { at: 68 },
        118..=128 => WireFault::BadName { at: 118 },
        158..=168 => WireFault::BadName { at: 158 },
        _ => WireFault::Short,
    }
}

// After how many octets it is truncated where another fault is told first, and which.
fn truncated_otherwise(alloc: Global, whole: &[u8]) -> Option<(usize, Option<WireFault>)> {
    for k in 0..whole.len() {
        let found = read_message(alloc, &whole[..k]).err();
        if found != Some(fault_of_truncated(k)) {
            return Some((k, found));
        }
    }
    None
}

#[test]
fn a_truncated_message_has_its_first_fault(rt: HostRuntime) -> Result<(), Fail> {
    let octets = joined(rt.alloc(), &PIECES)?;
    assert!(rt; octets.len() == 210);
    let wrong = truncated_otherwise(rt.alloc(), &octets);
    assert!(rt; wrong.is_none(), "{wrong:?}");
    Ok(())
}

// The ID, the RCODE, the type and the class, and how many records each section has.
fn numbers_of(message: &Message) -> ([u16; 4], [usize; 3]) {
    (
        [message.id, message.rcode, message.qtype, message.qclass],
        [
            message.answer.len(),
            message.authority.len(),
            message.additional.len(),
        ],
    )
}

// Whether the question has this name, and the header these flags.
fn is_headed(message: &Message, wire: &[u8], flags: u16) -> bool {
    message.name.wire() == wire && message.flags == HeaderFlags::of(flags)
}

#[test]
fn a_whole_message_is_read(rt: HostRuntime) -> Result<(), Fail> {
    let octets = joined(rt.alloc(), &PIECES)?;
    let message = read_message(rt.alloc(), &octets)?;
    let found = numbers_of(&message);
    assert!(rt; found == ([1, 0, 16, 1], [0, 4, 0]), "{found:?}");
    assert!(rt; is_headed(&message, b"\x01a\x07example\x00", 0x81a0));
    Ok(())
}

// A question of a.example, and then an A record whose owner name is given, with one octet after it.
fn with_owner(alloc: Global, owner: &[u8]) -> Result<Vec<u8>, OutOfMemory> {
    joined(
        alloc,
        &[
            b"\x00\x01\x81\xa0\x00\x01\x00\x01\x00\x00\x00\x00",
            b"\x01a\x07example\x00\x00\x10\x00\x01",
            owner,
            b"\x00\x01\x00\x01\x00\x00\x0e\x10\x00\x04\xc0\x00\x02\x01\xff",
        ],
    )
}

// Whether the record has this owner, these data, and the numbers of that A record.
fn is_a(rr: &Rr, wire: &[u8], octets: &[u8]) -> bool {
    is_owner(rr, wire)
        && rr.octets.as_slice() == octets
        && (rr.rtype, rr.class, rr.ttl) == (1, 1, 3600)
}

fn has_one_a(message: &Message) -> bool {
    match message.answer.as_slice() {
        [rr] => is_a(rr, b"\x01a\x07example\x00", b"\xc0\x00\x02\x01"),
        _ => false,
    }
}

#[test]
fn an_owner_may_point_back_alone(rt: HostRuntime) -> Result<(), Fail> {
    let octets = with_owner(rt.alloc(), b"\xc0\x0c")?;
    let message = read_message(rt.alloc(), &octets)?;
    assert!(rt; has_one_a(&message));
    let wrong = first_owned(rt.alloc(), &NO_OWNERS)?;
    assert!(rt; wrong.is_none(), "{wrong:?}");
    Ok(())
}

// Pointers to themselves, forward and to their own run, and a length octet that is none.
const NO_OWNERS: [&[u8]; 4] = [b"\xc0\x1b", b"\xc0\x1c", b"\x40a\x00", b"\x01a\xc0\x1b"];

// The first of the owners, at offset 27, that isn't refused there.
fn first_owned(alloc: Global, owners: &[&[u8]]) -> Result<Option<usize>, OutOfMemory> {
    for (i, owner) in owners.iter().enumerate() {
        let octets = with_owner(alloc, owner)?;
        if read_message(alloc, &octets).err() != Some(WireFault::BadName { at: 27 }) {
            return Ok(Some(i));
        }
    }
    Ok(None)
}

// Octets, and their fault: a header's counts, and what stands after a question of the root.
const FAULTS: [(&[u8], WireFault); 9] = [
    // No question, and two, which comes before all that follows.
    (
        b"\x00\x01\x81\xa0\x00\x00\x00\x00\x00\x00\x00\x00",
        WireFault::BadCount,
    ),
    (
        b"\x00\x01\x81\xa0\x00\x02\x00\x00\x00\x00\x00\x00\xff",
        WireFault::BadCount,
    ),
    // A pointer in the question's name.
    (
        b"\x00\x01\x81\xa0\x00\x01\x00\x00\x00\x00\x00\x00\x01a\xc0\x0c",
        WireFault::BadName { at: 12 },
    ),
    // An NS record's name goes beyond its data; it ends before its data's end.
    (
        b"\x00\x01\x81\xa0\x00\x01\x00\x01\x00\x00\x00\x00\x00\x00\x01\x00\x01\x00\x00\x02\x00\x01\x00\x00\x00\x00\x00\x02\x01a\x00",
        WireFault::BadData { at: 28 },
    ),
    (
        b"\x00\x01\x81\xa0\x00\x01\x00\x01\x00\x00\x00\x00\x00\x00\x01\x00\x01\x00\x00\x02\x00\x01\x00\x00\x00\x00\x00\x04\x01a\x00\x00",
        WireFault::BadData { at: 28 },
    ),
    // So it is in the other sections.
    (
        b"\x00\x01\x81\xa0\x00\x01\x00\x00\x00\x01\x00\x00\x00\x00\x01\x00\x01\x00\x00\x02\x00\x01\x00\x00\x00\x00\x00\x01\xc0\x0c",
        WireFault::BadData { at: 28 },
    ),
    (
        b"\x00\x01\x81\xa0\x00\x01\x00\x00\x00\x00\x00\x01\x00\x00\x01\x00\x01\x00\x00\x02\x00\x01\x00\x00\x00\x00\x00\x00",
        WireFault::BadData { at: 28 },
    ),
    // Data shorter than its length comes before its layout, and the first record before the second.
    (
        b"\x00\x01\x81\xa0\x00\x01\x00\x01\x00\x00\x00\x00\x00\x00\x01\x00\x01\x00\x00\x02\x00\x01\x00\x00\x00\x00\x00\x03\xc0\xff",
        WireFault::Short,
    ),
    (
        b"\x00\x01\x81\xa0\x00\x01\x00\x02\x00\x00\x00\x00\x00\x00\x01\x00\x01\x00\x00\x02\x00\x01\x00\x00\x00\x00\x00\x01\xffabc",
        WireFault::BadData { at: 28 },
    ),
];

// The first octets that have another fault, and which.
fn faulty_otherwise(
    alloc: Global,
    rows: &[(&[u8], WireFault)],
) -> Option<(usize, Option<WireFault>)> {
    for (i, (octets, fault)) in rows.iter().enumerate() {
        let found = read_message(alloc, octets).err();
        if found != Some(*fault) {
            return Some((i, found));
        }
    }
    None
}

#[test]
fn the_first_fault_is_given(rt: HostRuntime) {
    let wrong = faulty_otherwise(rt.alloc(), &FAULTS);
    assert!(rt; wrong.is_none(), "{wrong:?}");
}

// Root questions with RCODE 2 in the header, the additional sections, and the extended RCODE (RFC 6891, section 6.1.3).
const RCODES: [(&[u8], &[u8], u16, usize); 5] = [
    (b"\x00\x00", b"", 2, 0),
    (
        b"\x00\x01",
        b"\x00\x00\x29\x04\xd0\x01\x00\x80\x00\x00\x00",
        18,
        1,
    ),
    (
        b"\x00\x01",
        b"\x00\x00\x29\x04\xd0\xff\x00\x00\x00\x00\x00",
        4082,
        1,
    ),
    // The first OPT record counts, and no other record, nor an OPT record of another owner.
    (
        b"\x00\x03",
        b"\x00\x00\x10\x04\xd0\x07\x00\x00\x00\x00\x00\x00\x00\x29\x04\xd0\x01\x00\x00\x00\x00\x00\x00\x00\x29\x04\xd0\x02\x00\x00\x00\x00\x00",
        18,
        3,
    ),
    (
        b"\x00\x02",
        b"\x01a\x00\x00\x29\x04\xd0\x03\x00\x00\x00\x00\x00\x00\x00\x29\x04\xd0\x01\x00\x00\x00\x00\x00",
        18,
        2,
    ),
];

// The RCODE and the size of the additional section that are read, where the flags are those; the octets go on after it.
fn rcode_of(
    alloc: Global,
    count: &[u8],
    additional: &[u8],
) -> Result<Option<(u16, usize)>, OutOfMemory> {
    let octets = joined(
        alloc,
        &[
            b"\x00\x01\x81\x82\x00\x01\x00\x00\x00\x00",
            count,
            b"\x00\x00\x01\x00\x01",
            additional,
            b"beyond",
        ],
    )?;
    match read_message(alloc, &octets) {
        Ok(message) if is_headed(&message, b"\x00", 0x8182) => {
            Ok(Some((message.rcode, message.additional.len())))
        }
        _ => Ok(None),
    }
}

// The first row with other numbers, and these.
fn coded_otherwise(
    alloc: Global,
    rows: &[(&[u8], &[u8], u16, usize)],
) -> Result<Option<(usize, Option<(u16, usize)>)>, OutOfMemory> {
    for (i, (count, additional, rcode, size)) in rows.iter().enumerate() {
        let found = rcode_of(alloc, count, additional)?;
        if found != Some((*rcode, *size)) {
            return Ok(Some((i, found)));
        }
    }
    Ok(None)
}

#[test]
fn the_rcode_has_its_upper_part(rt: HostRuntime) -> Result<(), Fail> {
    let wrong = coded_otherwise(rt.alloc(), &RCODES)?;
    assert!(rt; wrong.is_none(), "{wrong:?}");
    Ok(())
}

// An answer whose names glibc 2.36 compressed by its `dn_comp`: the AAAA record of WWW.example.com by a CNAME record,
// then an SOA, an SRV and an OPT record.
const COMPRESSED: &[u8] =
    b"\x12\x34\x81\xa0\x00\x01\x00\x02\x00\x01\x00\x02\x03\x77\x77\x77\x07\x65\x78\x61\x6d\x70\x6c\x65\x03\x63\x6f\x6d\x00\x00\x1c\x00\x01\xc0\x0c\x00\x05\x00\x01\x00\x00\x01\x2c\x00\x07\x04\x48\x6f\x73\x74\xc0\x10\xc0\x2d\x00\x1c\x00\x01\x00\x00\x0e\x10\x00\x10\x00\x01\x02\x03\x04\x05\x06\x07\x08\x09\x0a\x0b\x0c\x0d\x0e\x0f\xc0\x10\x00\x06\x00\x01\x00\x01\x51\x80\x00\x26\x02\x6e\x73\xc0\x10\x0a\x68\x6f\x73\x74\x6d\x61\x73\x74\x65\x72\xc0\x10\x00\x00\x00\x01\x00\x00\x0e\x10\x00\x00\x02\x58\x00\x01\x51\x80\x00\x00\x01\x2c\x04\x5f\x64\x6e\x73\xc0\x10\x00\x21\x00\x01\x00\x00\x00\x3c\x00\x08\x00\x00\x00\x05\x00\x35\xc0\x5c\x00\x00\x29\x04\xd0\x00\x00\x80\x00\x00\x00";

// An owner, a type, a TTL and data with the names written out.
type Written<'a> = (&'a [u8], u16, u32, &'a [u8]);

// Its records.
const WRITTEN_OUT: [Written<'static>; 5] = [
    (
        b"\x03www\x07example\x03com\x00",
        5,
        300,
        b"\x04Host\x07example\x03com\x00",
    ),
    (
        b"\x04host\x07example\x03com\x00",
        28,
        3600,
        b"\x00\x01\x02\x03\x04\x05\x06\x07\x08\x09\x0a\x0b\x0c\x0d\x0e\x0f",
    ),
    (
        b"\x07example\x03com\x00",
        6,
        86400,
        b"\x02ns\x07example\x03com\x00\x0ahostmaster\x07example\x03com\x00\x00\x00\x00\x01\x00\x00\x0e\x10\x00\x00\x02\x58\x00\x01\x51\x80\x00\x00\x01\x2c",
    ),
    (
        b"\x04_dns\x07example\x03com\x00",
        33,
        60,
        b"\x00\x00\x00\x05\x00\x35\x02ns\x07example\x03com\x00",
    ),
    (b"\x00", 41, 0x8000, b""),
];

fn is_written(rr: &Rr, wanted: &Written<'_>) -> bool {
    is_owner(rr, wanted.0)
        && (rr.rtype, rr.ttl) == (wanted.1, wanted.2)
        && rr.octets.as_slice() == wanted.3
}

// The first place in the section, counted over all, whose record isn't that of the table.
fn written_otherwise(rrs: &[Rr], before: usize, rows: &[Written<'_>]) -> Option<usize> {
    for (i, rr) in rrs.iter().enumerate() {
        let is_same = match rows.iter().nth(before.saturating_add(i)) {
            Some(wanted) => is_written(rr, wanted),
            None => false,
        };
        if !is_same {
            return Some(i);
        }
    }
    None
}

#[test]
fn compressed_names_are_written_out(rt: HostRuntime) -> Result<(), Fail> {
    let message = read_message(rt.alloc(), COMPRESSED)?;
    let found = numbers_of(&message);
    assert!(rt; found == ([0x1234, 0, 28, 1], [2, 1, 2]), "{found:?}");
    assert!(rt; is_headed(&message, b"\x03www\x07example\x03com\x00", 0x81a0));
    let wrong = (
        written_otherwise(message.answer.as_slice(), 0, &WRITTEN_OUT),
        written_otherwise(message.authority.as_slice(), 2, &WRITTEN_OUT),
        written_otherwise(message.additional.as_slice(), 3, &WRITTEN_OUT),
    );
    assert!(rt; wrong == (None, None, None), "{wrong:?}");
    Ok(())
}

// Octets without meaning, from a linear congruence.
fn noise(alloc: Global) -> Result<Vec<u8>, OutOfMemory> {
    let mut octets = joined(
        alloc,
        &[b"\x00\x01\x81\xa0\x00\x01\xff\xff\xff\xff\xff\xff"],
    )?;
    let mut state = 1u32;
    for _ in 0..4084 {
        state = state.wrapping_mul(1_664_525).wrapping_add(1_013_904_223);
        octets.push((state / 0x100_0000) as u8)?;
    }
    Ok(octets)
}

#[test]
fn noise_is_read_to_an_answer(rt: HostRuntime) -> Result<(), Fail> {
    let octets = noise(rt.alloc())?;
    assert!(rt; octets.len() == 4096);
    for size in 0..octets.len() {
        let _ = read_message(rt.alloc(), &octets[..size]);
    }
    Ok(())
}

// The question's name has 193 octets, and the owner, at 209, one label before it, which has so many octets: the sizes of
// the owners that are read, or the fault.
fn long_owner(alloc: Global, size: u8) -> Result<Result<Option<usize>, WireFault>, OutOfMemory> {
    let mut octets = joined(
        alloc,
        &[b"\x00\x01\x81\xa0\x00\x01\x00\x01\x00\x00\x00\x00"],
    )?;
    push_long(&mut octets)?;
    octets.extend_from_slice(b"\x00\x00\x01\x00\x01")?;
    push_label(&mut octets, size)?;
    octets.extend_from_slice(b"\xc0\x0c\x00\x01\x00\x01\x00\x00\x00\x00\x00\x00")?;
    match read_message(alloc, &octets) {
        Ok(message) => Ok(Ok(nth(&message.answer, 0).map(|rr| rr.owner.name().wire().len()))),
        Err(fault) => Ok(Err(fault)),
    }
}

#[test]
fn an_owner_of_255_octets_by_a_pointer_is_read(rt: HostRuntime) -> Result<(), Fail> {
    let found = long_owner(rt.alloc(), 61)?;
    assert!(rt; found == Ok(Some(255)), "{found:?}");
    let found = long_owner(rt.alloc(), 62)?;
    assert!(rt; found == Err(WireFault::BadName { at: 209 }), "{found:?}");
    Ok(())
}

// A question of the root; then a record whose data, from offset 28 on, is a chain of 20 pointers, the first to the root, the
// last at 66; at 68 an NS record of the root, whose server's name, at 80, ends in the chain.
const CHAIN: &[u8] =
    b"\x12\x34\x81\xa0\x00\x01\x00\x01\x00\x02\x00\x01\x00\x00\x01\x00\x01\x00\x00\x0a\x00\x01\x00\x00\x00\x00\x00\x28\xc0\x0c\xc0\x1c\xc0\x1e\xc0\x20\xc0\x22\xc0\x24\xc0\x26\xc0\x28\xc0\x2a\xc0\x2c\xc0\x2e\xc0\x30\xc0\x32\xc0\x34\xc0\x36\xc0\x38\xc0\x3a\xc0\x3c\xc0\x3e\xc0\x40\xc0\x42\x00\x02\x00\x01\x00\x00\x00\x00\x00\x04\x01B\xc0\x42";

// At 84, an A record without data; then an MX record whose owner is given and whose exchange is that server.
type Owners<'a> = (&'a [u8], &'a [u8], &'a [u8], &'a [u8]);

const OWNERS: [Owners<'static>; 3] = [
    // The middle of the chain behind a label, and that name again.
    (b"\x01A\xc0\x30", b"\xc0\x54", b"\x01a\x00", b"\x01a\x00"),
    // The chain alone, and the server's name.
    (b"\xc0\x42", b"\xc0\x50", b"\x00", b"\x01b\x00"),
    // One label more in front of it.
    (
        b"\x01C\xc0\x50",
        b"\x01d\xc0\x54",
        b"\x01c\x01b\x00",
        b"\x01d\x01c\x01b\x00",
    ),
];

// Whether the records behind the chain have the row's names: the NS record's owner and server, the A record's owner, and the
// MX record's owner and exchange.
fn chained(alloc: Global, row: &Owners<'_>) -> Result<[bool; 3], OutOfMemory> {
    let octets = joined(
        alloc,
        &[
            CHAIN,
            row.0,
            b"\x00\x01\x00\x01\x00\x00\x00\x00\x00\x00",
            row.1,
            b"\x00\x0f\x00\x01\x00\x00\x00\x00\x00\x04\x00\x01\xc0\x50",
        ],
    )?;
    match read_message(alloc, &octets) {
        Ok(message) => Ok(are_chained(&message, row)),
        Err(_) => Ok([false; 3]),
    }
}

fn are_chained(message: &Message, row: &Owners<'_>) -> [bool; 3] {
    match (message.authority.as_slice(), message.additional.as_slice()) {
        ([ns, a], [mx]) => [
            ns.rtype == 2
                && is_owner(ns, b"\x00")
                && ns.octets.as_slice() == b"\x01B\x00".as_slice(),
            is_owner(a, row.2),
            is_owner(mx, row.3) && mx.octets.as_slice() == b"\x00\x01\x01B\x00".as_slice(),
        ],
        _ => [false; 3],
    }
}

// The first row with other names, and which are right.
fn chained_otherwise(
    alloc: Global,
    rows: &[Owners<'_>],
) -> Result<Option<(usize, [bool; 3])>, OutOfMemory> {
    for (i, row) in rows.iter().enumerate() {
        let found = chained(alloc, row)?;
        if found != [true; 3] {
            return Ok(Some((i, found)));
        }
    }
    Ok(None)
}

#[test]
fn names_that_end_in_a_long_chain_are_read(rt: HostRuntime) -> Result<(), Fail> {
    let wrong = chained_otherwise(rt.alloc(), &OWNERS)?;
    assert!(rt; wrong.is_none(), "{wrong:?}");
    Ok(())
}

// At 84, a pointer to itself, one that goes on, and one to its own run.
const BAD_OWNERS: [&[u8]; 3] = [b"\xc0\x54", b"\xc0\x60", b"\x01a\xc0\x54"];

// The first of the owners behind the chain that isn't refused there.
fn first_chained(alloc: Global, owners: &[&[u8]]) -> Result<Option<usize>, OutOfMemory> {
    for (i, owner) in owners.iter().enumerate() {
        let octets = joined(
            alloc,
            &[CHAIN, owner, b"\x00\x01\x00\x01\x00\x00\x00\x00\x00\x00"],
        )?;
        if read_message(alloc, &octets).err() != Some(WireFault::BadName { at: 84 }) {
            return Ok(Some(i));
        }
    }
    Ok(None)
}

#[test]
fn behind_a_long_chain_a_fault_is_told(rt: HostRuntime) -> Result<(), Fail> {
    let wrong = first_chained(rt.alloc(), &BAD_OWNERS)?;
    assert!(rt; wrong.is_none(), "{wrong:?}");
    Ok(())
}
