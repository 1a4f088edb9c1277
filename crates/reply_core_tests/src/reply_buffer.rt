use crate::made::{ASKED_AT_APEX, TRUNCATED, joined, question, set, verdict};
use denial_records::Kind;
use reply_core::{MAX_REPLY, ReplyBuffer, write_reply};
use std::alloc::Global;
use std::test::Fail;

// Whether there is such a place and room for the octets, which then stand from it on.
fn replace(at: usize, octets: &[u8], out: &mut ReplyBuffer) -> bool {
    if at > out.as_slice().len() || octets.len() > MAX_REPLY - at {
        return false;
    }
    out.replace_from(at, octets);
    true
}

// What the buffer holds, the place, the octets, what it holds then.
type Case = (&'static [u8], usize, &'static [u8], &'static [u8]);

fn is_replaced(case: &Case, out: &mut ReplyBuffer) -> bool {
    let (held, at, octets, wanted) = *case;
    if held.len() > MAX_REPLY {
        return false;
    }
    out.fill(held);
    replace(at, octets, out) && out.as_slice() == wanted
}

fn first_wrong(cases: &[Case]) -> Option<usize> {
    let mut out = ReplyBuffer::new();
    for (i, case) in cases.iter().enumerate() {
        if !is_replaced(case, &mut out) {
            return Some(i);
        }
    }
    None
}

#[test]
fn the_octets_stand_behind_those_that_stay(rt: HostRuntime) -> Result<(), Fail> {
    let cases: [Case; 8] = [
        (b"abcdef", 4, b"XY", b"abcdXY"),
        (b"abcdef", 4, b"WXYZ", b"abcdWXYZ"),
        (b"abcdef", 2, b"X", b"abX"),
        (b"abcdef", 1, b"", b"a"),
        // at the end, and from the first on
        (b"abc", 3, b"XY", b"abcXY"),
        (b"abc", 0, b"XY", b"XY"),
        (b"", 0, b"XY", b"XY"),
        // an OPT record gets an extended error, whose code is 15 and INFO-CODE 29 (RFC 8914, sections 2 and 4)
        (
            b"\0\0\x29\x04\xd0\0\0\0\0\0\0",
            9,
            b"\0\x06\0\x0f\0\x02\0\x1d",
            b"\0\0\x29\x04\xd0\0\0\0\0\0\x06\0\x0f\0\x02\0\x1d",
        ),
    ];
    let wrong = first_wrong(&cases);
    assert!(rt; wrong.is_none(), "{wrong:?}");
    Ok(())
}

// Answers a client that takes 512 octets with a TXT record that is longer.
fn truncate(alloc: Global, out: &mut ReplyBuffer) -> Result<(), Fail> {
    let mut item = Vec::new(alloc);
    item.resize(600, 120)?;
    let answer = set(alloc, 16, &item, b"")?;
    let mut verdict = verdict(Kind::Answer, None, None);
    verdict.answer_set = Some(&answer);
    write_reply(&question(ASKED_AT_APEX, None)?, &verdict, out);
    Ok(())
}

#[test]
fn there_is_room_for_the_longest_reply(rt: HostRuntime) -> Result<(), Fail> {
    let alloc = rt.alloc();
    let mut out = ReplyBuffer::new();
    truncate(alloc, &mut out)?;
    assert!(rt; out.as_slice() == TRUNCATED, "{:?}", out.as_slice());

    // 25 octets stay, of 1232
    let mut more = Vec::new(alloc);
    more.resize(1207, 121)?;
    let fits = replace(25, &more, &mut out);
    let wanted = joined(alloc, &[TRUNCATED, &more])?;
    assert!(rt;
        fits && out.as_slice() == wanted.as_slice(),
        "{:?}",
        out.as_slice()
    );
    Ok(())
}
