use crate::made::{ASKED_AT_APEX, is_reply, question, set, verdict, whole_reply};
use denial_records::Kind;
use dnswire::Edns;
use reply_core::{LongReplyBuffer, write_long_reply};
use std::alloc::Global;
use std::test::Fail;

// The client's OPT size (without DO), the octets of the TXT record's data, those of the reply.
type Case = (Option<u16>, usize, usize);

// Answers with a TXT record of that data.
fn answer_with(
    alloc: Global,
    size: Option<u16>,
    item: &[u8],
    out: &mut LongReplyBuffer,
) -> Result<(), Fail> {
    let answer = set(alloc, 16, item, b"")?;
    let edns = match size {
        Some(size) => Some(Edns {
            size,
            dnssec: false,
        }),
        None => None,
    };
    let mut verdict = verdict(Kind::Answer, None, None);
    verdict.answer_set = Some(&answer);
    write_long_reply(&question(ASKED_AT_APEX, edns)?, &verdict, out);
    Ok(())
}

// The first case with another reply, and its size.
fn first_wrong(alloc: Global, cases: &[Case]) -> Result<Option<(usize, usize)>, Fail> {
    let mut out = LongReplyBuffer::new();
    for (i, (size, data, length)) in cases.iter().enumerate() {
        let mut item = Vec::new(alloc);
        item.resize(*data, 120)?;
        answer_with(alloc, *size, &item, &mut out)?;
        let whole = whole_reply(alloc, &item, size.is_some())?;
        let octets = out.as_slice();
        if octets.len() != *length || !is_reply(octets, *length, &whole) {
            return Ok(Some((i, octets.len())));
        }
    }
    Ok(None)
}

// What a client takes by datagrams doesn't count. Two octets hold a length of 65,535 at most (RFC 1035, section 4.2.2).
#[test]
fn a_long_reply_is_whole_up_to_what_two_octets_hold(rt: HostRuntime) -> Result<(), Fail> {
    let cases: [Case; 8] = [
        (None, 468, 512),
        (None, 1189, 1233),
        (Some(4096), 1178, 1233),
        (Some(512), 59_945, 60_000),
        (None, 65_491, 65_535),
        (None, 65_492, 25),
        (Some(0), 65_480, 65_535),
        (Some(0), 65_481, 36),
    ];
    let wrong = first_wrong(rt.alloc(), &cases)?;
    assert!(rt; wrong.is_none(), "{wrong:?}");
    Ok(())
}
