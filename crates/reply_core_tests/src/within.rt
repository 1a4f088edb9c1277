use crate::made::{
    A_EXAMPLE, ASKED_AT_APEX, is_reply, joined, name, question, set, verdict, whole_reply,
};
use denial_records::Kind;
use dname::OutOfMemory;
use reply_core::{
    LongReplyBuffer, MAX_LONG_REPLY, Sections, write_alias_reply_within, write_reply_within,
};
use std::alloc::Global;
use std::test::Fail;

// The limit, the octets of the TXT record's data, those of the reply.
type Case = (usize, usize, usize);

// Answers a client without OPT with a TXT record of that data.
fn answer(alloc: Global, limit: usize, item: &[u8], out: &mut LongReplyBuffer) -> Result<(), Fail> {
    let answer = set(alloc, 16, item, b"")?;
    let mut verdict = verdict(Kind::Answer, None, None);
    verdict.answer_set = Some(&answer);
    let limit = limit.clamp(512, MAX_LONG_REPLY);
    write_reply_within(limit, &question(ASKED_AT_APEX, None)?, &verdict, out);
    Ok(())
}

// The same, put in parts.
fn answer_in_parts(
    alloc: Global,
    limit: usize,
    item: &[u8],
    out: &mut LongReplyBuffer,
) -> Result<(), Fail> {
    let answer = set(alloc, 16, item, b"")?;
    let question = question(ASKED_AT_APEX, None)?;
    let limit = limit.clamp(512, MAX_LONG_REPLY);
    let mut sections = Sections::begin_within(limit, &question, 0, 300);
    sections.put_answer(&question.name, Some(&answer));
    sections.finish(out);
    Ok(())
}

// Answers that the name is an alias of a.example, with a TXT record of that data there.
fn answer_by_alias(
    alloc: Global,
    limit: usize,
    item: &[u8],
    out: &mut LongReplyBuffer,
) -> Result<(), Fail> {
    let alias = set(alloc, 5, A_EXAMPLE, b"")?;
    let answer = set(alloc, 16, item, b"")?;
    let mut verdict = verdict(Kind::Answer, None, None);
    verdict.answer_set = Some(&answer);
    let question = question(ASKED_AT_APEX, None)?;
    let limit = limit.clamp(512, MAX_LONG_REPLY);
    let target = name(A_EXAMPLE)?;
    write_alias_reply_within(limit, &question, &alias, &target, &verdict, 300, out);
    Ok(())
}

// The whole reply by that alias.
fn whole_by_alias(alloc: Global, data: &[u8]) -> Result<Vec<u8>, OutOfMemory> {
    let size = [(data.len() / 256 % 256) as u8, (data.len() % 256) as u8];
    let head = b"\x12\x34\x81\x80\0\x01\0\x02\0\0\0\0".as_slice();
    let alias = b"\x07example\0\0\x05\0\x01\0\0\x01\x2c\0\x0b\x01a\x07example\0".as_slice();
    let record = b"\x01a\x07example\0\0\x10\0\x01\0\0\x01\x2c".as_slice();
    joined(alloc, &[head, ASKED_AT_APEX, alias, record, &size, data])
}

// Whether the buffer has that many octets: those of the truncated reply, or else of the whole one.
fn has(out: &LongReplyBuffer, length: usize, whole: &[u8]) -> bool {
    out.as_slice().len() == length && is_reply(out.as_slice(), length, whole)
}

// The first case with another reply, at once or in parts.
fn first_wrong(alloc: Global, cases: &[Case]) -> Result<Option<usize>, Fail> {
    let mut at_once = LongReplyBuffer::new();
    let mut in_parts = LongReplyBuffer::new();
    for (i, (limit, data, length)) in cases.iter().enumerate() {
        let mut item = Vec::new(alloc);
        item.resize(*data, 120)?;
        answer(alloc, *limit, &item, &mut at_once)?;
        answer_in_parts(alloc, *limit, &item, &mut in_parts)?;
        let whole = whole_reply(alloc, &item, false)?;
        if !has(&at_once, *length, &whole) || !has(&in_parts, *length, &whole) {
            return Ok(Some(i));
        }
    }
    Ok(None)
}

#[test]
fn a_reply_is_whole_up_to_its_limit(rt: HostRuntime) -> Result<(), Fail> {
    let cases: [Case; 6] = [
        (512, 468, 512),
        (512, 469, 25),
        (600, 556, 600),
        (600, 557, 25),
        // two octets hold a length of 65,535 at most (RFC 1035, section 4.2.2)
        (65_535, 65_491, 65_535),
        (65_535, 65_492, 25),
    ];
    let wrong = first_wrong(rt.alloc(), &cases)?;
    assert!(rt; wrong.is_none(), "{wrong:?}");
    Ok(())
}

// The first case with another reply by the alias.
fn first_wrong_alias(alloc: Global, cases: &[Case]) -> Result<Option<usize>, Fail> {
    let mut out = LongReplyBuffer::new();
    for (i, (limit, data, length)) in cases.iter().enumerate() {
        let mut item = Vec::new(alloc);
        item.resize(*data, 120)?;
        answer_by_alias(alloc, *limit, &item, &mut out)?;
        if !has(&out, *length, &whole_by_alias(alloc, &item)?) {
            return Ok(Some(i));
        }
    }
    Ok(None)
}

#[test]
fn a_reply_by_an_alias_is_whole_up_to_its_limit(rt: HostRuntime) -> Result<(), Fail> {
    let cases: [Case; 6] = [
        (512, 436, 512),
        (512, 437, 25),
        (600, 524, 600),
        (600, 525, 25),
        (65_535, 65_459, 65_535),
        (65_535, 65_460, 25),
    ];
    let wrong = first_wrong_alias(rt.alloc(), &cases)?;
    assert!(rt; wrong.is_none(), "{wrong:?}");
    Ok(())
}
