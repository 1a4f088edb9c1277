use arrayvec::ArrayVec;
use dname::{Name, OutOfMemory};
use dnswire::{Edns, Head, Question};
use reply_core::{ReplyBuffer, write_error, write_plain};
use std::alloc::Global;
use std::test::Fail;

// example A IN
const EXAMPLE: &[u8] = b"\x07example\0\0\x01\0\x01";

// The same in other letters.
const CAPITALS: &[u8] = b"\x07eXamPLE\0\0\x01\0\x01";

// 63 octets after their length.
const LABEL: &[u8] = b"\x3fabcdefghijklmnopqrstuvwxyzabcdefghijklmnopqrstuvwxyzabcdefghijk";

// A label of 61 octets, the root, TXT and IN.
const LONGEST_END: &[u8] =
    b"\x3dabcdefghijklmnopqrstuvwxyzabcdefghijklmnopqrstuvwxyzabcdefghi\0\0\x10\0\x01";

const OPT: &[u8] = b"\0\0\x29\x04\xd0\0\0\0\0\0\0";

const OPT_WITH_DO: &[u8] = b"\0\0\x29\x04\xd0\0\0\x80\0\0\0";

const BADVERS: &[u8] = b"\0\0\x29\x04\xd0\x01\0\0\0\0\0";

const BADVERS_WITH_DO: &[u8] = b"\0\0\x29\x04\xd0\x01\0\x80\0\0\0";

fn question(parts: &[&[u8]], edns: Option<Edns>) -> Result<Question, Fail> {
    let mut asked = ArrayVec::new();
    for part in parts {
        asked.try_extend_from_slice(part)?;
    }
    let (name, _) = Name::read(asked.as_slice())?;
    Ok(Question {
        id: 0x1234,
        rd: true,
        ad: false,
        cd: false,
        name,
        asked,
        qtype: 1,
        qclass: 1,
        edns,
    })
}

// Fills the buffer with more octets than any reply below has: a name of 255 octets, and OPT.
fn fill(out: &mut ReplyBuffer) -> Result<(), Fail> {
    let edns = Edns {
        size: 512,
        dnssec: true,
    };
    let longest = question(&[LABEL, LABEL, LABEL, LONGEST_END], Some(edns))?;
    write_plain(&longest, 2, out);
    Ok(())
}

type Front = (u16, u8, bool, bool, u16, &'static [u8]);

// How many octets the buffer had before, and whether the header alone is written, with that front and no record.
fn header_alone(case: &Front, out: &mut ReplyBuffer) -> Result<(usize, bool), Fail> {
    let (id, opcode, rd, cd, rcode, front) = *case;
    fill(out)?;
    let before = out.as_slice().len();
    if opcode > 15 || rcode > 15 {
        return Ok((before, false));
    }
    write_error(&Head { id, opcode, rd, cd }, rcode, out);
    let octets = out.as_slice();
    let is_front = octets.starts_with(front) && octets.ends_with(b"\0\0\0\0\0\0\0\0");
    Ok((before, is_front && octets.len() == 12))
}

fn first_wrong_front(cases: &[Front]) -> Result<Option<(usize, usize)>, Fail> {
    let mut out = ReplyBuffer::new();
    for (i, case) in cases.iter().enumerate() {
        let (before, is_written) = header_alone(case, &mut out)?;
        if before != 282 || !is_written {
            return Ok(Some((i, before)));
        }
    }
    Ok(None)
}

#[test]
fn the_reply_that_is_a_header_alone(rt: HostRuntime) -> Result<(), Fail> {
    // ID, opcode, RD and CD of the query, RCODE, the ID and the flags of the reply
    let cases: [Front; 6] = [
        (0xabcd, 0, true, false, 1, b"\xab\xcd\x81\x81"),
        (0xabcd, 4, true, false, 4, b"\xab\xcd\xa1\x84"),
        (0, 0, false, false, 0, b"\0\0\x80\x80"),
        (0xffff, 2, true, true, 4, b"\xff\xff\x91\x94"),
        (0x0102, 5, false, true, 5, b"\x01\x02\xa8\x95"),
        (0x1234, 15, false, false, 15, b"\x12\x34\xf8\x8f"),
    ];
    let wrong = first_wrong_front(&cases)?;
    assert!(rt; wrong.is_none(), "{wrong:?}");
    Ok(())
}

#[test]
fn the_reply_without_records(rt: HostRuntime) -> Result<(), Fail> {
    let edns = Edns {
        size: 1232,
        dnssec: false,
    };
    let mut out = ReplyBuffer::new();

    let with_opt = question(&[EXAMPLE], Some(edns))?;
    assert!(rt; with_opt.edns.is_some());
    fill(&mut out)?;
    write_plain(&with_opt, 16, &mut out);
    let bad_version =
        b"\x12\x34\x81\x80\0\x01\0\0\0\0\0\x01\x07example\0\0\x01\0\x01\0\0\x29\x04\xd0\x01\0\0\0\0\0".as_slice();
    assert!(rt; out.as_slice() == bad_version, "{:?}", out.as_slice());

    fill(&mut out)?;
    write_plain(&question(&[EXAMPLE], None)?, 2, &mut out);
    let server_failure = b"\x12\x34\x81\x82\0\x01\0\0\0\0\0\0\x07example\0\0\x01\0\x01".as_slice();
    assert!(rt; out.as_slice() == server_failure, "{:?}", out.as_slice());
    Ok(())
}

type Flags = (
    bool,
    bool,
    bool,
    Option<bool>,
    u16,
    &'static [u8],
    &'static [u8],
);

// The octets of a reply without records.
fn wanted_plain(alloc: Global, case: &Flags) -> Result<Vec<u8>, OutOfMemory> {
    let (_, _, _, dnssec, _, flags, opt) = *case;
    let mut wanted = Vec::new(alloc);
    wanted.extend_from_slice(b"\x12\x34")?;
    wanted.extend_from_slice(flags)?;
    wanted.extend_from_slice(b"\0\x01\0\0\0\0\0")?;
    wanted.push(u8::from(dnssec.is_some()))?;
    wanted.extend_from_slice(CAPITALS)?;
    wanted.extend_from_slice(opt)?;
    Ok(wanted)
}

// Whether the reply could be asked for and has these octets.
fn is_plain(case: &Flags, wanted: &[u8], out: &mut ReplyBuffer) -> Result<bool, Fail> {
    let (rd, ad, cd, dnssec, rcode, _, _) = *case;
    let edns = match dnssec {
        Some(dnssec) => Some(Edns { size: 1232, dnssec }),
        None => None,
    };
    let mut question = question(&[CAPITALS], edns)?;
    question.rd = rd;
    question.ad = ad;
    question.cd = cd;
    fill(out)?;
    if rcode > 15 && (rcode != 16 || question.edns.is_none()) {
        return Ok(false);
    }
    write_plain(&question, rcode, out);
    Ok(out.as_slice() == wanted)
}

fn first_wrong_flags(alloc: Global, cases: &[Flags]) -> Result<Option<usize>, Fail> {
    let mut out = ReplyBuffer::new();
    for (i, case) in cases.iter().enumerate() {
        let wanted = wanted_plain(alloc, case)?;
        if !is_plain(case, &wanted, &mut out)? {
            return Ok(Some(i));
        }
    }
    Ok(None)
}

#[test]
fn the_flags_and_the_opt_record(rt: HostRuntime) -> Result<(), Fail> {
    // RD, AD and CD of the query, its DO where it has OPT, RCODE, the flags and the OPT record of the reply
    let cases: [Flags; 10] = [
        (false, false, false, None, 5, b"\x80\x85", b""),
        (true, false, false, None, 15, b"\x81\x8f", b""),
        (true, false, true, None, 2, b"\x81\x92", b""),
        // AD stays zero
        (true, true, false, None, 2, b"\x81\x82", b""),
        (true, false, false, Some(true), 2, b"\x81\x82", OPT_WITH_DO),
        (true, true, true, Some(true), 2, b"\x81\x92", OPT_WITH_DO),
        (false, false, false, Some(false), 0, b"\x80\x80", OPT),
        (false, false, false, Some(false), 15, b"\x80\x8f", OPT),
        (true, false, false, Some(false), 16, b"\x81\x80", BADVERS),
        (
            false,
            false,
            true,
            Some(true),
            16,
            b"\x80\x90",
            BADVERS_WITH_DO,
        ),
    ];
    let wrong = first_wrong_flags(rt.alloc(), &cases)?;
    assert!(rt; wrong.is_none(), "{wrong:?}");
    Ok(())
}
