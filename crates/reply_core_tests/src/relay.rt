use crate::made::{OPT, OPT_WITH_DO, joined, question};
use dname::OutOfMemory;
use dnswire::{Edns, HeaderFlags, Message, Question, read_message};
use reply_core::{LongReplyBuffer, MAX_LONG_REPLY, ReplyBuffer, write_relay, write_relay_within};
use std::alloc::Global;
use std::test::Fail;

// A MX record by a wildcard, with the proof that no closer name is there (RFC 4035, appendix B.6, with short
// signatures), an address and OPT, as dnspython 2.3 writes it.
const MESSAGE: [&[u8]; 5] = [
    b"\0\x07\x81\xa0\0\x01\0\x02\0\x02\0\x02\x01a\x01z\x01w\x07example\0\0\x0f\0\x01\xc0\x0c\0\x0f\0\x01\0\0\x0e\x10\0\x07\0\x01\x02ai\xc0\x12",
    b"\xc0\x0c\0\x2e\0\x01\0\0\x0e\x10\0\x1f\0\x0f\x0d\x02\0\0\x0e\x10w5\x94\06\x0c\x0f\x40\0\x01\x07example\0ZZZZ",
    b"\x01x\x01y\xc0\x10\0\x2f\0\x01\0\0\x01\x2c\0\x14\x02xx\x07example\0\0\x06\0\x01\0\0\0\x03",
    b"\xc0\x5d\0\x2e\0\x01\0\0\x01\x2c\0\x1f\0\x2f\x0d\x04\0\0\x0e\x10w5\x94\06\x0c\x0f\x40\0\x01\x07example\0ZZZZ",
    b"\xc0\x2d\0\x01\0\x01\0\0\x1c\x20\0\x04\xc0\0\x02\x09\0\0\x29\x10\0\0\0\x80\0\0\0",
];

const ASKED: &[u8] = b"\x01A\x01z\x01W\x07eXample\0\0\x0f\0\x01";

// Its records without pointers.
const MX: &[u8] =
    b"\x01a\x01z\x01w\x07example\0\0\x0f\0\x01\0\0\x0e\x10\0\x0e\0\x01\x02ai\x07example\0";

const MX_RRSIG: &[u8] =
    b"\x01a\x01z\x01w\x07example\0\0\x2e\0\x01\0\0\x0e\x10\0\x1f\0\x0f\x0d\x02\0\0\x0e\x10w5\x94\06\x0c\x0f\x40\0\x01\x07example\0ZZZZ";

const NSEC: &[u8] =
    b"\x01x\x01y\x01w\x07example\0\0\x2f\0\x01\0\0\x01\x2c\0\x14\x02xx\x07example\0\0\x06\0\x01\0\0\0\x03";

const NSEC_RRSIG: &[u8] =
    b"\x01x\x01y\x01w\x07example\0\0\x2e\0\x01\0\0\x01\x2c\0\x1f\0\x2f\x0d\x04\0\0\x0e\x10w5\x94\06\x0c\x0f\x40\0\x01\x07example\0ZZZZ";

const A: &[u8] = b"\x02ai\x07example\0\0\x01\0\x01\0\0\x1c\x20\0\x04\xc0\0\x02\x09";

const WITH_DO: Edns = Edns {
    size: 1232,
    dnssec: true,
};

const WITHOUT_DO: Edns = Edns {
    size: 1232,
    dnssec: false,
};

fn question_for(asked: &[u8], qtype: u16, edns: Option<Edns>) -> Result<Question, Fail> {
    let mut question = question(asked, edns)?;
    question.qtype = qtype;
    Ok(question)
}

fn read(alloc: Global, parts: &[&[u8]]) -> Result<Message, Fail> {
    let octets = joined(alloc, parts)?;
    Ok(read_message(alloc, &octets)?)
}

fn relay(question: &Question, message: &Message, out: &mut ReplyBuffer) {
    if message.rcode <= 4095 {
        write_relay(question, message, out);
    }
}

#[test]
fn all_records_go_to_a_client_with_do(rt: HostRuntime) -> Result<(), Fail> {
    let alloc = rt.alloc();
    let message = read(alloc, &MESSAGE)?;
    let mut out = ReplyBuffer::new();
    relay(&question_for(ASKED, 15, Some(WITH_DO))?, &message, &mut out);
    let head = b"\x12\x34\x81\xa0\0\x01\0\x02\0\x02\0\x02".as_slice();
    let wanted = joined(
        alloc,
        &[head, ASKED, MX, MX_RRSIG, NSEC, NSEC_RRSIG, A, OPT_WITH_DO],
    )?;
    assert!(rt; out.as_slice() == wanted.as_slice(), "{:?}", out.as_slice());
    Ok(())
}

#[test]
fn no_proof_goes_to_a_client_without_do(rt: HostRuntime) -> Result<(), Fail> {
    let alloc = rt.alloc();
    let message = read(alloc, &MESSAGE)?;
    let mut out = ReplyBuffer::new();
    relay(&question_for(ASKED, 15, None)?, &message, &mut out);
    let head = b"\x12\x34\x81\x80\0\x01\0\x01\0\0\0\x01".as_slice();
    let wanted = joined(alloc, &[head, ASKED, MX, A])?;
    assert!(rt; out.as_slice() == wanted.as_slice(), "{:?}", out.as_slice());

    relay(
        &question_for(ASKED, 15, Some(WITHOUT_DO))?,
        &message,
        &mut out,
    );
    let head = b"\x12\x34\x81\x80\0\x01\0\x01\0\0\0\x02".as_slice();
    let wanted = joined(alloc, &[head, ASKED, MX, A, OPT])?;
    assert!(rt; out.as_slice() == wanted.as_slice(), "{:?}", out.as_slice());
    Ok(())
}

// A name error with letters in capitals: owners are lowered, data keeps them.
#[test]
fn a_name_error_goes_on(rt: HostRuntime) -> Result<(), Fail> {
    let alloc = rt.alloc();
    let message = read(
        alloc,
        &[
            b"\xab\xcd\x80\x83\0\x01\0\0\0\x02\0\0\x02ml\x07example\0\0\x01\0\x01",
            b"\xc0\x0f\0\x06\0\x01\0\0\x03\x84\0\x1e\x03Ns1\xc0\x0f\x01h\xc0\x0f\0\0\0\x01\0\0\x0e\x10\0\0\x01\x2c\06\xee\x80\0\0\x0e\x10",
            b"\x01B\xc0\x0f\0\x2f\0\x01\0\0\x03\x84\0\x15\x03ns1\x07eXAmple\0\0\x06\x20\0\0\0\0\x03",
        ],
    )?;
    let asked = b"\x02ml\x07example\0\0\x01\0\x01".as_slice();
    let soa =
        b"\x07example\0\0\x06\0\x01\0\0\x03\x84\0\x2c\x03Ns1\x07example\0\x01h\x07example\0\0\0\0\x01\0\0\x0e\x10\0\0\x01\x2c\06\xee\x80\0\0\x0e\x10".as_slice();
    let nsec =
        b"\x01b\x07example\0\0\x2f\0\x01\0\0\x03\x84\0\x15\x03ns1\x07eXAmple\0\0\x06\x20\0\0\0\0\x03".as_slice();
    let mut out = ReplyBuffer::new();
    relay(&question_for(asked, 1, Some(WITH_DO))?, &message, &mut out);
    let head = b"\x12\x34\x81\x83\0\x01\0\0\0\x02\0\x01".as_slice();
    let wanted = joined(alloc, &[head, asked, soa, nsec, OPT_WITH_DO])?;
    assert!(rt; out.as_slice() == wanted.as_slice(), "{:?}", out.as_slice());
    Ok(())
}

// The first type for which the relay begins otherwise.
fn first_wrong_head(message: &Message, cases: &[(u16, &[u8])]) -> Result<Option<u16>, Fail> {
    let mut out = ReplyBuffer::new();
    for (qtype, head) in cases {
        relay(&question_for(ASKED, *qtype, None)?, message, &mut out);
        if !out.as_slice().starts_with(head) {
            return Ok(Some(*qtype));
        }
    }
    Ok(None)
}

#[test]
fn proofs_go_to_a_client_that_asked_for_them(rt: HostRuntime) -> Result<(), Fail> {
    let message = read(rt.alloc(), &MESSAGE)?;
    // the type asked, the header with the numbers of the records
    let cases = [
        (15_u16, b"\x12\x34\x81\x80\0\x01\0\x01\0\0\0\x01".as_slice()),
        (46, b"\x12\x34\x81\x80\0\x01\0\x02\0\x01\0\x01"),
        (47, b"\x12\x34\x81\x80\0\x01\0\x01\0\x01\0\x01"),
        (50, b"\x12\x34\x81\x80\0\x01\0\x01\0\0\0\x01"),
        (255, b"\x12\x34\x81\x80\0\x01\0\x02\0\x02\0\x01"),
        // OPT goes to nobody
        (41, b"\x12\x34\x81\x80\0\x01\0\x01\0\0\0\x01"),
    ];
    let wrong = first_wrong_head(&message, &cases)?;
    assert!(rt; wrong.is_none(), "{wrong:?}");
    Ok(())
}

type Flags = (
    u16,
    u16,
    bool,
    bool,
    bool,
    Option<bool>,
    &'static [u8],
    &'static [u8],
);

// Relays an answer without records, with these flags and this RCODE.
fn relay_bare(message: &mut Message, case: &Flags, out: &mut ReplyBuffer) -> Result<(), Fail> {
    let (flags, rcode, rd, ad, cd, dnssec, _, _) = *case;
    message.flags = HeaderFlags::of(flags);
    message.rcode = rcode;
    let edns = match dnssec {
        Some(dnssec) => Some(Edns { size: 512, dnssec }),
        None => None,
    };
    let mut question = question_for(ASKED, 15, edns)?;
    question.rd = rd;
    question.ad = ad;
    question.cd = cd;
    relay(&question, message, out);
    Ok(())
}

fn first_wrong_flags(alloc: Global, cases: &[Flags]) -> Result<Option<usize>, Fail> {
    let head = b"\0\x07\x81\xa0\0\x01\0\0\0\0\0\0".as_slice();
    let mut message = read(alloc, &[head, ASKED])?;
    let mut out = ReplyBuffer::new();
    for (i, case) in cases.iter().enumerate() {
        relay_bare(&mut message, case, &mut out)?;
        let counts = [0, 1, 0, 0, 0, 0, 0, u8::from(case.5.is_some())];
        let wanted = joined(alloc, &[b"\x12\x34", case.6, &counts, ASKED, case.7])?;
        if out.as_slice() != wanted.as_slice() {
            return Ok(Some(i));
        }
    }
    Ok(None)
}

// The message's flags and RCODE; the client's RD, AD, CD, and DO where it has OPT; the reply's flags and OPT.
const FLAGS: [Flags; 12] = [
    (0x8020, 0, false, false, false, None, b"\x80\x80", b""),
    (0x8020, 0, true, true, false, None, b"\x81\xa0", b""),
    (
        0x8020,
        3,
        true,
        false,
        true,
        Some(true),
        b"\x81\xb3",
        OPT_WITH_DO,
    ),
    (0x8020, 0, true, false, false, Some(false), b"\x81\x80", OPT),
    // without the message's AD
    (0x8000, 2, true, true, false, None, b"\x81\x82", b""),
    // AA, RD, Z and CD of the message go nowhere, nor does its opcode
    (0xfd50, 0, false, true, false, None, b"\x80\x80", b""),
    (0xfd70, 0, false, true, false, None, b"\x80\xa0", b""),
    (0x8000, 15, false, false, false, None, b"\x80\x8f", b""),
    // an RCODE of more than four bits
    (0x8000, 16, false, false, false, None, b"\x80\x82", b""),
    (
        0x8000,
        23,
        false,
        false,
        false,
        Some(false),
        b"\x80\x87",
        b"\0\0\x29\x04\xd0\x01\0\0\0\0\0",
    ),
    (
        0x8000,
        4095,
        false,
        false,
        false,
        Some(true),
        b"\x80\x8f",
        b"\0\0\x29\x04\xd0\xff\0\x80\0\0\0",
    ),
    // a message that came truncated
    (0x8220, 3, true, true, false, None, b"\x83\xa3", b""),
];

#[test]
fn the_flags_and_the_rcode(rt: HostRuntime) -> Result<(), Fail> {
    let wrong = first_wrong_flags(rt.alloc(), &FLAGS)?;
    assert!(rt; wrong.is_none(), "{wrong:?}");
    Ok(())
}

// A message of one TXT record of the root, with so many octets of data.
fn long_message(alloc: Global, data: usize) -> Result<Vec<u8>, OutOfMemory> {
    let size = [(data / 256 % 256) as u8, (data % 256) as u8];
    let head = b"\0\x07\x81\x80\0\x01\0\x01\0\0\0\0\0\0\x10\0\x01".as_slice();
    let mut octets = joined(alloc, &[head, b"\0\0\x10\0\x01\0\0\x01\x2c", &size])?;
    octets.resize(28 + data % 0x1_0000, 120)?;
    Ok(octets)
}

// Relays the message of one TXT record to a client without DO, whose OPT has that size.
fn relay_long(
    alloc: Global,
    size: Option<u16>,
    data: usize,
    out: &mut ReplyBuffer,
) -> Result<(), Fail> {
    let message = read_message(alloc, &long_message(alloc, data)?)?;
    let edns = match size {
        Some(size) => Some(Edns {
            size,
            dnssec: false,
        }),
        None => None,
    };
    relay(&question_for(b"\0\0\x10\0\x01", 16, edns)?, &message, out);
    Ok(())
}

// The first case whose relay has another size, or another header, and its size.
fn first_wrong_size(
    alloc: Global,
    cases: &[(Option<u16>, usize, usize)],
) -> Result<Option<(usize, usize)>, Fail> {
    let mut out = ReplyBuffer::new();
    for (i, (size, data, length)) in cases.iter().enumerate() {
        relay_long(alloc, *size, *data, &mut out)?;
        let head = if *length < 30 {
            b"\x12\x34\x83\x80\0\x01\0\0\0\0".as_slice()
        } else {
            b"\x12\x34\x81\x80\0\x01\0\x01\0\0".as_slice()
        };
        let found = out.as_slice().len();
        if found != *length || !out.as_slice().starts_with(head) {
            return Ok(Some((i, found)));
        }
    }
    Ok(None)
}

#[test]
fn a_relay_over_the_limit_is_truncated(rt: HostRuntime) -> Result<(), Fail> {
    // the client's OPT size, the octets of the TXT record's data, those of the reply
    let cases: [(Option<u16>, usize, usize); 7] = [
        (None, 484, 512),
        (None, 485, 17),
        (Some(4096), 1193, 1232),
        (Some(4096), 1194, 28),
        (Some(1231), 1193, 28),
        // less than 512 counts as 512
        (Some(0), 473, 512),
        (Some(0), 474, 28),
    ];
    let wrong = first_wrong_size(rt.alloc(), &cases)?;
    assert!(rt; wrong.is_none(), "{wrong:?}");
    Ok(())
}

// The limit, the client's OPT size, the message's flags, the octets of the TXT record's data, those of the reply.
type LongCase = (usize, Option<u16>, u16, usize, usize);

// Relays the message of one TXT record, with these flags, to a client without DO.
fn relay_within(alloc: Global, case: &LongCase, out: &mut LongReplyBuffer) -> Result<(), Fail> {
    let (limit, size, flags, data, _) = *case;
    let mut message = read_message(alloc, &long_message(alloc, data)?)?;
    message.flags = HeaderFlags::of(flags);
    let edns = match size {
        Some(size) => Some(Edns {
            size,
            dnssec: false,
        }),
        None => None,
    };
    let question = question_for(b"\0\0\x10\0\x01", 16, edns)?;
    if message.rcode <= 4095 {
        write_relay_within(limit.clamp(512, MAX_LONG_REPLY), &question, &message, out);
    }
    Ok(())
}

// The first case whose relay has another size, or another header, and its size.
fn first_wrong_limit(alloc: Global, cases: &[LongCase]) -> Result<Option<(usize, usize)>, Fail> {
    let mut out = LongReplyBuffer::new();
    for (i, case) in cases.iter().enumerate() {
        relay_within(alloc, case, &mut out)?;
        let head = if case.4 < 30 {
            b"\x12\x34\x83\x80\0\x01\0\0\0\0".as_slice()
        } else {
            b"\x12\x34\x81\x80\0\x01\0\x01\0\0".as_slice()
        };
        let found = out.as_slice().len();
        if found != case.4 || !out.as_slice().starts_with(head) {
            return Ok(Some((i, found)));
        }
    }
    Ok(None)
}

#[test]
fn a_relay_is_whole_up_to_its_limit(rt: HostRuntime) -> Result<(), Fail> {
    let cases: [LongCase; 8] = [
        (512, None, 0x8180, 484, 512),
        (512, None, 0x8180, 485, 17),
        (600, Some(512), 0x8180, 561, 600),
        (600, Some(4096), 0x8180, 562, 28),
        // two octets hold a length of 65,535 at most (RFC 1035, section 4.2.2)
        (65_535, Some(512), 0x8180, 65_496, 65_535),
        (65_535, Some(512), 0x8180, 65_497, 28),
        // a message that came truncated stays so (RFC 2181, section 9)
        (65_535, None, 0x8380, 100, 17),
        (65_535, Some(4096), 0x8380, 100, 28),
    ];
    let wrong = first_wrong_limit(rt.alloc(), &cases)?;
    assert!(rt; wrong.is_none(), "{wrong:?}");
    Ok(())
}
