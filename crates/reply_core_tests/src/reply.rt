use crate::made::{
    ASKED_AT_APEX, EXAMPLE, NSEC_RECORD, NSEC_RRSIG, OPT, OPT_WITH_DO, SOA, SOA_RECORD, SOA_RRSIG,
    SOA_SIGNATURE, TYPES, is_reply, joined, list, name, nsec, question, set, verdict, whole_reply,
};
use denial_records::{Denial, HASH_OCTETS, KeptNsec3, Kind, Nsec3Rec, TypeSet};
use dname::Octets;
use dnswire::Edns;
use reply_core::{ReplyBuffer, write_reply};
use std::alloc::Global;
use std::test::Fail;

const ASKED: &[u8] = b"\x01A\x07Example\0\0\x10\0\x01";

// Of that owner, which is its own next one.
fn nsec3(alloc: Global, hash: [u8; HASH_OCTETS]) -> Result<KeptNsec3, Fail> {
    let nsec3 = Nsec3Rec {
        zone: name(EXAMPLE)?,
        hash,
        next: hash,
        salt: Octets::of(alloc, b"")?,
        iterations: 0,
        opt_out: false,
        types: TypeSet::read(alloc, TYPES)?,
        life: 3600,
        expiry: 5000,
        image: Octets::of(alloc, b"image")?,
        signatures: list(alloc, b"signature")?,
    };
    Ok(KeptNsec3::of(alloc, &nsec3)?)
}

#[test]
fn the_soa_alone(rt: HostRuntime) -> Result<(), Fail> {
    let soa = set(rt.alloc(), 6, SOA, SOA_SIGNATURE)?;
    let mut out = ReplyBuffer::new();
    write_reply(
        &question(ASKED, None)?,
        &verdict(Kind::NoData, Some(&soa), None),
        &mut out,
    );
    let head = b"\x12\x34\x81\x80\0\x01\0\0\0\x01\0\0".as_slice();
    let wanted = joined(rt.alloc(), &[head, ASKED, SOA_RECORD])?;
    assert!(rt; wanted.len() == 68);
    assert!(rt; out.as_slice() == wanted.as_slice(), "{:?}", out.as_slice());
    Ok(())
}

type Flags = (bool, bool, bool, bool, Kind, &'static [u8]);

// Whether the reply's third and fourth octet are the flags.
fn has_flags(case: &Flags, out: &mut ReplyBuffer) -> Result<bool, Fail> {
    let (rd, ad, cd, dnssec, kind, flags) = *case;
    let mut question = question(ASKED, Some(Edns { size: 512, dnssec }))?;
    question.rd = rd;
    question.ad = ad;
    question.cd = cd;
    write_reply(&question, &verdict(kind, None, None), out);
    Ok(out.as_slice().get(2..4) == Some(flags))
}

fn first_wrong_flags(cases: &[Flags]) -> Result<Option<usize>, Fail> {
    let mut out = ReplyBuffer::new();
    for (i, case) in cases.iter().enumerate() {
        if !has_flags(case, &mut out)? {
            return Ok(Some(i));
        }
    }
    Ok(None)
}

#[test]
fn the_flags(rt: HostRuntime) -> Result<(), Fail> {
    // the query's RD, AD, CD and DO, the verdict, the flags
    let cases: [Flags; 8] = [
        (false, false, false, false, Kind::NoData, b"\x80\x80"),
        (true, false, false, false, Kind::NoData, b"\x81\x80"),
        (false, true, false, false, Kind::NoData, b"\x80\xa0"),
        (false, false, true, false, Kind::NoData, b"\x80\x90"),
        (false, false, false, true, Kind::NoData, b"\x80\xa0"),
        (false, true, false, true, Kind::Answer, b"\x80\xa0"),
        (false, false, false, false, Kind::NxDomain, b"\x80\x83"),
        (true, true, true, true, Kind::NxDomain, b"\x81\xb3"),
    ];
    let wrong = first_wrong_flags(&cases)?;
    assert!(rt; wrong.is_none(), "{wrong:?}");
    Ok(())
}

#[test]
fn the_proof_of_no_data(rt: HostRuntime) -> Result<(), Fail> {
    let soa = set(rt.alloc(), 6, SOA, SOA_SIGNATURE)?;
    let nsec = nsec(rt.alloc())?;
    let verdict = verdict(Kind::NoData, Some(&soa), Some(Denial::Nsec(&nsec)));
    let mut out = ReplyBuffer::new();

    let with_do = Edns {
        size: 1232,
        dnssec: true,
    };
    write_reply(&question(ASKED, Some(with_do))?, &verdict, &mut out);
    let head = b"\x12\x34\x81\xa0\0\x01\0\0\0\x04\0\x01".as_slice();
    let wanted = joined(
        rt.alloc(),
        &[
            head,
            ASKED,
            SOA_RECORD,
            SOA_RRSIG,
            NSEC_RECORD,
            NSEC_RRSIG,
            OPT_WITH_DO,
        ],
    )?;
    assert!(rt; wanted.len() == 221);
    assert!(rt; out.as_slice() == wanted.as_slice(), "{:?}", out.as_slice());

    // without DO the SOA record alone
    let without_do = Edns {
        size: 1232,
        dnssec: false,
    };
    write_reply(&question(ASKED, Some(without_do))?, &verdict, &mut out);
    let head = b"\x12\x34\x81\x80\0\x01\0\0\0\x01\0\x01".as_slice();
    let wanted = joined(rt.alloc(), &[head, ASKED, SOA_RECORD, OPT])?;
    assert!(rt; out.as_slice() == wanted.as_slice(), "{:?}", out.as_slice());
    Ok(())
}

// The hash and its text are of RFC 5155, appendix B.
#[test]
fn the_owner_of_an_nsec3_record(rt: HostRuntime) -> Result<(), Fail> {
    let hash = *b"\x17\x4e\xb2\x40\x9f\xe2\x8b\xcb\x48\x87\xa1\x83\x6f\x95\x7f\x0a\x84\x25\xe2\x7b";
    let nsec3 = nsec3(rt.alloc(), hash)?;
    let edns = Edns {
        size: 0,
        dnssec: true,
    };
    let mut out = ReplyBuffer::new();
    write_reply(
        &question(ASKED, Some(edns))?,
        &verdict(Kind::NxDomain, None, Some(Denial::Nsec3(&nsec3))),
        &mut out,
    );
    let head = b"\x12\x34\x81\xa3\0\x01\0\0\0\x02\0\x01".as_slice();
    let record =
        b"\x202t7b4g4vsa5smi47k61mv5bv1a22bojr\x07example\0\0\x32\0\x01\0\0\x01\x2c\0\x05image".as_slice();
    let rrsig =
        b"\x202t7b4g4vsa5smi47k61mv5bv1a22bojr\x07example\0\0\x2e\0\x01\0\0\x01\x2c\0\x09signature".as_slice();
    let wanted = joined(rt.alloc(), &[head, ASKED, record, rrsig, OPT_WITH_DO])?;
    assert!(rt; out.as_slice() == wanted.as_slice(), "{:?}", out.as_slice());
    Ok(())
}

// An answer's owner is the question's name in lower case; the question keeps its capitals.
#[test]
fn the_owner_of_an_answer(rt: HostRuntime) -> Result<(), Fail> {
    let answer = set(rt.alloc(), 16, b"\x02hi", b"signature")?;
    let mut verdict = verdict(Kind::Answer, None, None);
    verdict.answer_set = Some(&answer);
    let record = b"\x01a\x07example\0\0\x10\0\x01\0\0\x01\x2c\0\x03\x02hi".as_slice();
    let rrsig = b"\x01a\x07example\0\0\x2e\0\x01\0\0\x01\x2c\0\x09signature".as_slice();
    let mut out = ReplyBuffer::new();

    let with_do = Edns {
        size: 1232,
        dnssec: true,
    };
    write_reply(&question(ASKED, Some(with_do))?, &verdict, &mut out);
    let head = b"\x12\x34\x81\xa0\0\x01\0\x02\0\0\0\x01".as_slice();
    let wanted = joined(rt.alloc(), &[head, ASKED, record, rrsig, OPT_WITH_DO])?;
    assert!(rt; out.as_slice() == wanted.as_slice(), "{:?}", out.as_slice());

    write_reply(&question(ASKED, None)?, &verdict, &mut out);
    let head = b"\x12\x34\x81\x80\0\x01\0\x01\0\0\0\0".as_slice();
    let wanted = joined(rt.alloc(), &[head, ASKED, record])?;
    assert!(rt; out.as_slice() == wanted.as_slice(), "{:?}", out.as_slice());
    Ok(())
}

// Answers a client without DO, whose OPT has that size, with a TXT record of that data.
fn answer_with(
    alloc: Global,
    size: Option<u16>,
    item: &[u8],
    out: &mut ReplyBuffer,
) -> Result<(), Fail> {
    let answer = set(alloc, 16, item, b"")?;
    let edns = match size {
        Some(size) => Some(Edns {
            size,
            dnssec: false,
        }),
        None => None,
    };
    let mut verdict = verdict(Kind::Answer, None, None);
    verdict.answer_set = Some(&answer);
    write_reply(&question(ASKED_AT_APEX, edns)?, &verdict, out);
    Ok(())
}

// The first case with another reply, and its size.
fn first_wrong_size(
    alloc: Global,
    cases: &[(Option<u16>, usize, usize)],
) -> Result<Option<(usize, usize)>, Fail> {
    let mut out = ReplyBuffer::new();
    for (i, (size, data, length)) in cases.iter().enumerate() {
        let mut item = Vec::new(alloc);
        item.resize(*data, 120)?;
        answer_with(alloc, *size, &item, &mut out)?;
        let whole = whole_reply(alloc, &item, size.is_some())?;
        let octets = out.as_slice();
        if octets.len() != *length || !is_reply(octets, *length, &whole) {
            return Ok(Some((i, octets.len())));
        }
    }
    Ok(None)
}

#[test]
fn a_reply_over_the_limit_is_truncated(rt: HostRuntime) -> Result<(), Fail> {
    // the client's OPT size, the octets of the TXT record's data, those of the reply
    let cases: [(Option<u16>, usize, usize); 10] = [
        (None, 468, 512),
        (None, 469, 25),
        (Some(4096), 1177, 1232),
        (Some(4096), 1178, 36),
        (Some(1232), 1177, 1232),
        (Some(1231), 1177, 36),
        (Some(1000), 945, 1000),
        (Some(1000), 946, 36),
        // less than 512 counts as 512
        (Some(0), 457, 512),
        (Some(0), 458, 36),
    ];
    let wrong = first_wrong_size(rt.alloc(), &cases)?;
    assert!(rt; wrong.is_none(), "{wrong:?}");
    Ok(())
}

#[test]
fn a_truncated_reply_keeps_its_rcode(rt: HostRuntime) -> Result<(), Fail> {
    let mut item = Vec::new(rt.alloc());
    item.resize(1300, 0)?;
    let soa = set(rt.alloc(), 6, &item, b"")?;
    let mut out = ReplyBuffer::new();
    write_reply(
        &question(ASKED_AT_APEX, None)?,
        &verdict(Kind::NxDomain, Some(&soa), None),
        &mut out,
    );
    let wanted = b"\x12\x34\x83\x83\0\x01\0\0\0\0\0\0\x07example\0\0\x10\0\x01".as_slice();
    assert!(rt; out.as_slice() == wanted, "{:?}", out.as_slice());
    Ok(())
}
