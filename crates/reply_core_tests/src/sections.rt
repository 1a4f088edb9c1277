use crate::made::{
    A_EXAMPLE, B_EXAMPLE, NSEC_RECORD, NSEC_RRSIG, OPT, OPT_WITH_DO, SOA, SOA_RECORD, SOA_RRSIG,
    SOA_SIGNATURE, joined, name, nsec, question, set,
};
use denial_records::{Denial, KeptSet};
use dname::{NameFault, OutOfMemory};
use dnswire::{Edns, Question};
use reply_core::{ReplyBuffer, Sections};
use std::alloc::Global;
use std::test::Fail;

// a.example A IN
const ASKED: &[u8] = b"\x01A\x07Example\0\0\x01\0\x01";

const CNAME_SIGNATURE: &[u8] =
    b"\0\x05\x0d\x02\0\0\x0e\x10\x77\x35\x94\0\x35\xa4\xe9\0\0\x01\x07example\0ZZZZ";

const A_SIGNATURE: &[u8] =
    b"\0\x01\x0d\x02\0\0\x0e\x10\x77\x35\x94\0\x35\xa4\xe9\0\0\x01\x07example\0ZZZZ";

// a.example CNAME b.example, and its signature; the address of b.example, and its signature.
const CNAME: &[u8] = b"\x01a\x07example\0\0\x05\0\x01\0\0\x01\x2c\0\x0b\x01b\x07example\0";

const CNAME_RRSIG: &[u8] =
    b"\x01a\x07example\0\0\x2e\0\x01\0\0\x01\x2c\0\x1f\0\x05\x0d\x02\0\0\x0e\x10\x77\x35\x94\0\x35\xa4\xe9\0\0\x01\x07example\0ZZZZ";

const A: &[u8] = b"\x01b\x07example\0\0\x01\0\x01\0\0\x01\x2c\0\x04\xc0\0\x02\x09";

const A_RRSIG: &[u8] =
    b"\x01b\x07example\0\0\x2e\0\x01\0\0\x01\x2c\0\x1f\0\x01\x0d\x02\0\0\x0e\x10\x77\x35\x94\0\x35\xa4\xe9\0\0\x01\x07example\0ZZZZ";

// DO of the client, where it has OPT, and the parts of the reply.
type Reply<'a> = (Option<bool>, &'a [&'a [u8]]);

fn edns_with(dnssec: Option<bool>) -> Option<Edns> {
    match dnssec {
        Some(dnssec) => Some(Edns { size: 1232, dnssec }),
        None => None,
    }
}

// Whether the buffer has these octets.
fn has(alloc: Global, out: &ReplyBuffer, parts: &[&[u8]]) -> Result<bool, OutOfMemory> {
    let wanted = joined(alloc, parts)?;
    Ok(out.as_slice() == wanted.as_slice())
}

// Answers that a.example is an alias of b.example, and with the address of that.
fn write_address(
    question: &Question,
    alias: &KeptSet,
    address: &KeptSet,
    out: &mut ReplyBuffer,
) -> Result<(), NameFault> {
    let mut sections = Sections::begin(question, 0, 300);
    sections.put_answer(&question.name, Some(alias));
    sections.put_answer(&name(B_EXAMPLE)?, Some(address));
    sections.put_soa(None);
    sections.finish(out);
    Ok(())
}

fn first_wrong_address(alloc: Global, replies: &[Reply<'_>]) -> Result<Option<usize>, Fail> {
    let alias = set(alloc, 5, B_EXAMPLE, CNAME_SIGNATURE)?;
    let address = set(alloc, 1, b"\xc0\0\x02\x09", A_SIGNATURE)?;
    let mut out = ReplyBuffer::new();
    for (i, (dnssec, parts)) in replies.iter().enumerate() {
        let question = question(ASKED, edns_with(*dnssec))?;
        write_address(&question, &alias, &address, &mut out)?;
        if !has(alloc, &out, parts)? {
            return Ok(Some(i));
        }
    }
    Ok(None)
}

#[test]
fn an_alias_and_its_address(rt: HostRuntime) -> Result<(), Fail> {
    let plain = b"\x12\x34\x81\x80\0\x01\0\x02\0\0\0\0".as_slice();
    let with_opt = b"\x12\x34\x81\x80\0\x01\0\x02\0\0\0\x01".as_slice();
    let with_do = b"\x12\x34\x81\xa0\0\x01\0\x04\0\0\0\x01".as_slice();
    let replies: [Reply<'_>; 3] = [
        (None, &[plain, ASKED, CNAME, A]),
        (Some(false), &[with_opt, ASKED, CNAME, A, OPT]),
        (
            Some(true),
            &[with_do, ASKED, CNAME, CNAME_RRSIG, A, A_RRSIG, OPT_WITH_DO],
        ),
    ];
    let wrong = first_wrong_address(rt.alloc(), &replies)?;
    assert!(rt; wrong.is_none(), "{wrong:?}");
    Ok(())
}

// x.d.example A IN
const ASKED_BELOW: &[u8] = b"\x01x\x01d\x07example\0\0\x01\0\x01";

const DNAME_SIGNATURE: &[u8] =
    b"\0\x27\x0d\x02\0\0\x0e\x10\x77\x35\x94\0\x35\xa4\xe9\0\0\x01\x07example\0ZZZZ";

// d.example DNAME a.example, its signature, and the alias that it makes of x.d.example.
const DNAME: &[u8] = b"\x01d\x07example\0\0\x27\0\x01\0\0\x01\x2c\0\x0b\x01a\x07example\0";

const DNAME_RRSIG: &[u8] =
    b"\x01d\x07example\0\0\x2e\0\x01\0\0\x01\x2c\0\x1f\0\x27\x0d\x02\0\0\x0e\x10\x77\x35\x94\0\x35\xa4\xe9\0\0\x01\x07example\0ZZZZ";

const ALIAS: &[u8] =
    b"\x01x\x01d\x07example\0\0\x05\0\x01\0\0\x01\x2c\0\x0d\x01x\x01a\x07example\0";

// Answers that x.d.example is an alias of x.a.example by d.example, and that there is no such name.
fn write_denial(
    question: &Question,
    redirection: &KeptSet,
    soa: &KeptSet,
    denial: &Option<Denial<'_>>,
    out: &mut ReplyBuffer,
) -> Result<(), NameFault> {
    let mut sections = Sections::begin(question, 3, 300);
    sections.put_answer(&name(b"\x01d\x07example\0")?, Some(redirection));
    sections.put_alias(&question.name, &name(b"\x01x\x01a\x07example\0")?);
    sections.put_soa(Some(soa));
    sections.put_denial(denial);
    sections.finish(out);
    Ok(())
}

fn first_wrong_denial(alloc: Global, replies: &[Reply<'_>]) -> Result<Option<usize>, Fail> {
    let redirection = set(alloc, 39, A_EXAMPLE, DNAME_SIGNATURE)?;
    let soa = set(alloc, 6, SOA, SOA_SIGNATURE)?;
    let nsec = nsec(alloc)?;
    let denial = Some(Denial::Nsec(&nsec));
    let mut out = ReplyBuffer::new();
    for (i, (dnssec, parts)) in replies.iter().enumerate() {
        let question = question(ASKED_BELOW, edns_with(*dnssec))?;
        write_denial(&question, &redirection, &soa, &denial, &mut out)?;
        if !has(alloc, &out, parts)? {
            return Ok(Some(i));
        }
    }
    Ok(None)
}

// The alias that is made of a DNAME has no signature (RFC 6672, section 3.1).
#[test]
fn an_alias_that_is_made_and_a_denial(rt: HostRuntime) -> Result<(), Fail> {
    let plain = b"\x12\x34\x81\x83\0\x01\0\x02\0\x01\0\0".as_slice();
    let with_do = b"\x12\x34\x81\xa3\0\x01\0\x03\0\x04\0\x01".as_slice();
    let signed: [&[u8]; 10] = [
        with_do,
        ASKED_BELOW,
        DNAME,
        DNAME_RRSIG,
        ALIAS,
        SOA_RECORD,
        SOA_RRSIG,
        NSEC_RECORD,
        NSEC_RRSIG,
        OPT_WITH_DO,
    ];
    let replies: [Reply<'_>; 2] = [
        (None, &[plain, ASKED_BELOW, DNAME, ALIAS, SOA_RECORD]),
        (Some(true), &signed),
    ];
    let wrong = first_wrong_denial(rt.alloc(), &replies)?;
    assert!(rt; wrong.is_none(), "{wrong:?}");
    Ok(())
}

// The name error for an alias, with a SOA record of this data, to a client without DO.
fn write_long_soa(
    alloc: Global,
    size: Option<u16>,
    data: &[u8],
    out: &mut ReplyBuffer,
) -> Result<(), Fail> {
    let edns = match size {
        Some(size) => Some(Edns {
            size,
            dnssec: false,
        }),
        None => None,
    };
    let question = question(ASKED, edns)?;
    let soa = set(alloc, 6, data, b"")?;
    let mut sections = Sections::begin(&question, 3, 300);
    sections.put_alias(&question.name, &name(B_EXAMPLE)?);
    sections.put_soa(Some(&soa));
    sections.finish(out);
    Ok(())
}

fn whole_reply(alloc: Global, data: &[u8], with_opt: bool) -> Result<Vec<u8>, OutOfMemory> {
    let size = [(data.len() / 256 % 256) as u8, (data.len() % 256) as u8];
    let counts = [0, 1, 0, 1, 0, 1, 0, u8::from(with_opt)];
    let soa = b"\x07example\0\0\x06\0\x01\0\0\x01\x2c".as_slice();
    let opt = if with_opt { OPT } else { &[] };
    joined(
        alloc,
        &[
            b"\x12\x34\x81\x83",
            &counts,
            ASKED,
            CNAME,
            soa,
            &size,
            data,
            opt,
        ],
    )
}

const CUT: &[u8] = b"\x12\x34\x83\x83\0\x01\0\0\0\0\0\0\x01A\x07Example\0\0\x01\0\x01";

const CUT_WITH_OPT: &[u8] =
    b"\x12\x34\x83\x83\0\x01\0\0\0\0\0\x01\x01A\x07Example\0\0\x01\0\x01\0\0\x29\x04\xd0\0\0\0\0\0\0";

// The octets of that many: the reply without records, with OPT or without, or else the whole one.
fn is_reply(octets: &[u8], length: usize, whole: &[u8]) -> bool {
    match length {
        27 => octets == CUT,
        38 => octets == CUT_WITH_OPT,
        _ => octets == whole,
    }
}

// The first case with another reply, and its size.
fn first_wrong_size(
    alloc: Global,
    cases: &[(Option<u16>, usize, usize)],
) -> Result<Option<(usize, usize)>, Fail> {
    let mut out = ReplyBuffer::new();
    for (i, (size, data, length)) in cases.iter().enumerate() {
        let mut item = Vec::new(alloc);
        item.resize(*data, 120)?;
        write_long_soa(alloc, *size, &item, &mut out)?;
        let whole = whole_reply(alloc, &item, size.is_some())?;
        let octets = out.as_slice();
        if octets.len() != *length || !is_reply(octets, *length, &whole) {
            return Ok(Some((i, octets.len())));
        }
    }
    Ok(None)
}

#[test]
fn a_reply_in_parts_over_the_limit_is_cut(rt: HostRuntime) -> Result<(), Fail> {
    // the client's OPT size, the octets of the SOA record's data, those of the reply
    let cases: [(Option<u16>, usize, usize); 6] = [
        (None, 434, 512),
        (None, 435, 27),
        (Some(4096), 1143, 1232),
        (Some(4096), 1144, 38),
        // less than 512 counts as 512
        (Some(0), 423, 512),
        (Some(0), 424, 38),
    ];
    let wrong = first_wrong_size(rt.alloc(), &cases)?;
    assert!(rt; wrong.is_none(), "{wrong:?}");
    Ok(())
}
