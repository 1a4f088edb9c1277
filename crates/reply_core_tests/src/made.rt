//! What replies are written of, and some of their parts.

use arrayvec::ArrayVec;
use denial_records::{Denial, KeptNsec, KeptSet, Kind, NsecRec, SetRec, TypeSet, Verdict};
use dname::{Name, NameFault, Octets, OctetsList, OutOfMemory};
use dnswire::{Edns, Question};
use std::alloc::Global;
use std::test::Fail;

pub(crate) const EXAMPLE: &[u8] = b"\x07example\0";

pub(crate) const A_EXAMPLE: &[u8] = b"\x01a\x07example\0";

pub(crate) const B_EXAMPLE: &[u8] = b"\x01b\x07example\0";

pub(crate) const ASKED_AT_APEX: &[u8] = b"\x07example\0\0\x10\0\x01";

// Root names, and 1, 3600, 600, 86400, 300.
pub(crate) const SOA: &[u8] = b"\0\0\0\0\0\x01\0\0\x0e\x10\0\0\x02\x58\0\x01\x51\x80\0\0\x01\x2c";

pub(crate) const SOA_SIGNATURE: &[u8] =
    b"\0\x06\x0d\x01\0\0\x0e\x10\x77\x35\x94\0\x35\xa4\xe9\0\0\x01\x07example\0ZZZZ";

// b.example A RRSIG NSEC
const NSEC: &[u8] = b"\x01b\x07example\0\0\x06\x40\0\0\0\0\x03";

const NSEC_SIGNATURE: &[u8] =
    b"\0\x2f\x0d\x02\0\0\x0e\x10\x77\x35\x94\0\x35\xa4\xe9\0\0\x01\x07example\0ZZZZ";

pub(crate) const TYPES: &[u8] = b"\0\x06\x40\0\0\0\0\x03";

// What the sets and the records of a denial are written as, all with a TTL of 300.
pub(crate) const SOA_RECORD: &[u8] =
    b"\x07example\0\0\x06\0\x01\0\0\x01\x2c\0\x16\0\0\0\0\0\x01\0\0\x0e\x10\0\0\x02\x58\0\x01\x51\x80\0\0\x01\x2c";

pub(crate) const SOA_RRSIG: &[u8] =
    b"\x07example\0\0\x2e\0\x01\0\0\x01\x2c\0\x1f\0\x06\x0d\x01\0\0\x0e\x10\x77\x35\x94\0\x35\xa4\xe9\0\0\x01\x07example\0ZZZZ";

pub(crate) const NSEC_RECORD: &[u8] =
    b"\x01a\x07example\0\0\x2f\0\x01\0\0\x01\x2c\0\x13\x01b\x07example\0\0\x06\x40\0\0\0\0\x03";

pub(crate) const NSEC_RRSIG: &[u8] =
    b"\x01a\x07example\0\0\x2e\0\x01\0\0\x01\x2c\0\x1f\0\x2f\x0d\x02\0\0\x0e\x10\x77\x35\x94\0\x35\xa4\xe9\0\0\x01\x07example\0ZZZZ";

pub(crate) const OPT: &[u8] = b"\0\0\x29\x04\xd0\0\0\0\0\0\0";

pub(crate) const OPT_WITH_DO: &[u8] = b"\0\0\x29\x04\xd0\0\0\x80\0\0\0";

pub(crate) fn name(octets: &[u8]) -> Result<Name, NameFault> {
    let (name, _) = Name::read(octets)?;
    Ok(name)
}

// A question for a TXT set.
pub(crate) fn question(asked_octets: &[u8], edns: Option<Edns>) -> Result<Question, Fail> {
    let mut asked = ArrayVec::new();
    asked.try_extend_from_slice(asked_octets)?;
    Ok(Question {
        id: 0x1234,
        rd: true,
        ad: false,
        cd: false,
        name: name(asked_octets)?,
        asked,
        qtype: 16,
        qclass: 1,
        edns,
    })
}

pub(crate) fn list(alloc: Global, item: &[u8]) -> Result<OctetsList, OutOfMemory> {
    let mut list = OctetsList::empty(alloc);
    list.push(Octets::of(alloc, item)?)?;
    Ok(list)
}

pub(crate) fn set(
    alloc: Global,
    rtype: u16,
    item: &[u8],
    signature: &[u8],
) -> Result<KeptSet, Fail> {
    let set = SetRec {
        zone: name(EXAMPLE)?,
        owner: name(EXAMPLE)?,
        rtype,
        life: 3600,
        expiry: 5000,
        items: list(alloc, item)?,
        signatures: list(alloc, signature)?,
    };
    Ok(KeptSet::of(alloc, &set)?)
}

pub(crate) fn nsec(alloc: Global) -> Result<KeptNsec, Fail> {
    let nsec = NsecRec {
        zone: name(EXAMPLE)?,
        owner: name(A_EXAMPLE)?,
        next: name(B_EXAMPLE)?,
        types: TypeSet::read(alloc, TYPES)?,
        life: 3600,
        expiry: 5000,
        image: Octets::of(alloc, NSEC)?,
        signatures: list(alloc, NSEC_SIGNATURE)?,
    };
    Ok(KeptNsec::of(alloc, &nsec)?)
}

pub(crate) fn verdict<'a>(
    kind: Kind,
    soa: Option<&'a KeptSet>,
    first: Option<Denial<'a>>,
) -> Verdict<'a> {
    Verdict {
        kind,
        answer_set: None,
        soa,
        first,
        second: None,
        third: None,
        ttl: 300,
    }
}

pub(crate) fn joined(alloc: Global, parts: &[&[u8]]) -> Result<Vec<u8>, OutOfMemory> {
    let mut octets = Vec::new(alloc);
    for part in parts {
        octets.extend_from_slice(part)?;
    }
    Ok(octets)
}

pub(crate) const TRUNCATED: &[u8] = b"\x12\x34\x83\x80\0\x01\0\0\0\0\0\0\x07example\0\0\x10\0\x01";

const TRUNCATED_WITH_OPT: &[u8] =
    b"\x12\x34\x83\x80\0\x01\0\0\0\0\0\x01\x07example\0\0\x10\0\x01\0\0\x29\x04\xd0\0\0\0\0\0\0";

// The reply of one TXT record at the apex, with this data.
pub(crate) fn whole_reply(
    alloc: Global,
    data: &[u8],
    with_opt: bool,
) -> Result<Vec<u8>, OutOfMemory> {
    let size = [(data.len() / 256 % 256) as u8, (data.len() % 256) as u8];
    let counts = [0, 1, 0, 1, 0, 0, 0, u8::from(with_opt)];
    let record = b"\x07example\0\0\x10\0\x01\0\0\x01\x2c".as_slice();
    let opt = if with_opt { OPT } else { &[] };
    joined(
        alloc,
        &[
            b"\x12\x34\x81\x80",
            &counts,
            ASKED_AT_APEX,
            record,
            &size,
            data,
            opt,
        ],
    )
}

// The octets of that many: the truncated reply, with OPT or without, or else the whole one.
pub(crate) fn is_reply(octets: &[u8], length: usize, whole: &[u8]) -> bool {
    match length {
        25 => octets == TRUNCATED,
        36 => octets == TRUNCATED_WITH_OPT,
        _ => octets == whole,
    }
}
