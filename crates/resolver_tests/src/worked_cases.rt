use crate::records::{Hashing, ZONE, name, nsec, nsec3, set};
use denial_records::{Batch, Kind, RecordList, Verdict};
use dname::NameFault;
use record_store::Store;
use resolver::{answer, prove};
use std::alloc::Global;
use std::test::Fail;

const THEN: u32 = 1_000_000_000;

const HOUR: u64 = 1_000_003_600;

const WILDCARD: &[u8] = b"\x01*\x07example\x00";

// NS SOA, A, and NS, each with RRSIG and NSEC.
const APEX: &[u8] = b"\x00\x06\x22\x00\x00\x00\x00\x03";

const HOST: &[u8] = b"\x00\x06\x40\x00\x00\x00\x00\x03";

const CUT: &[u8] = b"\x00\x06\x20\x00\x00\x00\x00\x03";

// NS SOA RRSIG NSEC3PARAM.
const HASHED_APEX: &[u8] = b"\x00\x07\x22\x00\x00\x00\x00\x02\x10";

/// What the held records of a case are of.
#[derive(Clone, Copy, Debug, PartialEq, Eq)]
enum Case {
    /// Two NSEC records, one at the apex and one around a name.
    DeniedByTwo,
    /// One from the apex over a name and the wildcard.
    DeniedByOne,
    /// One whose next name is below a name without records.
    EmptyNonTerminal,
    /// One of a zone cut.
    Cut,
    /// One from the last name to the apex.
    OverTheEnd,
    /// A wildcard's set and its NSEC record.
    Wildcard,
    /// A wildcard that is there by the names below it alone.
    EmptyWildcard,
    /// The one NSEC3 record of a zone of one name.
    OneHashedName,
    /// The same with the Opt-Out flag.
    OptOutSpan,
    /// One that lives for an hour.
    LastSecond,
}

// The NSEC records of each case: owner, next and types.
const NSECS: [(Case, &[u8], &[u8], &[u8]); 11] = [
    (Case::DeniedByTwo, ZONE, b"\x01a\x07example\x00", APEX),
    (
        Case::DeniedByTwo,
        b"\x01c\x07example\x00",
        b"\x01f\x07example\x00",
        HOST,
    ),
    (Case::DeniedByOne, ZONE, b"\x01f\x07example\x00", APEX),
    (
        Case::EmptyNonTerminal,
        b"\x01a\x07example\x00",
        b"\x01z\x01b\x07example\x00",
        HOST,
    ),
    (
        Case::Cut,
        b"\x03sub\x07example\x00",
        b"\x01t\x07example\x00",
        CUT,
    ),
    (Case::OverTheEnd, ZONE, b"\x01a\x07example\x00", APEX),
    (Case::OverTheEnd, b"\x01y\x07example\x00", ZONE, HOST),
    (Case::Wildcard, WILDCARD, b"\x02ns\x07example\x00", HOST),
    (
        Case::EmptyWildcard,
        ZONE,
        b"\x01x\x01*\x07example\x00",
        APEX,
    ),
    (
        Case::EmptyWildcard,
        b"\x01x\x01*\x07example\x00",
        b"\x01f\x07example\x00",
        HOST,
    ),
    (
        Case::LastSecond,
        b"\x01a\x07example\x00",
        b"\x01b\x07example\x00",
        HOST,
    ),
];

// What is asked in each case, when, and what is said: kind, denial records and TTL.
const QUESTIONS: [(Case, &[u8], u16, u32, Option<(Kind, u8, u32)>); 18] = [
    // A name error by two records, and by one that covers the wildcard too.
    (
        Case::DeniedByTwo,
        b"\x01d\x07example\x00",
        1,
        THEN + 10,
        Some((Kind::NxDomain, 2, 300)),
    ),
    (
        Case::DeniedByOne,
        b"\x01d\x07example\x00",
        1,
        THEN + 10,
        Some((Kind::NxDomain, 1, 300)),
    ),
    // An empty non-terminal.
    (
        Case::EmptyNonTerminal,
        b"\x01b\x07example\x00",
        1,
        THEN + 10,
        Some((Kind::NoData, 1, 300)),
    ),
    // A cut speaks for its DS alone, and where nothing is known of the wildcard nothing is proved.
    (
        Case::Cut,
        b"\x01x\x03sub\x07example\x00",
        1,
        THEN + 10,
        None,
    ),
    (Case::Cut, b"\x03sub\x07example\x00", 1, THEN + 10, None),
    (
        Case::Cut,
        b"\x03sub\x07example\x00",
        43,
        THEN + 10,
        Some((Kind::NoData, 1, 300)),
    ),
    (Case::Cut, b"\x03sun\x07example\x00", 1, THEN + 10, None),
    // The last arc goes over the end of the order.
    (
        Case::OverTheEnd,
        b"\x01z\x07example\x00",
        1,
        THEN + 10,
        Some((Kind::NxDomain, 2, 300)),
    ),
    // A wildcard answers, also where no SOA is held; the life is the most that its TTL can be.
    (
        Case::Wildcard,
        b"\x03bar\x07example\x00",
        1,
        THEN + 10,
        Some((Kind::Answer, 1, 3590)),
    ),
    (
        Case::Wildcard,
        b"\x03bar\x07example\x00",
        1,
        THEN - 100,
        Some((Kind::Answer, 1, 3600)),
    ),
    (
        Case::Wildcard,
        b"\x03bar\x07example\x00",
        16,
        THEN + 10,
        None,
    ),
    (
        Case::Wildcard,
        b"\x03bar\x07example\x00",
        43,
        THEN + 10,
        None,
    ),
    // The wildcard is an empty non-terminal.
    (
        Case::EmptyWildcard,
        b"\x01d\x07example\x00",
        1,
        THEN + 10,
        Some((Kind::NoData, 2, 300)),
    ),
    // One NSEC3 record is the chain of a zone of one name; in an Opt-Out span no name is denied.
    (
        Case::OneHashedName,
        b"\x02zz\x07example\x00",
        1,
        THEN + 10,
        Some((Kind::NxDomain, 1, 300)),
    ),
    (
        Case::OptOutSpan,
        b"\x02zz\x07example\x00",
        1,
        THEN + 10,
        None,
    ),
    (
        Case::OptOutSpan,
        ZONE,
        16,
        THEN + 10,
        Some((Kind::NoData, 1, 300)),
    ),
    // The last second, and the first without a proof.
    (
        Case::LastSecond,
        b"\x01a\x07example\x00",
        16,
        THEN + 3599,
        Some((Kind::NoData, 1, 1)),
    ),
    (
        Case::LastSecond,
        b"\x01a\x07example\x00",
        16,
        THEN + 3600,
        None,
    ),
];

// The records of a case, which came at the one moment and live for an hour.
fn records_of(alloc: Global, case: Case) -> Result<RecordList, Fail> {
    let mut records = RecordList::empty(alloc);
    if case == Case::Wildcard {
        records.push(set(alloc, WILDCARD, 1, 3600, HOUR)?)?;
    } else {
        records.push(set(alloc, ZONE, 6, 3600, HOUR)?)?;
    }
    if case == Case::OneHashedName || case == Case::OptOutSpan {
        let hashing = Hashing {
            salt: b"\xAA\xBB\xCC\xDD",
            iterations: 12,
            opt_out: case == Case::OptOutSpan,
        };
        records.push(nsec3(alloc, ZONE, ZONE, HASHED_APEX, hashing, 3600, HOUR)?)?;
    }
    for (of, owner, next, types) in NSECS {
        if of == case {
            records.push(nsec(alloc, owner, next, types, 3600, HOUR)?)?;
        }
    }
    Ok(records)
}

fn held_in(alloc: Global, case: Case) -> Result<Store, Fail> {
    let batch = Batch {
        now: THEN,
        records: records_of(alloc, case)?,
    };
    Ok(Store::empty(alloc)?.with_batch(alloc, &batch)?)
}

fn denials(verdict: &Verdict<'_>) -> u8 {
    u8::from(verdict.first.is_some())
        + u8::from(verdict.second.is_some())
        + u8::from(verdict.third.is_some())
}

fn said(
    store: &Store,
    wire: &[u8],
    qtype: u16,
    now: u32,
) -> Result<Option<(Kind, u8, u32)>, NameFault> {
    Ok(prove(store, &name(wire)?, qtype, now).map(|verdict| (
        verdict.kind,
        denials(&verdict),
        verdict.ttl,
    )))
}

type Said = Option<(Kind, u8, u32)>;

// The first question of which something else is said, and what.
fn first_wrong(
    alloc: Global,
    rows: &[(Case, &[u8], u16, u32, Said)],
) -> Result<Option<(usize, Said)>, Fail> {
    for (i, (case, wire, qtype, now, expected)) in rows.iter().enumerate() {
        let found = said(&held_in(alloc, *case)?, wire, *qtype, *now)?;
        if found != *expected {
            return Ok(Some((i, found)));
        }
    }
    Ok(None)
}

#[test]
fn each_case_is_proved_as_worked_out(rt: HostRuntime) -> Result<(), Fail> {
    let wrong = first_wrong(rt.alloc(), &QUESTIONS)?;
    assert!(rt; wrong.is_none(), "{wrong:?}");
    Ok(())
}

// A type and a class, and whether the host's proof answers.
const ASKED: [(u16, u16, bool); 8] = [
    (16, 1, true),
    (16, 0, false),
    (16, 3, false),
    (16, 255, false),
    (47, 1, false),
    (50, 1, false),
    (255, 1, false),
    (256, 1, true),
];

#[test]
fn what_is_never_answered_is_forwarded(rt: HostRuntime) -> Result<(), Fail> {
    let store = held_in(rt.alloc(), Case::LastSecond)?;
    let host = name(b"\x01a\x07example\x00")?;
    for (qtype, qclass, expected) in ASKED {
        let answered = answer(&store, &host, qtype, qclass, THEN + 10).is_some();
        assert!(rt; answered == expected, "{qtype} {qclass}");
    }
    Ok(())
}
