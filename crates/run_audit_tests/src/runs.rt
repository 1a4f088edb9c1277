use dname::types::{A_TYPE, SOA_TYPE};
use dname::{Name, NameFault, Octets};
use run_audit::{AuditFault, Clause, Finding, audit};
use std::alloc::Global;
use std::test::Fail;
use zone_index::{ZoneIndex, ZoneRecords};

const APEX: &[u8] = b"\x07example\x00";

const A: &[u8] = b"\x01a\x07example\x00";

// Between a.example and b.example.
const AA: &[u8] = b"\x02aa\x07example\x00";

const B: &[u8] = b"\x01b\x07example\x00";

const ADDRESS: &[u8] = b"\xc0\x00\x02\x01";

const SOA: &[u8] =
    b"\x00\x00\x00\x00\x00\x01\x00\x00\x0e\x10\x00\x00\x02X\x00\x01Q\x80\x00\x00\x01,";

const LATER_SOA: &[u8] =
    b"\x00\x00\x00\x00\x00\x02\x00\x00\x0e\x10\x00\x00\x02X\x00\x01Q\x80\x00\x00\x01,";

// An answer for worker 0 with the SOA and the NSEC from a.example to b.example, which has A alone, and their signatures. Ten
// seconds later a query of worker 0 for A.Example TXT.
const INPUT: &[u8] = b"\
    \x02\x00;\x9a\xca\x00\x00\xd2\
    \x00\x01\x81\xa0\x00\x01\x00\x00\x00\x04\x00\x00\
    \x01a\x07example\x00\x00\x10\x00\x01\
    \x07example\x00\x00\x06\x00\x01\x00\x00\x0e\x10\x00\x16\x00\x00\x00\x00\x00\x01\x00\x00\x0e\x10\x00\x00\x02X\x00\x01Q\x80\x00\x00\x01,\
    \x07example\x00\x00.\x00\x01\x00\x00\x0e\x10\x00\x1f\x00\x06\x0d\x01\x00\x00\x0e\x10w5\x94\x005\xa4\xe9\x00\x00\x01\x07example\x00ZZZZ\
    \x01a\x07example\x00\x00/\x00\x01\x00\x00\x0e\x10\x00\x13\x01b\x07example\x00\x00\x06@\x00\x00\x00\x00\x03\
    \x01a\x07example\x00\x00.\x00\x01\x00\x00\x0e\x10\x00\x1f\x00/\x0d\x02\x00\x00\x0e\x10w5\x94\x005\xa4\xe9\x00\x00\x01\x07example\x00ZZZZ\
    \x01\x00;\x9a\xca\x0a\x00\x1b\
    \x124\x01\x00\x00\x01\x00\x00\x00\x00\x00\x00\
    \x01A\x07Example\x00\x00\x10\x00\x01";

// Version 1 is made, of two records.
const STORED: &[u8] = b"\x03\x00\x00\x00\x00\x01\x00\x04\x00\x02\x00\x00";

// The same, told as version 2.
const STORED_AS_2: &[u8] = b"\x03\x00\x00\x00\x00\x02\x00\x04\x00\x02\x00\x00";

// There is no data, by version 1: the SOA, with its MINIMUM as TTL (RFC 2308, section 5).
const DENIED: &[u8] = b"\
    \x01\x00\x00\x00\x00\x01\x00D\
    \x124\x81\x80\x00\x01\x00\x00\x00\x01\x00\x00\
    \x01A\x07Example\x00\x00\x10\x00\x01\
    \x07example\x00\x00\x06\x00\x01\x00\x00\x01,\
    \x00\x16\x00\x00\x00\x00\x00\x01\x00\x00\x0e\x10\x00\x00\x02X\x00\x01Q\x80\x00\x00\x01,";

// The same, told as by version 2.
const DENIED_BY_2: &[u8] = b"\
    \x01\x00\x00\x00\x00\x02\x00D\
    \x124\x81\x80\x00\x01\x00\x00\x00\x01\x00\x00\
    \x01A\x07Example\x00\x00\x10\x00\x01\
    \x07example\x00\x00\x06\x00\x01\x00\x00\x01,\
    \x00\x16\x00\x00\x00\x00\x00\x01\x00\x00\x0e\x10\x00\x00\x02X\x00\x01Q\x80\x00\x00\x01,";

// The query goes on, by version 0.
const FORWARDED: &[u8] = b"\x02\x00\x00\x00\x00\x00\x00\x00";

// The data of the zone's SOA, whether it has an address at aa.example, the frames of the output, and what is found.
const RUNS: [(&[u8], bool, [&[u8]; 2], Finding); 7] = [
    (SOA, false, [STORED, DENIED], Finding::Yes { replies: 1 }),
    // The NSEC is the second record of the reply, which is of the second frame.
    (
        SOA,
        true,
        [STORED, DENIED],
        Finding::Record { at: 1, used: 1 },
    ),
    (
        LATER_SOA,
        true,
        [STORED, DENIED],
        Finding::Record { at: 1, used: 0 },
    ),
    (
        SOA,
        false,
        [STORED, b""],
        Finding::Unfit {
            clause: Clause::Frames,
        },
    ),
    (
        SOA,
        false,
        [STORED_AS_2, DENIED_BY_2],
        Finding::Unfit {
            clause: Clause::Versions,
        },
    ),
    (
        SOA,
        true,
        [STORED, DENIED_BY_2],
        Finding::Unfit {
            clause: Clause::Outcomes,
        },
    ),
    // Right at version 0, which the worker has left behind.
    (
        SOA,
        false,
        [STORED, FORWARDED],
        Finding::Unfit {
            clause: Clause::Order,
        },
    ),
];

fn name(wire: &[u8]) -> Result<Name, NameFault> {
    let (name, _) = Name::read(wire)?;
    Ok(name)
}

fn zone(alloc: Global, soa: &[u8], more: bool) -> Result<ZoneIndex, Fail> {
    let mut zone = ZoneRecords::at(alloc, name(APEX)?);
    zone.add(name(APEX)?, SOA_TYPE, Octets::of(alloc, soa)?)?;
    for owner in [A, B] {
        zone.add(name(owner)?, A_TYPE, Octets::of(alloc, ADDRESS)?)?;
    }
    if more {
        zone.add(name(AA)?, A_TYPE, Octets::of(alloc, ADDRESS)?)?;
    }
    Ok(zone.index()?)
}

fn audited(
    alloc: Global,
    zone: &ZoneIndex,
    input: &[u8],
    output: &[u8],
) -> Result<Result<Finding, AuditFault>, Fail> {
    if input.len() > 67_108_864 {
        return Err("too long an input")?;
    }
    Ok(audit(alloc, zone, input, output))
}

// Whether this is found of the run.
fn is_found(alloc: Global, row: (&[u8], bool, [&[u8]; 2], Finding)) -> Result<bool, Fail> {
    let (soa, more, outputs, finding) = row;
    let zone = zone(alloc, soa, more)?;
    let mut output = Vec::new(alloc);
    for frame in outputs {
        output.extend_from_slice(frame)?;
    }
    let found = audited(alloc, &zone, INPUT, output.as_slice())?;
    Ok(found == Ok(finding))
}

fn wrong_run(alloc: Global) -> Result<Option<usize>, Fail> {
    for at in 0..RUNS.len() {
        if !is_found(alloc, RUNS[at])? {
            return Ok(Some(at));
        }
    }
    Ok(None)
}

#[test]
fn each_finding_is_told(rt: HostRuntime) -> Result<(), Fail> {
    let wrong = wrong_run(rt.alloc())?;
    assert!(rt; wrong.is_none(), "{wrong:?}");
    Ok(())
}

// Whether the run that stands wrong is refused for that: the input first.
fn are_refused(alloc: Global) -> Result<bool, Fail> {
    let zone = zone(alloc, SOA, false)?;
    let bad_input = audited(alloc, &zone, &INPUT[1..], &DENIED[1..])?;
    let bad_output = audited(alloc, &zone, INPUT, &DENIED[1..])?;
    Ok(bad_input == Err(AuditFault::BadInput) && bad_output == Err(AuditFault::BadOutput))
}

#[test]
fn octets_that_spell_no_frames_are_refused(rt: HostRuntime) -> Result<(), Fail> {
    let refused = are_refused(rt.alloc())?;
    assert!(rt; refused);
    Ok(())
}
