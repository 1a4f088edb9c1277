use crate::pieces::{joined, push_label, push_long};
use dname::OutOfMemory;
use dnswire::{Edns, Head, QueryRead, Question, read_query};
use std::alloc::Global;
use std::test::Fail;

// What octets are read as; of a question the table tells what its OPT record says.
#[derive(Clone, Copy, Debug, PartialEq, Eq)]
enum Outcome {
    Dropped,
    NotImp(Head),
    FormErr(Head),
    BadVers,
    Query(Option<Edns>),
}

fn outcome_of(read: QueryRead) -> Outcome {
    match read {
        QueryRead::Dropped => Outcome::Dropped,
        QueryRead::NotImp(head) => Outcome::NotImp(head),
        QueryRead::FormErr(head) => Outcome::FormErr(head),
        QueryRead::BadVers(_) => Outcome::BadVers,
        QueryRead::Query(question) => Outcome::Query(question.edns),
    }
}

const NOTIFY: Outcome = Outcome::NotImp(Head {
    id: 0xabcd,
    opcode: 4,
    rd: true,
    cd: false,
});

const EMPTY: Outcome = Outcome::FormErr(Head {
    id: 0xabcd,
    opcode: 0,
    rd: true,
    cd: false,
});

const EMPTY_CD: Outcome = Outcome::FormErr(Head {
    id: 0xabcd,
    opcode: 0,
    rd: false,
    cd: true,
});

const FAULT: Outcome = Outcome::FormErr(Head {
    id: 0x1234,
    opcode: 0,
    rd: true,
    cd: false,
});

const NO_EDNS: Outcome = Outcome::Query(None);

const SIZE_512: Outcome = Outcome::Query(Some(Edns {
    size: 512,
    dnssec: false,
}));

const SIZE_513: Outcome = Outcome::Query(Some(Edns {
    size: 513,
    dnssec: false,
}));

const SIZE_1232: Outcome = Outcome::Query(Some(Edns {
    size: 1232,
    dnssec: false,
}));

const SIZE_1232_DO: Outcome = Outcome::Query(Some(Edns {
    size: 1232,
    dnssec: true,
}));

const READS: [(&[u8], Outcome); 36] = [
    // Fewer than 12 octets, and responses, the second with another opcode.
    (b"", Outcome::Dropped),
    (
        b"\xab\xcd\x01\x00\x00\x00\x00\x00\x00\x00\x00",
        Outcome::Dropped,
    ),
    (
        b"\xab\xcd\x81\x00\x00\x00\x00\x00\x00\x00\x00\x00",
        Outcome::Dropped,
    ),
    (
        b"\xab\xcd\xa1\x00\x00\x00\x00\x00\x00\x00\x00\x00",
        Outcome::Dropped,
    ),
    (
        b"\x12\x34\x81\x00\x00\x01\x00\x00\x00\x00\x00\x00\x07example\x00\x00\x01\x00\x01",
        Outcome::Dropped,
    ),
    // Another opcode, with or without a question.
    (b"\xab\xcd\x21\x00\x00\x00\x00\x00\x00\x00\x00\x00", NOTIFY),
    (
        b"\xab\xcd\x21\x00\x00\x01\x00\x00\x00\x00\x00\x00\x07example\x00\x00\x01\x00\x01",
        NOTIFY,
    ),
    // No question by the header, and with CD.
    (b"\xab\xcd\x01\x00\x00\x00\x00\x00\x00\x00\x00\x00", EMPTY),
    (
        b"\xab\xcd\x00\x10\x00\x00\x00\x00\x00\x00\x00\x00",
        EMPTY_CD,
    ),
    (
        b"\x12\x34\x01\x00\x00\x00\x00\x00\x00\x00\x00\x00\x07example\x00\x00\x01\x00\x01",
        FAULT,
    ),
    // Two questions; no octets of a question; a type that is truncated; a name with a pointer to the root.
    (
        b"\x12\x34\x01\x00\x00\x02\x00\x00\x00\x00\x00\x00\x07example\x00\x00\x01\x00\x01\x07example\x00\x00\x01\x00\x01",
        FAULT,
    ),
    (b"\x12\x34\x01\x00\x00\x01\x00\x00\x00\x00\x00\x00", FAULT),
    (
        b"\x12\x34\x01\x00\x00\x01\x00\x00\x00\x00\x00\x00\x07example\x00\x00\x01\x00",
        FAULT,
    ),
    (
        b"\x12\x34\x01\x00\x00\x01\x00\x00\x00\x00\x00\x00\x01a\xc0\x04\x00\x01\x00\x01",
        FAULT,
    ),
    // Without OPT records: octets after the question; a record whose owner is a pointer.
    (
        b"\x12\x34\x01\x00\x00\x01\x00\x00\x00\x00\x00\x00\x07example\x00\x00\x01\x00\x01",
        NO_EDNS,
    ),
    (
        b"\x12\x34\x01\x00\x00\x01\x00\x00\x00\x00\x00\x00\x07example\x00\x00\x01\x00\x01\xff",
        NO_EDNS,
    ),
    (
        b"\x12\x34\x01\x00\x00\x01\x00\x01\x00\x00\x00\x00\x07example\x00\x00\x01\x00\x01\xc0\x0c\x00\x01\x00\x01\x00\x00\x00\x05\x00\x04\xc0\x00\x02\x01",
        NO_EDNS,
    ),
    // The data of a record isn't read: an A record of one octet.
    (
        b"\x12\x34\x01\x00\x00\x01\x00\x00\x00\x01\x00\x00\x07example\x00\x00\x01\x00\x01\x00\x00\x01\x00\x01\x00\x00\x00\x05\x00\x01\xff",
        NO_EDNS,
    ),
    // An OPT record: with DO; with all other flags, an upper part of the RCODE, and octets after it; its owner a pointer to
    // the root.
    (
        b"\x12\x34\x01\x00\x00\x01\x00\x00\x00\x00\x00\x01\x07example\x00\x00\x01\x00\x01\x00\x00\x29\x04\xd0\x00\x00\x80\x00\x00\x00",
        SIZE_1232_DO,
    ),
    (
        b"\x12\x34\x01\x00\x00\x01\x00\x00\x00\x00\x00\x01\x07example\x00\x00\x01\x00\x01\x00\x00\x29\x04\xd0\x01\x00\x7f\xff\x00\x00\x00",
        SIZE_1232,
    ),
    (
        b"\x12\x34\x01\x00\x00\x01\x00\x00\x00\x00\x00\x01\x07example\x00\x00\x01\x00\x01\xc0\x14\x00\x29\x04\xd0\x00\x00\x00\x00\x00\x00",
        SIZE_1232,
    ),
    // Sizes of 100, 511, 512 and 513 octets.
    (
        b"\x12\x34\x01\x00\x00\x01\x00\x00\x00\x00\x00\x01\x07example\x00\x00\x01\x00\x01\x00\x00\x29\x00\x64\x00\x00\x00\x00\x00\x00",
        SIZE_512,
    ),
    (
        b"\x12\x34\x01\x00\x00\x01\x00\x00\x00\x00\x00\x01\x07example\x00\x00\x01\x00\x01\x00\x00\x29\x01\xff\x00\x00\x00\x00\x00\x00",
        SIZE_512,
    ),
    (
        b"\x12\x34\x01\x00\x00\x01\x00\x00\x00\x00\x00\x01\x07example\x00\x00\x01\x00\x01\x00\x00\x29\x02\x00\x00\x00\x00\x00\x00\x00",
        SIZE_512,
    ),
    (
        b"\x12\x34\x01\x00\x00\x01\x00\x00\x00\x00\x00\x01\x07example\x00\x00\x01\x00\x01\x00\x00\x29\x02\x01\x00\x00\x00\x00\x00\x00",
        SIZE_513,
    ),
    // Version 1, also beside an upper part of the RCODE.
    (
        b"\x12\x34\x01\x00\x00\x01\x00\x00\x00\x00\x00\x01\x07example\x00\x00\x01\x00\x01\x00\x00\x29\x04\xd0\x00\x01\x00\x00\x00\x00",
        Outcome::BadVers,
    ),
    (
        b"\x12\x34\x01\x00\x00\x01\x00\x00\x00\x00\x00\x01\x07example\x00\x00\x01\x00\x01\x00\x00\x29\x04\xd0\x01\x01\x00\x00\x00\x00",
        Outcome::BadVers,
    ),
    // Two OPT records, of version 0 and 1; one with the owner a.; one of version 1 before a record that is truncated.
    (
        b"\x12\x34\x01\x00\x00\x01\x00\x00\x00\x00\x00\x02\x07example\x00\x00\x01\x00\x01\x00\x00\x29\x04\xd0\x00\x00\x00\x00\x00\x00\x00\x00\x29\x04\xd0\x00\x00\x00\x00\x00\x00",
        FAULT,
    ),
    (
        b"\x12\x34\x01\x00\x00\x01\x00\x00\x00\x00\x00\x02\x07example\x00\x00\x01\x00\x01\x00\x00\x29\x04\xd0\x00\x01\x00\x00\x00\x00\x00\x00\x29\x04\xd0\x00\x00\x00\x00\x00\x00",
        FAULT,
    ),
    (
        b"\x12\x34\x01\x00\x00\x01\x00\x00\x00\x00\x00\x01\x07example\x00\x00\x01\x00\x01\x01a\x00\x00\x29\x04\xd0\x00\x00\x00\x00\x00\x00",
        FAULT,
    ),
    (
        b"\x12\x34\x01\x00\x00\x01\x00\x00\x00\x00\x00\x02\x07example\x00\x00\x01\x00\x01\x00\x00\x29\x04\xd0\x00\x01\x00\x00\x00\x00\x00",
        FAULT,
    ),
    // OPT records in the other sections are passed over, whatever they say.
    (
        b"\x12\x34\x01\x00\x00\x01\x00\x01\x00\x00\x00\x00\x07example\x00\x00\x01\x00\x01\x01a\x00\x00\x29\x04\xd0\x00\x00\x00\x00\x00\x00",
        NO_EDNS,
    ),
    (
        b"\x12\x34\x01\x00\x00\x01\x00\x00\x00\x01\x00\x00\x07example\x00\x00\x01\x00\x01\x00\x00\x29\x04\xd0\x00\x01\x00\x00\x00\x00",
        NO_EDNS,
    ),
    (
        b"\x12\x34\x01\x00\x00\x01\x00\x00\x00\x01\x00\x01\x07example\x00\x00\x01\x00\x01\x00\x00\x29\x02\x01\x00\x01\x00\x00\x00\x00\x00\x00\x29\x04\xd0\x00\x00\x00\x00\x00\x00",
        SIZE_1232,
    ),
    // An OPT record after another record of the additional section.
    (
        b"\x12\x34\x01\x00\x00\x01\x00\x00\x00\x00\x00\x02\x07example\x00\x00\x01\x00\x01\xc0\x0c\x00\x01\x00\x01\x00\x00\x00\x05\x00\x04\xc0\x00\x02\x01\x00\x00\x29\x04\xd0\x00\x00\x00\x00\x00\x00",
        SIZE_1232,
    ),
    (
        b"\x12\x34\x01\x00\x00\x01\x00\x00\x00\x00\x00\x02\x07example\x00\x00\x01\x00\x01\x00\x00\x29\x04\xd0\x00\x00\x00\x00\x00\x00\xc0\x0c\x00\x01\x00\x01\x00\x00\x00\x05\x00\x04\xc0\x00\x02\x01",
        SIZE_1232,
    ),
];

// The first octets that are read as something else, and as what.
fn read_otherwise(rows: &[(&[u8], Outcome)]) -> Option<(usize, Outcome)> {
    for (i, (octets, wanted)) in rows.iter().enumerate() {
        let found = outcome_of(read_query(octets));
        if found != *wanted {
            return Some((i, found));
        }
    }
    None
}

#[test]
fn each_is_read_as_it_should_be(rt: HostRuntime) {
    let wrong = read_otherwise(&READS);
    assert!(rt; wrong.is_none(), "{wrong:?}");
}

// The octets of flags, and RD, AD and CD.
const FLAGS: [(&[u8], bool, bool, bool); 5] = [
    (b"\x01\x30", true, true, true),
    (b"\x00\x00", false, false, false),
    (b"\x01\x00", true, false, false),
    (b"\x00\x20", false, true, false),
    (b"\x00\x10", false, false, true),
];

// A question in capitals.
const CAPITALS: &[u8] = b"\x07exAMple\x00\x00\x1c\x00\x03";

// The query of that question with these flags, as it is read.
fn asked_with(alloc: Global, flags: &[u8]) -> Result<Option<Question>, OutOfMemory> {
    let octets = joined(
        alloc,
        &[
            b"\x12\x34",
            flags,
            b"\x00\x01\x00\x00\x00\x00\x00\x00",
            CAPITALS,
        ],
    )?;
    match read_query(&octets) {
        QueryRead::Query(question) => Ok(Some(question)),
        _ => Ok(None),
    }
}

// Whether the question has its ID, name, type and class, and the client's own octets.
fn is_that_question(question: &Question, wire: &[u8]) -> bool {
    question.name.wire() == wire
        && question.asked.as_slice() == CAPITALS
        && (question.id, question.qtype, question.qclass) == (0x1234, 28, 3)
}

// The first flags that are read otherwise, and RD, AD and CD as they are read; false before them where another question is
// read.
fn asked_otherwise(
    alloc: Global,
    rows: &[(&[u8], bool, bool, bool)],
) -> Result<Option<(usize, [bool; 4])>, OutOfMemory> {
    for (i, (flags, rd, ad, cd)) in rows.iter().enumerate() {
        let found = match asked_with(alloc, flags)? {
            Some(question) => [
                is_that_question(&question, b"\x07example\x00"),
                question.rd,
                question.ad,
                question.cd,
            ],
            None => [false; 4],
        };
        if found != [true, *rd, *ad, *cd] {
            return Ok(Some((i, found)));
        }
    }
    Ok(None)
}

#[test]
fn what_a_query_asks_is_read(rt: HostRuntime) -> Result<(), Fail> {
    let wrong = asked_otherwise(rt.alloc(), &FLAGS)?;
    assert!(rt; wrong.is_none(), "{wrong:?}");
    Ok(())
}

// A header of four records, a question, and a record for each section: A with its owner by a pointer, NS with a pointer
// in its data, A and OPT.
const WHOLE: &[u8] =
    b"\x12\x34\x01\x00\x00\x01\x00\x01\x00\x01\x00\x02\x07example\x00\x00\x01\x00\x01\xc0\x0c\x00\x01\x00\x01\x00\x00\x00\x05\x00\x04\xc0\x00\x02\x01\xc0\x0c\x00\x02\x00\x01\x00\x00\x00\x05\x00\x05\x02ns\xc0\x0c\x02ns\xc0\x0c\x00\x01\x00\x01\x00\x00\x00\x05\x00\x04\xc0\x00\x02\x02\x00\x00\x29\x04\xd0\x00\x00\x00\x00\x00\x02\x00\x00";

// After how many octets it is truncated where it is first read as something else, and as what.
fn truncated_otherwise(whole: &[u8]) -> Option<(usize, Outcome)> {
    for k in 0..whole.len() {
        let wanted = if k < 12 { Outcome::Dropped } else { FAULT };
        let found = outcome_of(read_query(&whole[..k]));
        if found != wanted {
            return Some((k, found));
        }
    }
    None
}

#[test]
fn a_truncated_query_is_refused(rt: HostRuntime) {
    let whole = outcome_of(read_query(WHOLE));
    assert!(rt; whole == SIZE_1232, "{whole:?}");
    let wrong = truncated_otherwise(WHOLE);
    assert!(rt; wrong.is_none(), "{wrong:?}");
}

// What a query is read as whose name has three labels of 63 octets and one of so many.
fn long_query(alloc: Global, size: u8) -> Result<Outcome, OutOfMemory> {
    let mut message = joined(
        alloc,
        &[b"\x12\x34\x01\x00\x00\x01\x00\x00\x00\x00\x00\x00"],
    )?;
    push_long(&mut message)?;
    push_label(&mut message, size)?;
    message.extend_from_slice(b"\x00\x00\x01\x00\x01")?;
    Ok(outcome_of(read_query(&message)))
}

#[test]
fn a_questions_name_has_at_most_255_octets(rt: HostRuntime) -> Result<(), Fail> {
    let found = (long_query(rt.alloc(), 61)?, long_query(rt.alloc(), 62)?);
    assert!(rt; found == (NO_EDNS, FAULT), "{found:?}");
    Ok(())
}

// What a query is read as that asks for a name of 193 octets, and has a record whose owner is a label of so many before that.
fn long_owner(alloc: Global, size: u8) -> Result<Outcome, OutOfMemory> {
    let mut message = joined(
        alloc,
        &[b"\x12\x34\x01\x00\x00\x01\x00\x00\x00\x01\x00\x00"],
    )?;
    push_long(&mut message)?;
    message.extend_from_slice(b"\x00\x00\x01\x00\x01")?;
    push_label(&mut message, size)?;
    message.extend_from_slice(b"\xc0\x0c\x00\x01\x00\x01\x00\x00\x00\x00\x00\x00")?;
    Ok(outcome_of(read_query(&message)))
}

#[test]
fn an_owner_that_is_passed_over_has_at_most_255_octets(rt: HostRuntime) -> Result<(), Fail> {
    let found = (long_owner(rt.alloc(), 61)?, long_owner(rt.alloc(), 62)?);
    assert!(rt; found == (NO_EDNS, FAULT), "{found:?}");
    Ok(())
}

// A question of the root; then a record whose data, from offset 28 on, is a chain of 20 pointers, the first to the root.
const CHAIN: &[u8] =
    b"\x12\x34\x01\x00\x00\x01\x00\x01\x00\x02\x00\x01\x00\x00\x01\x00\x01\x00\x00\x0a\x00\x01\x00\x00\x00\x00\x00\x28\xc0\x0c\xc0\x1c\xc0\x1e\xc0\x20\xc0\x22\xc0\x24\xc0\x26\xc0\x28\xc0\x2a\xc0\x2c\xc0\x2e\xc0\x30\xc0\x32\xc0\x34\xc0\x36\xc0\x38\xc0\x3a\xc0\x3c\xc0\x3e\xc0\x40";

// Owners of two records of the authority section, and of an OPT record.
const OWNERS: [Owners<'static>; 7] = [
    // The chain's last pointer; then one in its middle, and the last again.
    (b"\xc0\x42", b"\xc0\x30", b"\xc0\x42", SIZE_512),
    // Labels before it.
    (b"\x01a\xc0\x42", b"\x01b\xc0\x44", b"\x00", SIZE_512),
    // An OPT record whose owner isn't the root.
    (b"\x01a\xc0\x42", b"\x00", b"\xc0\x44", FAULT),
    // A pointer to itself, and one that goes on.
    (b"\xc0\x44", b"\x00", b"\x00", FAULT),
    (b"\xc0\x42", b"\xc0\x52", b"\x00", FAULT),
    // A pointer to its own run, behind a pointer that goes back.
    (b"\xc0\x42", b"\x01a\xc0\x50", b"\x00", FAULT),
    (b"\x01a\xc0\x42", b"\x01a\xc0\x42", b"\x00", SIZE_512),
];

type Owners<'a> = (&'a [u8], &'a [u8], &'a [u8], Outcome);

// What the chain is read as with records of these owners.
fn chained(alloc: Global, row: &Owners<'_>) -> Result<Outcome, OutOfMemory> {
    let fields = b"\x00\x01\x00\x01\x00\x00\x00\x00\x00\x00".as_slice();
    let opt = b"\x00\x29\x02\x00\x00\x00\x00\x00\x00\x00".as_slice();
    let octets = joined(alloc, &[CHAIN, row.0, fields, row.1, fields, row.2, opt])?;
    Ok(outcome_of(read_query(&octets)))
}

// The first owners with which it is read as something else, and as what.
fn chained_otherwise(
    alloc: Global,
    rows: &[Owners<'_>],
) -> Result<Option<(usize, Outcome)>, OutOfMemory> {
    for (i, row) in rows.iter().enumerate() {
        let found = chained(alloc, row)?;
        if found != row.3 {
            return Ok(Some((i, found)));
        }
    }
    Ok(None)
}

#[test]
fn a_long_chain_of_pointers_is_read(rt: HostRuntime) -> Result<(), Fail> {
    let wrong = chained_otherwise(rt.alloc(), &OWNERS)?;
    assert!(rt; wrong.is_none(), "{wrong:?}");
    Ok(())
}
