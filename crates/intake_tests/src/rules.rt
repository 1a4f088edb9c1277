//! One record with its RRSIG, and the rule that decides of it.
use crate::draft::{A_EXAMPLE, FLAGS, GOOD, NOW, Part, Row, alone, message};
use crate::told::told;
use std::alloc::{AllocError, Global};
use std::test::Fail;

const KEPT: &str = "a.example. 1 3600 1 1, 0 skipped";

const NOTHING: &str = "nothing to store, 1 groups skipped";

// b.example, with A, RRSIG and NSEC.
const NSEC: Row = Row {
    rtype: 47,
    data: b"\x01b\x07example\x00\x00\x06\x40\x00\x00\x00\x00\x03",
    ..GOOD
};

// SHA-1, no flag, 12 iterations, the salt aabb, the hash of 20 ones, and A.
const NSEC3: Row = Row {
    owner: b"\x200p9mhaveqvm6t7vbl5lop2u3t2rp3tom\x07example\x00",
    rtype: 50,
    data: b"\x01\x00\x00\x0c\x02\xaa\xbb\x14\x01\x01\x01\x01\x01\x01\x01\x01\x01\x01\x01\x01\x01\x01\x01\x01\x01\x01\x01\x01\x00\x01\x40",
    ..GOOD
};

// What of its record is told.
type Rule = (&'static str, Row, &'static str);

// The first rule of whose record something else is told, and what.
fn told_otherwise(
    alloc: Global,
    rules: &[Rule],
) -> Result<Option<(&'static str, String)>, AllocError> {
    for (what, row, wanted) in rules {
        let found = told(alloc, &alone(alloc, FLAGS, *row)?, NOW)?;
        if found.as_str() != *wanted {
            return Ok(Some((*what, found)));
        }
    }
    Ok(None)
}

const TYPES: [Rule; 8] = [
    ("A", GOOD, KEPT),
    ("class 3", Row { class: 3, ..GOOD }, NOTHING),
    ("type 0", Row { rtype: 0, ..GOOD }, NOTHING),
    (
        "RP",
        Row {
            rtype: 17,
            data: b"\x00\x00",
            ..GOOD
        },
        NOTHING,
    ),
    (
        "type 127",
        Row { rtype: 127, ..GOOD },
        "a.example. 127 3600 1 1, 0 skipped",
    ),
    ("type 128", Row { rtype: 128, ..GOOD }, NOTHING),
    ("ANY", Row { rtype: 255, ..GOOD }, NOTHING),
    (
        "type 256",
        Row { rtype: 256, ..GOOD },
        "a.example. 256 3600 1 1, 0 skipped",
    ),
];

#[test]
fn each_rule_decides_of_a_type(rt: HostRuntime) -> Result<(), Fail> {
    let wrong = told_otherwise(rt.alloc(), &TYPES)?;
    assert!(rt; wrong.is_none(), "{wrong:?}");
    Ok(())
}

const ZONES: [Rule; 8] = [
    (
        "another zone",
        Row {
            signer: b"\x05other\x00",
            ..GOOD
        },
        NOTHING,
    ),
    // labels are compared, not octets
    (
        "no label of the owner",
        Row {
            signer: b"\x06xample\x00",
            ..GOOD
        },
        NOTHING,
    ),
    (
        "the root",
        Row {
            signer: b"\x00",
            ..GOOD
        },
        KEPT,
    ),
    (
        "its own apex",
        Row {
            signer: A_EXAMPLE,
            ..GOOD
        },
        KEPT,
    ),
    (
        "a DS",
        Row { rtype: 43, ..GOOD },
        "a.example. 43 3600 1 1, 0 skipped",
    ),
    (
        "a DS at the apex",
        Row {
            rtype: 43,
            signer: A_EXAMPLE,
            ..GOOD
        },
        NOTHING,
    ),
    (
        "NS at the apex",
        Row {
            rtype: 2,
            data: b"\x00",
            signer: A_EXAMPLE,
            ..GOOD
        },
        "a.example. 2 3600 1 1, 0 skipped",
    ),
    (
        "NS below it",
        Row {
            rtype: 2,
            data: b"\x00",
            ..GOOD
        },
        NOTHING,
    ),
];

#[test]
fn each_rule_decides_of_a_zone(rt: HostRuntime) -> Result<(), Fail> {
    let wrong = told_otherwise(rt.alloc(), &ZONES)?;
    assert!(rt; wrong.is_none(), "{wrong:?}");
    Ok(())
}

const LABELS: [Rule; 7] = [
    (
        "more than the owner has",
        Row { labels: 3, ..GOOD },
        NOTHING,
    ),
    (
        "fewer than the zone has",
        Row { labels: 0, ..GOOD },
        NOTHING,
    ),
    (
        "an expansion",
        Row { labels: 1, ..GOOD },
        "*.example. 1 3600 1 1, 0 skipped",
    ),
    // the owner's asterisk isn't counted
    (
        "a wildcard",
        Row {
            owner: b"\x01*\x07example\x00",
            labels: 1,
            ..GOOD
        },
        "*.example. 1 3600 1 1, 0 skipped",
    ),
    // the zone's is
    (
        "a zone that is a wildcard",
        Row {
            owner: b"\x01*\x07example\x00",
            signer: b"\x01*\x07example\x00",
            labels: 1,
            ..GOOD
        },
        NOTHING,
    ),
    (
        "an expanded DS",
        Row {
            rtype: 43,
            labels: 1,
            ..GOOD
        },
        NOTHING,
    ),
    ("an expanded NSEC", Row { labels: 1, ..NSEC }, NOTHING),
];

#[test]
fn each_rule_decides_of_labels(rt: HostRuntime) -> Result<(), Fail> {
    let wrong = told_otherwise(rt.alloc(), &LABELS)?;
    assert!(rt; wrong.is_none(), "{wrong:?}");
    Ok(())
}

const LIVES: [Rule; 5] = [
    (
        "a day",
        Row {
            ttl: 100_000,
            original_ttl: 100_000,
            ..GOOD
        },
        "a.example. 1 86400 1 1, 0 skipped",
    ),
    (
        "three hours",
        Row {
            ttl: 100_000,
            original_ttl: 100_000,
            ..NSEC
        },
        "a.example. 47 10800 1 1, b.example. next, 0 skipped",
    ),
    (
        "the original TTL",
        Row {
            original_ttl: 60,
            ..GOOD
        },
        "a.example. 1 60 1 1, 0 skipped",
    ),
    (
        "an original TTL of 0",
        Row {
            original_ttl: 0,
            ..GOOD
        },
        NOTHING,
    ),
    (
        "the TTL's top bit",
        Row {
            ttl: 0x8000_0e10,
            ..GOOD
        },
        NOTHING,
    ),
];

#[test]
fn each_rule_decides_of_a_life(rt: HostRuntime) -> Result<(), Fail> {
    let wrong = told_otherwise(rt.alloc(), &LIVES)?;
    assert!(rt; wrong.is_none(), "{wrong:?}");
    Ok(())
}

const EXPIRATIONS: [Rule; 5] = [
    (
        "5 seconds ahead",
        Row {
            expiration: NOW + 5,
            ..GOOD
        },
        "a.example. 1 5 1 1, 0 skipped",
    ),
    (
        "now",
        Row {
            expiration: NOW,
            ..GOOD
        },
        NOTHING,
    ),
    (
        "a second ago",
        Row {
            expiration: NOW - 1,
            ..GOOD
        },
        NOTHING,
    ),
    (
        "2^31 - 1 seconds ahead",
        Row {
            expiration: 3_147_483_647,
            ..GOOD
        },
        KEPT,
    ),
    (
        "2^31 seconds ahead",
        Row {
            expiration: 3_147_483_648,
            ..GOOD
        },
        NOTHING,
    ),
];

#[test]
fn each_rule_decides_of_an_expiration(rt: HostRuntime) -> Result<(), Fail> {
    let wrong = told_otherwise(rt.alloc(), &EXPIRATIONS)?;
    assert!(rt; wrong.is_none(), "{wrong:?}");
    Ok(())
}

const DENIALS: [Rule; 8] = [
    (
        "an NSEC",
        NSEC,
        "a.example. 47 3600 1 1, b.example. next, 0 skipped",
    ),
    (
        "its next name in another zone",
        Row {
            data: b"\x01b\x05other\x00\x00\x01\x40",
            ..NSEC
        },
        NOTHING,
    ),
    // its last octet is zero
    (
        "a bitmap that doesn't read",
        Row {
            data: b"\x01b\x07example\x00\x00\x02\x40\x00",
            ..NSEC
        },
        NOTHING,
    ),
    (
        "51 iterations",
        Row {
            data: b"\x01\x00\x00\x33\x00\x14\x01\x01\x01\x01\x01\x01\x01\x01\x01\x01\x01\x01\x01\x01\x01\x01\x01\x01\x01\x01",
            ..NSEC3
        },
        NOTHING,
    ),
    (
        "flags 2",
        Row {
            data: b"\x01\x02\x00\x00\x00\x14\x01\x01\x01\x01\x01\x01\x01\x01\x01\x01\x01\x01\x01\x01\x01\x01\x01\x01\x01\x01",
            ..NSEC3
        },
        NOTHING,
    ),
    (
        "algorithm 2",
        Row {
            data: b"\x02\x00\x00\x00\x00\x14\x01\x01\x01\x01\x01\x01\x01\x01\x01\x01\x01\x01\x01\x01\x01\x01\x01\x01\x01\x01",
            ..NSEC3
        },
        NOTHING,
    ),
    (
        "a hash of 19 octets",
        Row {
            data: b"\x01\x00\x00\x00\x00\x13\x01\x01\x01\x01\x01\x01\x01\x01\x01\x01\x01\x01\x01\x01\x01\x01\x01\x01\x01",
            ..NSEC3
        },
        NOTHING,
    ),
    (
        "Opt-Out, 50 iterations",
        Row {
            data: b"\x01\x01\x00\x32\x00\x14\x01\x01\x01\x01\x01\x01\x01\x01\x01\x01\x01\x01\x01\x01\x01\x01\x01\x01\x01\x01",
            ..NSEC3
        },
        "example. 50 3600 1 1, 50 iterations, opt-out true, 0 skipped",
    ),
];

#[test]
fn each_rule_decides_of_a_denial(rt: HostRuntime) -> Result<(), Fail> {
    let wrong = told_otherwise(rt.alloc(), &DENIALS)?;
    assert!(rt; wrong.is_none(), "{wrong:?}");
    Ok(())
}

const HASHED_OWNERS: [Rule; 5] = [
    (
        "32 digits",
        NSEC3,
        "example. 50 3600 1 1, 12 iterations, opt-out false, 0 skipped",
    ),
    (
        "capitals",
        Row {
            owner: b"\x200P9MHAVEQVM6T7VBL5LOP2U3T2RP3TOM\x07example\x00",
            ..NSEC3
        },
        "example. 50 3600 1 1, 12 iterations, opt-out false, 0 skipped",
    ),
    (
        "a w is no digit",
        Row {
            owner: b"\x20wp9mhaveqvm6t7vbl5lop2u3t2rp3tom\x07example\x00",
            ..NSEC3
        },
        NOTHING,
    ),
    (
        "31 digits",
        Row {
            owner: b"\x1fp9mhaveqvm6t7vbl5lop2u3t2rp3tom\x07example\x00",
            ..NSEC3
        },
        NOTHING,
    ),
    (
        "a name between",
        Row {
            owner: b"\x200p9mhaveqvm6t7vbl5lop2u3t2rp3tom\x01a\x07example\x00",
            labels: 3,
            ..NSEC3
        },
        NOTHING,
    ),
];

#[test]
fn each_rule_decides_of_a_hashed_owner(rt: HostRuntime) -> Result<(), Fail> {
    let wrong = told_otherwise(rt.alloc(), &HASHED_OWNERS)?;
    assert!(rt; wrong.is_none(), "{wrong:?}");
    Ok(())
}

const PAST_THE_WRAP: Row = Row {
    expiration: 4,
    ..GOOD
};

#[test]
fn an_expiration_may_lie_past_the_wrap(rt: HostRuntime) -> Result<(), Fail> {
    let octets = alone(rt.alloc(), FLAGS, PAST_THE_WRAP)?;
    let found = told(rt.alloc(), &octets, 4_294_967_290)?;
    assert!(rt;
        found.as_str() == "a.example. 1 10 1 1, 0 skipped",
        "{found}"
    );
    Ok(())
}

// The SOA of a zone a.example.
const SOA: Row = Row {
    rtype: 6,
    data: b"\x00\x00\x00\x00\x00\x01\x00\x00\x00\x02\x00\x00\x00\x03\x00\x00\x00\x04\x00\x00\x00\x05",
    signer: A_EXAMPLE,
    ..GOOD
};

// Of serial 2.
const OTHER_SOA: Row = Row {
    data: b"\x00\x00\x00\x00\x00\x02\x00\x00\x00\x02\x00\x00\x00\x03\x00\x00\x00\x04\x00\x00\x00\x05",
    ..SOA
};

// What is told of an answer with the SOA, signed, and another after it.
fn told_of_two(alloc: Global, second: Row) -> Result<String, AllocError> {
    let answer = [Part::Rr(SOA), Part::Rrsig(SOA), Part::Rr(second)];
    told(alloc, &message(alloc, FLAGS, &answer, &[], &[])?, NOW)
}

#[test]
fn a_zone_has_one_soa(rt: HostRuntime) -> Result<(), Fail> {
    let found = told_of_two(rt.alloc(), SOA)?;
    assert!(rt;
        found.as_str() == "a.example. 6 3600 1 1, 0 skipped",
        "{found}"
    );
    let found = told_of_two(rt.alloc(), OTHER_SOA)?;
    assert!(rt; found.as_str() == NOTHING, "{found}");
    Ok(())
}
