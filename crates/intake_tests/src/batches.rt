use crate::draft::{EXAMPLE, FLAGS, GOOD, NOW, Part, Row, alone, message};
use crate::told::told;
use std::alloc::{AllocError, Global};
use std::test::Fail;

const NOTHING: &str = "nothing to store, 1 groups skipped";

// The flags of a header, and what is told of the answer.
const HEADERS: [(u16, &str); 7] = [
    (FLAGS, "a.example. 1 3600 1 1, 0 skipped"),
    // QR clear
    (0x01a0, "not a response to a query"),
    // a notification, and truncated
    (0xa3a0, "not a response to a query"),
    // truncated, and SERVFAIL
    (0x83a2, "the response was cut"),
    // SERVFAIL, and AD clear
    (0x8182, "response code 2"),
    (0x8180, "the response is not authentic"),
    // a name error
    (0x81a3, "a.example. 1 3600 1 1, 0 skipped"),
];

// The first flags with which something else is told, and what.
fn headed_otherwise(
    alloc: Global,
    rows: &[(u16, &str)],
) -> Result<Option<(u16, String)>, AllocError> {
    for (flags, wanted) in rows {
        let found = told(alloc, &alone(alloc, *flags, GOOD)?, NOW)?;
        if found.as_str() != *wanted {
            return Ok(Some((*flags, found)));
        }
    }
    Ok(None)
}

#[test]
fn the_header_is_looked_at_in_order(rt: HostRuntime) -> Result<(), Fail> {
    let wrong = headed_otherwise(rt.alloc(), &HEADERS)?;
    assert!(rt; wrong.is_none(), "{wrong:?}");
    Ok(())
}

// After how many octets an answer is cut, and what is told of it.
const SIZES: [(usize, &str); 4] = [
    (11, "not a message: the message ends early"),
    (12, "not a message: no name at octet 12"),
    (26, "not a message: the message ends early"),
    (28, "not a message: no name at octet 27"),
];

// The first size with which something else is told, and what.
fn cut_otherwise(
    alloc: Global,
    octets: &[u8],
    rows: &[(usize, &str)],
) -> Result<Option<(usize, String)>, AllocError> {
    for (size, wanted) in rows {
        let front = octets.get(..*size).unwrap_or(octets);
        let found = told(alloc, front, NOW)?;
        if found.as_str() != *wanted {
            return Ok(Some((*size, found)));
        }
    }
    Ok(None)
}

#[test]
fn a_cut_answer_is_malformed(rt: HostRuntime) -> Result<(), Fail> {
    let octets = alone(rt.alloc(), FLAGS, GOOD)?;
    let wrong = cut_otherwise(rt.alloc(), &octets, &SIZES)?;
    assert!(rt; wrong.is_none(), "{wrong:?}");
    Ok(())
}

// The OPT record of the root, with RCODE 16.
const OPT: Row = Row {
    owner: b"\x00",
    rtype: 41,
    class: 1232,
    ttl: 0x0100_8000,
    data: b"",
    ..GOOD
};

#[test]
fn an_extended_response_code_is_told(rt: HostRuntime) -> Result<(), Fail> {
    let octets = message(rt.alloc(), FLAGS, &[], &[], &[Part::Rr(OPT)])?;
    let found = told(rt.alloc(), &octets, NOW)?;
    assert!(rt; found.as_str() == "response code 16", "{found}");
    Ok(())
}

// What of the three sections is told.
type Case = (&'static str, [&'static [Part]; 3], &'static str);

// The first case of which something else is told, and what.
fn grouped_otherwise(
    alloc: Global,
    cases: &[Case],
) -> Result<Option<(&'static str, String)>, AllocError> {
    for (what, sections, wanted) in cases {
        let [answer, authority, additional] = *sections;
        let octets = message(alloc, FLAGS, answer, authority, additional)?;
        let found = told(alloc, &octets, NOW)?;
        if found.as_str() != *wanted {
            return Ok(Some((*what, found)));
        }
    }
    Ok(None)
}

const OTHER: Row = Row {
    data: b"\xc0\x00\x02\x02",
    ..GOOD
};

const AAAA: Row = Row { rtype: 28, ..GOOD };

const GROUPS: [Case; 3] = [
    // One group over both sections: three data, one twice, the least TTL that of the repeat; a signature before its
    // records, and twice.
    (
        "one group",
        [
            &[Part::Rrsig(GOOD), Part::Rr(GOOD), Part::Rr(OTHER)],
            &[
                Part::Rr(Row { ttl: 30, ..GOOD }),
                Part::Rr(Row {
                    owner: b"\x01A\x07EXAMPLE\x00",
                    data: b"\xc0\x00\x02\x03",
                    ..GOOD
                }),
                Part::Rrsig(GOOD),
            ],
            &[],
        ],
        "a.example. 1 30 3 1, 0 skipped",
    ),
    // The additional section is left out, and RRSIG records form no group.
    (
        "no group",
        [
            &[Part::Rrsig(OTHER)],
            &[],
            &[Part::Rr(GOOD), Part::Rrsig(GOOD)],
        ],
        "nothing to store, 0 groups skipped",
    ),
    // Groups stand in the order of their first records. Type, class and owner keep them apart.
    (
        "four groups",
        [
            &[
                Part::Rr(AAAA),
                Part::Rr(GOOD),
                Part::Rrsig(GOOD),
                Part::Rr(Row { class: 3, ..GOOD }),
                Part::Rr(Row {
                    owner: EXAMPLE,
                    ..GOOD
                }),
                Part::Rrsig(AAAA),
            ],
            &[],
            &[],
        ],
        "a.example. 28 3600 1 1, a.example. 1 3600 1 1, 2 skipped",
    ),
];

#[test]
fn records_form_groups(rt: HostRuntime) -> Result<(), Fail> {
    let wrong = grouped_otherwise(rt.alloc(), &GROUPS)?;
    assert!(rt; wrong.is_none(), "{wrong:?}");
    Ok(())
}

const CNAME: Row = Row {
    rtype: 5,
    data: b"\x01b\x00",
    ..GOOD
};

const DNAME: Row = Row { rtype: 39, ..CNAME };

const PTR: Row = Row { rtype: 12, ..CNAME };

// Two records, the first of which is signed, and what of them is told.
const PAIRS: [(&str, Row, Row, &str); 4] = [
    ("the same", CNAME, CNAME, "a.example. 5 3600 1 1, 0 skipped"),
    (
        "in case alone",
        CNAME,
        Row {
            data: b"\x01B\x00",
            ..CNAME
        },
        NOTHING,
    ),
    (
        "two DNAME",
        DNAME,
        Row {
            data: b"\x01c\x00",
            ..DNAME
        },
        NOTHING,
    ),
    (
        "two PTR",
        PTR,
        Row {
            data: b"\x01c\x00",
            ..PTR
        },
        "a.example. 12 3600 2 1, 0 skipped",
    ),
];

// The first pair of which something else is told, and what.
fn paired_otherwise(
    alloc: Global,
    rows: &[(&'static str, Row, Row, &'static str)],
) -> Result<Option<(&'static str, String)>, AllocError> {
    for (what, first, second, wanted) in rows {
        let answer = [Part::Rr(*first), Part::Rrsig(*first), Part::Rr(*second)];
        let found = told(alloc, &message(alloc, FLAGS, &answer, &[], &[])?, NOW)?;
        if found.as_str() != *wanted {
            return Ok(Some((*what, found)));
        }
    }
    Ok(None)
}

#[test]
fn some_types_have_one_record(rt: HostRuntime) -> Result<(), Fail> {
    let wrong = paired_otherwise(rt.alloc(), &PAIRS)?;
    assert!(rt; wrong.is_none(), "{wrong:?}");
    Ok(())
}

// Signed records of the types 1000 to 1009, and a second datum of the first, and of the eighth, ninth and tenth.
fn many_groups(alloc: Global) -> Result<Vec<Part>, AllocError> {
    let mut parts = Vec::new(alloc);
    for rtype in 1000..1010 {
        parts.push(Part::Rr(Row { rtype, ..GOOD }))?;
        parts.push(Part::Rrsig(Row { rtype, ..GOOD }))?;
    }
    for rtype in [1000, 1007, 1008, 1009] {
        parts.push(Part::Rr(Row { rtype, ..OTHER }))?;
    }
    Ok(parts)
}

const MANY: &str =
    "a.example. 1000 3600 2 1, a.example. 1001 3600 1 1, a.example. 1002 3600 1 1, a.example. 1003 3600 1 1, a.example. 1004 3600 1 1, a.example. 1005 3600 1 1, a.example. 1006 3600 1 1, a.example. 1007 3600 2 1, a.example. 1008 3600 2 1, a.example. 1009 3600 2 1, 0 skipped";

#[test]
fn more_groups_than_a_few_are_found_again(rt: HostRuntime) -> Result<(), Fail> {
    let alloc = rt.alloc();
    let octets = message(alloc, FLAGS, &many_groups(alloc)?, &[], &[])?;
    let found = told(alloc, &octets, NOW)?;
    assert!(rt; found.as_str() == MANY, "{found}");
    Ok(())
}

// A second signature, and what is told of the record.
const SIGNATURES: [(&str, Row, &str); 8] = [
    (
        "another end",
        Row {
            expiration: NOW + 7,
            ..GOOD
        },
        "a.example. 1 7 1 2, 0 skipped",
    ),
    (
        "another signer",
        Row {
            signer: b"\x00",
            ..GOOD
        },
        NOTHING,
    ),
    ("other labels", Row { labels: 1, ..GOOD }, NOTHING),
    (
        "another original TTL",
        Row {
            original_ttl: 3599,
            ..GOOD
        },
        NOTHING,
    ),
    // these are no signatures of the set
    (
        "expired",
        Row {
            labels: 1,
            expiration: NOW,
            ..GOOD
        },
        "a.example. 1 3600 1 1, 0 skipped",
    ),
    (
        "another class",
        Row {
            labels: 1,
            class: 3,
            ..GOOD
        },
        "a.example. 1 3600 1 1, 0 skipped",
    ),
    (
        "another type",
        Row {
            labels: 1,
            rtype: 28,
            ..GOOD
        },
        "a.example. 1 3600 1 1, 0 skipped",
    ),
    (
        "another owner",
        Row {
            labels: 1,
            owner: EXAMPLE,
            ..GOOD
        },
        "a.example. 1 3600 1 1, 0 skipped",
    ),
];

// The first second signature with which something else is told, and what.
fn signed_otherwise(
    alloc: Global,
    rows: &[(&'static str, Row, &'static str)],
) -> Result<Option<(&'static str, String)>, AllocError> {
    for (what, second, wanted) in rows {
        let answer = [Part::Rr(GOOD), Part::Rrsig(GOOD), Part::Rrsig(*second)];
        let found = told(alloc, &message(alloc, FLAGS, &answer, &[], &[])?, NOW)?;
        if found.as_str() != *wanted {
            return Ok(Some((*what, found)));
        }
    }
    Ok(None)
}

#[test]
fn signatures_have_to_agree(rt: HostRuntime) -> Result<(), Fail> {
    let wrong = signed_otherwise(rt.alloc(), &SIGNATURES)?;
    assert!(rt; wrong.is_none(), "{wrong:?}");
    Ok(())
}

// What unbound 1.17.1 answered on 2026-11-27 to a query with DO for the A records of x.w.example, having validated them. The
// zone example, signed by knotd 3.2, had two A records at *.w.example, and no name after it.
const UNBOUND: &[u8] =
    b"\xe0\x05\x81\xa0\x00\x01\x00\x03\x00\x02\x00\x01\x01x\x01w\x07example\x00\x00\x01\x00\x01\xc0\x0c\x00\x01\x00\x01\x00\x00\x06\xfa\x00\x04\xc0\x00\x02\x03\xc0\x0c\x00\x01\x00\x01\x00\x00\x06\xfa\x00\x04\xc0\x00\x02\x02\xc0\x0c\x00.\x00\x01\x00\x00\x06\xfa\x00[\x00\x01\x0d\x02\x00\x00\x07\x08k\x1b\xbb\x81k\x091i\xb0|\x07example\x00\x15\xae\x93\xfa\xe2s9C\xd7\xddc7!]\xb9i\xf44Q\x1a\xfbwa\x82\xa2w\xce\x88#\xabz\xf4\xa8\xe5\x8f\x81\x92\xe8\x15UD\xeb\x87\xf0bdF\xf5\xcc#|\xe4\x80\xd6d\x8d\x04\xd4iZi\x95\xa6\xed\x01*\xc0\x0e\x00/\x00\x01\x00\x00\x01\x1e\x00\x11\x07example\x00\x00\x06@\x00\x00\x00\x00\x03\xc0\xa4\x00.\x00\x01\x00\x00\x01\x1e\x00[\x00/\x0d\x02\x00\x00\x01,k\x1b\xbb\x81k\x091i\xb0|\x07example\x00\x9b\x93\xae\x89U\x9f\xfb\x12L\xdc+\xa5\xe7\x1f;\x0a\x7f\x0e\x19\xe3\x17RUiK=u\xba\xb6.\x8e?_sOv\x04\xca\x8c\x07\x06\xc6\xfc\xa5Y\x00\xa0\xd5Md\xdc\x83\xdb&y\x90V\x97\x97|\x1e\x87\xe3\x1a\x00\x00)\x04\xd0\x00\x00\x80\x00\x00\x00";

// A moment, and what is told of it then.
const MOMENTS: [(u32, &str); 3] = [
    (
        1_795_770_014,
        "*.w.example. 1 1786 2 1, *.w.example. 47 286 1 1, example. next, 0 skipped",
    ),
    // five seconds before the signatures' end, 2026-12-11 08:59:45
    (
        1_796_979_580,
        "*.w.example. 1 5 2 1, *.w.example. 47 5 1 1, example. next, 0 skipped",
    ),
    (1_796_979_585, "nothing to store, 2 groups skipped"),
];

// The first moment at which something else is told, and what.
fn timed_otherwise(
    alloc: Global,
    rows: &[(u32, &str)],
) -> Result<Option<(u32, String)>, AllocError> {
    for (now, wanted) in rows {
        let found = told(alloc, UNBOUND, *now)?;
        if found.as_str() != *wanted {
            return Ok(Some((*now, found)));
        }
    }
    Ok(None)
}

#[test]
fn a_resolver_s_answer_is_stored(rt: HostRuntime) -> Result<(), Fail> {
    let wrong = timed_otherwise(rt.alloc(), &MOMENTS)?;
    assert!(rt; wrong.is_none(), "{wrong:?}");
    Ok(())
}
