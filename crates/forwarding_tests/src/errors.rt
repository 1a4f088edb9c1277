//! Extended errors of the upstream (RFC 8914) go on to clients that have an OPT record.
use crate::messages::{ASKED, FAILED, QUERY, THEN};
use crate::parties::{CLIENT, OTHER, SLOT, TO_CLIENT, TO_OTHER, UPSTREAM};
use crate::row::{Row, first_wrong_row};
use std::test::Fail;

/// SERVFAIL with the extended error "DNSSEC Bogus" (6).
const BOGUS: &[u8] = b"\
    \x00\x07\x81\x82\x00\x01\x00\x00\x00\x00\x00\x01\
    \x01d\x07example\x00\x00\x01\x00\x01\
    \x00\x00)\x04\xd0\x00\x00\x00\x00\x00\x06\x00\x0f\x00\x02\x00\x06";

/// The same as a client with an OPT record gets it.
const BOGUS_RELAYED: &[u8] = b"\
    \x124\x81\x82\x00\x01\x00\x00\x00\x00\x00\x01\
    \x01d\x07example\x00\x00\x01\x00\x01\
    \x00\x00)\x04\xd0\x00\x00\x80\x00\x00\x06\x00\x0f\x00\x02\x00\x06";

/// SERVFAIL with another option, the server's name (RFC 5001, code 3).
const NAMED: &[u8] = b"\
    \x00\x07\x81\x82\x00\x01\x00\x00\x00\x00\x00\x01\
    \x01d\x07example\x00\x00\x01\x00\x01\
    \x00\x00)\x04\xd0\x00\x00\x00\x00\x00\x06\x00\x03\x00\x02ns";

/// The first query without an OPT record.
const PLAIN_QUERY: &[u8] = b"\
    Vx\x01\x00\x00\x01\x00\x00\x00\x00\x00\x00\
    \x01d\x07example\x00\x00\x01\x00\x01";

const PLAIN_FAILED: &[u8] = b"\
    Vx\x81\x82\x00\x01\x00\x00\x00\x00\x00\x00\
    \x01d\x07example\x00\x00\x01\x00\x01";

const ERRORS: [Row; 7] = [
    (THEN, 0, CLIENT, QUERY, &[], &[(UPSTREAM, ASKED, &[])]),
    (THEN, 0, OTHER, PLAIN_QUERY, &[], &[]),
    (
        THEN,
        0,
        SLOT,
        BOGUS,
        &[],
        &[
            (TO_CLIENT, BOGUS_RELAYED, &[]),
            (TO_OTHER, PLAIN_FAILED, &[]),
        ],
    ),
    // another option
    (THEN, 0, CLIENT, QUERY, &[], &[(UPSTREAM, ASKED, &[])]),
    (THEN, 0, SLOT, NAMED, &[], &[(TO_CLIENT, FAILED, &[])]),
    // no option
    (THEN, 0, CLIENT, QUERY, &[], &[(UPSTREAM, ASKED, &[])]),
    (
        THEN,
        0,
        SLOT,
        NAMED,
        &[(37, b"\x00")],
        &[(TO_CLIENT, FAILED, &[])],
    ),
];

#[test]
fn extended_errors_go_on(rt: HostRuntime) -> Result<(), Fail> {
    let wrong = first_wrong_row(&rt, rt.alloc(), &[], 0, &ERRORS)?;
    assert!(rt; wrong.is_none(), "{wrong:?}");
    Ok(())
}
