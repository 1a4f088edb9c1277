//! Which questions are one: those of the same name, in any letters, type, class and CD.
use crate::messages::THEN;
use crate::row::{Row, first_wrong_row};
use forwarding::{Came, Carrier, Receiver};
use std::test::Fail;

/// A query for a.example TXT, with RD.
const QUERY: &[u8] = b"\
    \x124\x01\x00\x00\x01\x00\x00\x00\x00\x00\x00\
    \x01a\x07example\x00\x00\x10\x00\x01";

/// The same as it is asked upstream: with RD and AD, and an OPT record of size 1232 and DO.
const ASKED: &[u8] = b"\
    \x00\x07\x01\x20\x00\x01\x00\x00\x00\x00\x00\x01\
    \x01a\x07example\x00\x00\x10\x00\x01\
    \x00\x00)\x04\xd0\x00\x00\x80\x00\x00\x00";

const QUERIES: [Row; 8] = [
    (
        THEN,
        0,
        Came::Query {
            client: 1,
            carrier: Carrier::Datagram,
        },
        QUERY,
        &[],
        &[(
            Receiver::ToUpstream {
                slot: 0,
                carrier: Carrier::Datagram,
            },
            ASKED,
            &[],
        )],
    ),
    // another ID, in other letters, without RD
    (
        THEN,
        0,
        Came::Query {
            client: 2,
            carrier: Carrier::Datagram,
        },
        QUERY,
        &[(0, b"\xab\xcd\x00"), (13, b"A\x07eXample")],
        &[],
    ),
    // another name
    (
        THEN,
        0,
        Came::Query {
            client: 3,
            carrier: Carrier::Datagram,
        },
        QUERY,
        &[(13, b"b")],
        &[(
            Receiver::ToUpstream {
                slot: 1,
                carrier: Carrier::Datagram,
            },
            ASKED,
            &[(13, b"b")],
        )],
    ),
    // another type
    (
        THEN,
        0,
        Came::Query {
            client: 4,
            carrier: Carrier::Datagram,
        },
        QUERY,
        &[(23, b"\x00\x01")],
        &[(
            Receiver::ToUpstream {
                slot: 2,
                carrier: Carrier::Datagram,
            },
            ASKED,
            &[(23, b"\x00\x01")],
        )],
    ),
    // another class
    (
        THEN,
        0,
        Came::Query {
            client: 5,
            carrier: Carrier::Datagram,
        },
        QUERY,
        &[(25, b"\x00\x03")],
        &[(
            Receiver::ToUpstream {
                slot: 3,
                carrier: Carrier::Datagram,
            },
            ASKED,
            &[(25, b"\x00\x03")],
        )],
    ),
    // with CD
    (
        THEN,
        0,
        Came::Query {
            client: 6,
            carrier: Carrier::Datagram,
        },
        QUERY,
        &[(3, b"\x10")],
        &[(
            Receiver::ToUpstream {
                slot: 4,
                carrier: Carrier::Datagram,
            },
            ASKED,
            &[(3, b"\x30")],
        )],
    ),
    // each joins its own
    (
        THEN,
        0,
        Came::Query {
            client: 7,
            carrier: Carrier::Datagram,
        },
        QUERY,
        &[(13, b"b")],
        &[],
    ),
    (
        THEN,
        0,
        Came::Query {
            client: 8,
            carrier: Carrier::Datagram,
        },
        QUERY,
        &[(3, b"\x10")],
        &[],
    ),
];

#[test]
fn equal_questions_join(rt: HostRuntime) -> Result<(), Fail> {
    let wrong = first_wrong_row(&rt, rt.alloc(), &[], 0, &QUERIES)?;
    assert!(rt; wrong.is_none(), "{wrong:?}");
    Ok(())
}
