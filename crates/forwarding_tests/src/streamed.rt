//! An answer that was cut short to go into a datagram is asked for by a stream, and each client gets of it what it takes (RFC 7766,
//! section 5; RFC 2181, section 9).
use crate::counts::first_miscounted;
use crate::loaded::Loaded;
use crate::messages::{ANSWER, ASKED, FAILED, QUERY, THEN, TICK};
use crate::parties::{
    CLIENT, OTHER, OTHER_STREAM_SLOT, SLOT, STREAM_CLIENT, STREAM_SLOT, STREAM_UPSTREAM, TO_CLIENT,
    TO_OTHER, TO_STREAM_CLIENT, UPSTREAM,
};
use crate::row::{Row, serve_rows};
use crate::script::Script;
use crate::served::first_wrong;
use crate::writing::{Changes, append, written};
use counters::Counter;
use dname::OutOfMemory;
use forwarding::{Came, MessageOctets, Moment, Receiver};
use std::alloc::Global;
use std::cell::Cell;
use std::test::Fail;

/// An answer to d.example A with TC and AD, without records.
const CUT: &[u8] = b"\
    \x00\x07\x83\xa0\x00\x01\x00\x00\x00\x00\x00\x00\
    \x01d\x07example\x00\x00\x01\x00\x01";

/// The same as a client with an OPT record and DO gets it.
const CUT_RELAYED: &[u8] = b"\
    \x124\x83\xa0\x00\x01\x00\x00\x00\x00\x00\x01\
    \x01d\x07example\x00\x00\x01\x00\x01\
    \x00\x00)\x04\xd0\x00\x00\x80\x00\x00\x00";

/// The second ID that is drawn.
const SECOND: Changes = &[(1, b"\x08")];

/// The fourth: an ID is drawn for each query that waits.
const FOURTH: Changes = &[(1, b"\x0a")];

/// What makes a message to the first client one to the client by a stream.
const TO_THIRD: Changes = &[(0, b"Vx")];

/// The same query without an OPT record: its client takes 512 octets, and no signatures.
const PLAIN_QUERY: &[u8] = b"\
    \xab\xcd\x01\x00\x00\x01\x00\x00\x00\x00\x00\x00\
    \x01d\x07example\x00\x00\x01\x00\x01";

/// The answer as that client gets it.
const PLAIN_ANSWER: &[u8] = b"\
    \xab\xcd\x81\x80\x00\x01\x00\x01\x00\x00\x00\x00\
    \x01d\x07example\x00\x00\x01\x00\x01\
    \x01d\x07example\x00\x00\x01\x00\x01\x00\x00\x0e\x10\x00\x04\xc0\x00\x02\x01";

/// The front of the whole answer: an address, before four signatures.
const FRONT: &[u8] = b"\
    \x00\x0a\x81\xa0\x00\x01\x00\x05\x00\x00\x00\x01\
    \x01d\x07example\x00\x00\x01\x00\x01\
    \x01d\x07example\x00\x00\x01\x00\x01\x00\x00\x0e\x10\x00\x04\xc0\x00\x02\x01";

/// A signature's record up to the signature itself, of 1,200 octets.
const SIGNATURE: &[u8] = b"\
    \x01d\x07example\x00\x00.\x00\x01\x00\x00\x0e\x10\x04\xcb\
    \x00\x01\x0d\x02\x00\x00\x0e\x10w5\x94\x005\xa4\xe9\x00\x00\x01\x07example\x00";

/// The upstream's OPT record, and that of a reply to a client with DO.
const UPSTREAM_OPT: &[u8] = b"\x00\x00)\x04\xd0\x00\x00\x00\x00\x00\x00";

const CLIENT_OPT: &[u8] = b"\x00\x00)\x04\xd0\x00\x00\x80\x00\x00\x00";

// The whole answer, of 5,055 octets.
fn whole(changes: Changes, opt: &[u8]) -> MessageOctets {
    let mut message = written(FRONT, changes);
    for letter in b"abcd" {
        append(&mut message, SIGNATURE);
        append(&mut message, &[*letter; 1200]);
    }
    append(&mut message, opt);
    message
}

// Something comes at a moment in milliseconds.
fn comes(
    script: &mut Script,
    millis: u64,
    came: Came,
    octets: MessageOctets,
) -> Result<(), OutOfMemory> {
    let moment = Moment {
        seconds: THEN,
        millis,
    };
    script.comes(moment, came, octets)
}

// A client by datagrams with DO, one that takes less, and one by a stream ask the same.
fn three_ask(script: &mut Script) -> Result<(), OutOfMemory> {
    comes(script, 0, CLIENT, written(QUERY, &[]))?;
    script.goes(UPSTREAM, written(ASKED, &[]))?;
    comes(script, 1, OTHER, written(PLAIN_QUERY, &[]))?;
    comes(script, 2, STREAM_CLIENT, written(QUERY, TO_THIRD))
}

// What comes over the wrong socket once the question was asked by a stream.
fn strays_come(script: &mut Script) -> Result<(), OutOfMemory> {
    comes(script, 11, SLOT, written(ANSWER, &[]))?;
    comes(script, 12, SLOT, written(ANSWER, FOURTH))?;
    comes(script, 13, OTHER_STREAM_SLOT, whole(&[], UPSTREAM_OPT))?;
    comes(script, 14, STREAM_SLOT, written(ANSWER, &[]))
}

// Each client gets of the answer what it takes.
fn three_are_told(script: &mut Script) -> Result<(), OutOfMemory> {
    script.goes(TO_CLIENT, written(CUT_RELAYED, &[]))?;
    script.goes(TO_OTHER, written(PLAIN_ANSWER, &[]))?;
    script.goes(TO_STREAM_CLIENT, whole(TO_THIRD, CLIENT_OPT))
}

// And so they do once it is held, each at its query.
fn three_are_told_again(script: &mut Script) -> Result<(), OutOfMemory> {
    comes(script, 21, CLIENT, written(QUERY, &[]))?;
    script.goes(TO_CLIENT, written(CUT_RELAYED, &[]))?;
    comes(script, 22, OTHER, written(PLAIN_QUERY, &[]))?;
    script.goes(TO_OTHER, written(PLAIN_ANSWER, &[]))?;
    comes(script, 23, STREAM_CLIENT, written(QUERY, TO_THIRD))?;
    script.goes(TO_STREAM_CLIENT, whole(TO_THIRD, CLIENT_OPT))
}

fn cut_and_whole(alloc: Global) -> Result<Script, OutOfMemory> {
    let mut script = Script::new(alloc);
    three_ask(&mut script)?;
    comes(&mut script, 10, SLOT, written(CUT, &[]))?;
    script.goes(STREAM_UPSTREAM, written(ASKED, FOURTH))?;
    strays_come(&mut script)?;
    comes(&mut script, 20, STREAM_SLOT, whole(&[], UPSTREAM_OPT))?;
    three_are_told(&mut script)?;
    three_are_told_again(&mut script)?;
    Ok(script)
}

#[test]
fn a_whole_answer_comes_by_a_stream(rt: HostRuntime) -> Result<(), Fail> {
    let dice = Loaded {
        next: Cell::new(7),
        step: 1,
    };
    let script = cut_and_whole(rt.alloc())?;
    let wrong = first_wrong(&rt, rt.alloc(), &[], &dice, script)?;
    assert!(rt; wrong.is_none(), "{wrong:?}");
    Ok(())
}

// What the stream brings is cut short as well: it is relayed so, and not stored.
const TWICE_CUT: [Row; 5] = [
    (THEN, 0, CLIENT, QUERY, &[], &[(UPSTREAM, ASKED, &[])]),
    (
        THEN,
        10,
        SLOT,
        CUT,
        &[],
        &[(STREAM_UPSTREAM, ASKED, SECOND)],
    ),
    (
        THEN,
        20,
        STREAM_SLOT,
        CUT,
        SECOND,
        &[(TO_CLIENT, CUT_RELAYED, &[])],
    ),
    (
        THEN,
        30,
        CLIENT,
        QUERY,
        &[],
        &[(UPSTREAM, ASKED, &[(1, b"\x09")])],
    ),
    (THEN, 40, TICK, &[], &[], &[]),
];

#[test]
fn a_question_is_asked_by_a_stream_once(rt: HostRuntime) -> Result<(), Fail> {
    let served = serve_rows(&rt, rt.alloc(), &[], 1, &TWICE_CUT)?;
    let wrong = served.wrong;
    assert!(rt; wrong.is_none(), "{wrong:?}");
    let wrong = first_miscounted(
        &served.shown,
        &[
            (Counter::Asked, 2),
            (Counter::AskedByStream, 1),
            (Counter::Truncated, 1),
            (Counter::RelayedNoError, 1),
        ],
    );
    assert!(rt; wrong.is_none(), "{wrong:?}");
    Ok(())
}

// The stream brings nothing. The question isn't asked again, and waits for 4.5 seconds since it was asked first.
const SILENT: [Row; 6] = [
    (THEN, 0, CLIENT, QUERY, &[], &[(UPSTREAM, ASKED, &[])]),
    (
        THEN,
        10,
        SLOT,
        CUT,
        &[],
        &[(STREAM_UPSTREAM, ASKED, SECOND)],
    ),
    (THEN, 1000, TICK, &[], &[], &[]),
    (THEN, 3010, TICK, &[], &[], &[]),
    (THEN, 4499, TICK, &[], &[], &[]),
    (THEN, 4500, TICK, &[], &[], &[(TO_CLIENT, FAILED, &[])]),
];

#[test]
fn a_stream_says_nothing(rt: HostRuntime) -> Result<(), Fail> {
    let served = serve_rows(&rt, rt.alloc(), &[], 1, &SILENT)?;
    let wrong = served.wrong;
    assert!(rt; wrong.is_none(), "{wrong:?}");
    let wrong = first_miscounted(
        &served.shown,
        &[
            (Counter::Asked, 1),
            (Counter::AskedByStream, 1),
            (Counter::Late, 1),
        ],
    );
    assert!(rt; wrong.is_none(), "{wrong:?}");
    Ok(())
}
