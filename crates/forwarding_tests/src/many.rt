//! Many questions: more than sixteen that are one, more than the table has slots, and a zone whose servers are dead.
use crate::counts::first_miscounted;
use crate::loaded::Loaded;
use crate::messages::{THEN, TICK};
use crate::script::Script;
use crate::served::{Served, serve};
use crate::writing::message_of;
use counters::Counter;
use dname::OutOfMemory;
use forwarding::{Came, Carrier, MessageOctets, Moment, Receiver};
use std::alloc::Global;
use std::cell::Cell;
use std::ops::Range;
use std::sync::Wait;
use std::test::Fail;

/// A query for n000.example A, with RD and with ID 0.
const QUERY: &[u8] = b"\
    \x00\x00\x01\x00\x00\x01\x00\x00\x00\x00\x00\x00\
    \x04n000\x07example\x00\x00\x01\x00\x01";

/// The same as it is asked upstream: with RD and AD, and an OPT record of size 1232 and DO.
const ASKED: &[u8] = b"\
    \x00\x00\x01\x20\x00\x01\x00\x00\x00\x00\x00\x01\
    \x04n000\x07example\x00\x00\x01\x00\x01\
    \x00\x00)\x04\xd0\x00\x00\x80\x00\x00\x00";

/// An answer, with one record, which is unsigned.
const ANSWER: &[u8] = b"\
    \x00\x00\x81\x80\x00\x01\x00\x01\x00\x00\x00\x00\
    \x04n000\x07example\x00\x00\x01\x00\x01\
    \x04n000\x07example\x00\x00\x01\x00\x01\x00\x00\x01\x2c\x00\x04\xc0\x00\x02\x01";

/// SERVFAIL to the query.
const FAILED: &[u8] = b"\
    \x00\x00\x81\x82\x00\x01\x00\x00\x00\x00\x00\x00\
    \x04n000\x07example\x00\x00\x01\x00\x01";

/// The ID that is drawn.
const ID: u16 = 7;

/// How many questions the table has room for.
const SLOTS: u16 = 256;

const MOST: usize = 128;

// The message like that one, with the ID, of the name with the number, which is below 1,000.
fn numbered(like: &[u8], id: u16, number: u16) -> MessageOctets {
    let mut octets = [0; MOST];
    for (octet, other) in octets.iter_mut().zip(like.iter()) {
        *octet = *other;
    }
    let [high, low] = id.to_be_bytes();
    octets[0] = high;
    octets[1] = low;
    let digits = [digit(number / 100), digit(number / 10), digit(number)];
    for (octet, other) in octets.iter_mut().skip(14).zip(digits.iter()) {
        *octet = *other;
    }
    // the owner's name of the record
    if like.len() > 50 {
        for (octet, other) in octets.iter_mut().skip(32).zip(digits.iter()) {
            *octet = *other;
        }
    }
    message_of(octets.get(..like.len()).unwrap_or(&[]))
}

fn digit(number: u16) -> u8 {
    b'0' + (number % 10) as u8
}

// The client of that number, which is its query's ID too, asks for the name, a millisecond later each.
fn asks(script: &mut Script, client: u16, number: u16) -> Result<(), OutOfMemory> {
    let moment = Moment {
        seconds: THEN,
        millis: u64::from(client),
    };
    let came = Came::Query {
        client: u64::from(client),
        carrier: Carrier::Datagram,
    };
    script.comes(moment, came, numbered(QUERY, client, number))
}

fn is_asked(script: &mut Script, slot: u16, number: u16) -> Result<(), OutOfMemory> {
    let receiver = Receiver::ToUpstream {
        slot: usize::from(slot),
        carrier: Carrier::Datagram,
    };
    script.goes(receiver, numbered(ASKED, ID, number))
}

// The upstream answers over the slot's socket, after all were asked.
fn answers(script: &mut Script, slot: u8, number: u16) -> Result<(), OutOfMemory> {
    let moment = Moment {
        seconds: THEN,
        millis: 500,
    };
    let came = Came::Answer {
        slot,
        carrier: Carrier::Datagram,
    };
    script.comes(moment, came, numbered(ANSWER, ID, number))
}

// Nothing is due yet.
fn ticks(script: &mut Script) -> Result<(), OutOfMemory> {
    let moment = Moment {
        seconds: THEN,
        millis: 501,
    };
    script.comes(moment, TICK, message_of(&[]))
}

// The client gets a message about the name.
fn is_told(script: &mut Script, client: u16, like: &[u8], number: u16) -> Result<(), OutOfMemory> {
    script.goes(
        Receiver::ToClient(u64::from(client)),
        numbered(like, client, number),
    )
}

fn serve_script<R: Wait>(rt: &R, alloc: Global, script: Script) -> Result<Served, Fail> {
    let dice = Loaded {
        next: Cell::new(ID),
        step: 0,
    };
    serve(rt, alloc, &[], &dice, script)
}

// Sixteen wait for one answer, and the seventeenth asks anew; each gets the answer to its own.
fn seventeen_equal(alloc: Global) -> Result<Script, OutOfMemory> {
    let mut script = Script::new(alloc);
    asks(&mut script, 0, 0)?;
    is_asked(&mut script, 0, 0)?;
    for client in 1..16 {
        asks(&mut script, client, 0)?;
    }
    asks(&mut script, 16, 0)?;
    is_asked(&mut script, 1, 0)?;
    all_are_answered(&mut script)?;
    Ok(script)
}

fn all_are_answered(script: &mut Script) -> Result<(), OutOfMemory> {
    answers(script, 1, 0)?;
    is_told(script, 16, ANSWER, 0)?;
    answers(script, 0, 0)?;
    for client in 0..16 {
        is_told(script, client, ANSWER, 0)?;
    }
    Ok(())
}

#[test]
fn seventeen_equal_questions_are_asked_twice(rt: HostRuntime) -> Result<(), Fail> {
    let script = seventeen_equal(rt.alloc())?;
    let wrong = serve_script(&rt, rt.alloc(), script)?.wrong;
    assert!(rt; wrong.is_none(), "{wrong:?}");
    Ok(())
}

// Each question is asked. Once the table is full the one that was asked first is given up for it.
fn all_are_asked(script: &mut Script, numbers: Range<u16>) -> Result<(), OutOfMemory> {
    for number in numbers {
        asks(script, number, number)?;
        if number >= SLOTS {
            is_told(script, number - SLOTS, FAILED, number - SLOTS)?;
        }
        is_asked(script, number % SLOTS, number)?;
    }
    Ok(())
}

// The first slot is free again and has a younger question, as the table is full: the oldest is in the second, and has two clients.
fn one_too_many(alloc: Global) -> Result<Script, OutOfMemory> {
    let mut script = Script::new(alloc);
    all_are_asked(&mut script, 0..SLOTS)?;
    answers(&mut script, 0, 0)?;
    is_told(&mut script, 0, ANSWER, 0)?;
    asks(&mut script, 256, 256)?;
    is_asked(&mut script, 0, 256)?;
    asks(&mut script, 257, 1)?;
    asks(&mut script, 258, 258)?;
    is_told(&mut script, 1, FAILED, 1)?;
    is_told(&mut script, 257, FAILED, 1)?;
    is_asked(&mut script, 1, 258)?;
    ticks(&mut script)?;
    Ok(script)
}

#[test]
fn a_full_table_gives_up_its_oldest_question(rt: HostRuntime) -> Result<(), Fail> {
    let script = one_too_many(rt.alloc())?;
    let served = serve_script(&rt, rt.alloc(), script)?;
    let wrong = served.wrong;
    assert!(rt; wrong.is_none(), "{wrong:?}");
    let wrong = first_miscounted(
        &served.shown,
        &[
            (Counter::Asked, 258),
            (Counter::Joined, 1),
            (Counter::Full, 2),
            (Counter::NotAuthentic, 1),
            (Counter::RelayedNoError, 1),
        ],
    );
    assert!(rt; wrong.is_none(), "{wrong:?}");
    Ok(())
}

// Nobody answers the first 300 names, and the next 20 are answered.
fn dead_and_good(alloc: Global) -> Result<Script, OutOfMemory> {
    let mut script = Script::new(alloc);
    all_are_asked(&mut script, 0..320)?;
    for slot in 44..64 {
        let number = SLOTS + u16::from(slot);
        answers(&mut script, slot, number)?;
        is_told(&mut script, number, ANSWER, number)?;
    }
    Ok(script)
}

#[test]
fn a_dead_zone_silences_no_other(rt: HostRuntime) -> Result<(), Fail> {
    let script = dead_and_good(rt.alloc())?;
    let wrong = serve_script(&rt, rt.alloc(), script)?.wrong;
    assert!(rt; wrong.is_none(), "{wrong:?}");
    Ok(())
}
