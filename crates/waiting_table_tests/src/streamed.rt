//! A question that is asked by a stream.
use crate::questions::{OTHER_LETTERS, QUERY, ask, question};
use arrivals::Carrier;
use dname::Name;
use std::alloc::Global;
use std::test::Fail;
use waiting_table::{Place, SLOTS, WaitingTable};

// Asks the question of the first slot by a stream, where it may be.
fn stream(table: &mut WaitingTable, id: u16) -> bool {
    let may = table.may_ask_by_stream(0);
    if may {
        table.ask_by_stream(0, id);
    }
    may
}

// The first slot's question was asked at ten seconds with the ID 7, and then by a stream with the ID 9.
fn one_streams(alloc: Global) -> Result<WaitingTable, Fail> {
    let mut table = WaitingTable::new(alloc)?;
    ask(&mut table, 1, &question(QUERY)?, 7, 10_000);
    if !stream(&mut table, 9) {
        Err("not asked by a stream")?;
    }
    Ok(table)
}

// Moments in milliseconds, and whether the question is late then.
const TICKS: [(u64, bool); 7] = [
    (10_999, false),
    // When it would be asked again by a datagram.
    (11_000, false),
    (12_000, false),
    // When it would be so for the second time.
    (13_000, false),
    (14_499, false),
    // It waits from its first asking on.
    (14_500, true),
    (u64::MAX, true),
];

fn first_wrong(table: &WaitingTable) -> Option<(u64, usize)> {
    for (now, late) in TICKS {
        let slot = table.next_due(0, now);
        let wanted = if late { 0 } else { SLOTS };
        if slot != wanted || table.is_late(0, now) != late || table.is_due(0, now) {
            return Some((now, slot));
        }
    }
    None
}

#[test]
fn a_question_that_was_asked_by_a_stream_is_asked_no_more(rt: HostRuntime) -> Result<(), Fail> {
    let table = one_streams(rt.alloc())?;
    let wrong = first_wrong(&table);
    assert!(rt; wrong.is_none(), "{wrong:?}");
    Ok(())
}

// By what answers come and with which ID, and whether they are to the question.
const ANSWERS: [(Carrier, u16, bool); 4] = [
    // The ID of the first asking is no longer one.
    (Carrier::Datagram, 7, false),
    (Carrier::Stream, 7, false),
    (Carrier::Datagram, 9, false),
    (Carrier::Stream, 9, true),
];

fn first_misjudged(table: &WaitingTable, name: &Name) -> Option<(Carrier, u16)> {
    for (carrier, id, wanted) in ANSWERS {
        if table.fits(0, carrier, id, name, 16, 1) != wanted
            || table.has_id(0, carrier, id) != wanted
        {
            return Some((carrier, id));
        }
    }
    None
}

#[test]
fn an_answer_comes_as_its_question_went(rt: HostRuntime) -> Result<(), Fail> {
    let table = one_streams(rt.alloc())?;
    let (name, _) = Name::read(b"\x01a\x07example\x00")?;
    let wrong = first_misjudged(&table, &name);
    assert!(rt; wrong.is_none(), "{wrong:?}");
    Ok(())
}

// A free slot has no question, and a new question is another one.
#[test]
fn a_question_is_asked_by_a_stream_once(rt: HostRuntime) -> Result<(), Fail> {
    let question = question(QUERY)?;
    let mut table = WaitingTable::new(rt.alloc())?;
    let before = stream(&mut table, 8);
    ask(&mut table, 1, &question, 7, 10_000);
    let asked = (stream(&mut table, 9), stream(&mut table, 10));
    table.free(0);
    ask(&mut table, 1, &question, 7, 10_000);
    let anew = stream(&mut table, 11);
    assert!(rt;
        (before, asked, anew) == (false, (true, false), true),
        "{asked:?}"
    );
    Ok(())
}

#[test]
fn equal_questions_join_one_that_was_asked_by_a_stream(rt: HostRuntime) -> Result<(), Fail> {
    let mut table = one_streams(rt.alloc())?;
    let place = ask(&mut table, 2, &question(OTHER_LETTERS)?, 7, 11_000);
    assert!(rt; place == Place::Joins { slot: 0 }, "{place:?}");
    assert!(rt; table.clients(0) == 2 && !table.may_ask_by_stream(0));
    Ok(())
}
