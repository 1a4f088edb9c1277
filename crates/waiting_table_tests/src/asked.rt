//! Where questions wait, and what answers them.
use crate::questions::{
    OTHER_CHECKING, OTHER_CLASS, OTHER_LETTERS, OTHER_NAME, OTHER_TYPE, QUERY, ask, ask_by,
    numbered, question,
};
use arrivals::Carrier;
use dname::Name;
use dnswire::Question;
use std::alloc::Global;
use std::test::Fail;
use waiting_table::{Place, WaitingTable};

// The queries of different clients, in order, and where each waits.
const PLACES: [(&[u8], Place); 7] = [
    (QUERY, Place::Fills { slot: 0 }),
    (OTHER_LETTERS, Place::Joins { slot: 0 }),
    (OTHER_NAME, Place::Fills { slot: 1 }),
    (OTHER_TYPE, Place::Fills { slot: 2 }),
    (OTHER_CLASS, Place::Fills { slot: 3 }),
    (OTHER_CHECKING, Place::Fills { slot: 4 }),
    (OTHER_NAME, Place::Joins { slot: 1 }),
];

fn first_elsewhere(table: &mut WaitingTable) -> Result<Option<(usize, Place)>, Fail> {
    for (i, (query, wanted)) in PLACES.iter().enumerate() {
        let place = ask(table, i as u64, &question(query)?, 7, 1000);
        if place != *wanted {
            return Ok(Some((i, place)));
        }
    }
    Ok(None)
}

#[test]
fn equal_questions_join(rt: HostRuntime) -> Result<(), Fail> {
    let mut table = WaitingTable::new(rt.alloc())?;
    let wrong = first_elsewhere(&mut table)?;
    assert!(rt; wrong.is_none(), "{wrong:?}");
    assert!(rt; (table.clients(0), table.clients(1), table.clients(4)) == (2, 2, 1));
    Ok(())
}

// The first of so many equal questions that waits elsewhere.
fn first_apart(
    table: &mut WaitingTable,
    question: &Question,
    many: u64,
    wanted: Place,
) -> Option<(u64, Place)> {
    for client in 0..many {
        let place = ask(table, client, question, 7, 1000);
        if place != wanted {
            return Some((client, place));
        }
    }
    None
}

// Sixteen wait for one answer, and the seventeenth asks anew.
#[test]
fn seventeen_equal_questions_are_asked_twice(rt: HostRuntime) -> Result<(), Fail> {
    let question = question(QUERY)?;
    let mut table = WaitingTable::new(rt.alloc())?;
    ask(&mut table, 99, &question, 7, 1000);
    let wrong = first_apart(&mut table, &question, 15, Place::Joins { slot: 0 });
    assert!(rt; wrong.is_none(), "{wrong:?}");
    let place = ask(&mut table, 16, &question, 7, 1000);
    assert!(rt; place == Place::Fills { slot: 1 }, "{place:?}");
    let place = ask(&mut table, 17, &question, 7, 1000);
    assert!(rt; place == Place::Joins { slot: 1 }, "{place:?}");
    Ok(())
}

// The queries of three clients, which are one question, and by what each comes.
const ASKERS: [(u64, Carrier, &[u8]); 3] = [
    (8, Carrier::Stream, QUERY),
    (9, Carrier::Datagram, OTHER_LETTERS),
    (10, Carrier::Stream, OTHER_LETTERS),
];

fn all_ask(table: &mut WaitingTable) -> Result<(), Fail> {
    for (number, carrier, query) in ASKERS {
        ask_by(table, carrier, number, &question(query)?, 7, 1000);
    }
    Ok(())
}

// Each client's own number, carrier, ID and letters come back, the first one's and those of who joined.
#[test]
fn each_client_keeps_its_own_question(rt: HostRuntime) -> Result<(), Fail> {
    let mut table = WaitingTable::new(rt.alloc())?;
    all_ask(&mut table)?;
    let wrong = first_changed(&table)?;
    assert!(rt; wrong.is_none(), "{wrong:?}");
    Ok(())
}

fn first_changed(table: &WaitingTable) -> Result<Option<usize>, Fail> {
    for (i, (number, carrier, query)) in ASKERS.iter().enumerate() {
        if !is_client(table, i, *number, *carrier, &question(query)?) {
            return Ok(Some(i));
        }
    }
    Ok(None)
}

fn is_client(
    table: &WaitingTable,
    i: usize,
    number: u64,
    carrier: Carrier,
    question: &Question,
) -> bool {
    if i >= table.clients(0) {
        return false;
    }
    let client = table.client(0, i);
    client.number == number
        && client.carrier == carrier
        && client.question.id == question.id
        && client.question.rd == question.rd
        && client.question.asked.as_slice() == question.asked.as_slice()
}

// Asks 256 questions, one a millisecond, and gives the first that takes another slot than the next.
fn first_misplaced(table: &mut WaitingTable) -> Result<Option<(u8, Place)>, Fail> {
    for number in 0..=255 {
        let wanted = Place::Fills {
            slot: usize::from(number),
        };
        let place = ask(
            table,
            1,
            &numbered(number)?,
            7,
            1000 - u64::from(number / 128),
        );
        if place != wanted {
            return Ok(Some((number, place)));
        }
    }
    Ok(None)
}

// The questions of the upper half were asked a millisecond before those of the lower.
#[test]
fn a_full_table_gives_up_the_oldest(rt: HostRuntime) -> Result<(), Fail> {
    let mut table = WaitingTable::new(rt.alloc())?;
    let wrong = first_misplaced(&mut table)?;
    assert!(rt; wrong.is_none(), "{wrong:?}");
    let place = ask(&mut table, 2, &question(QUERY)?, 7, 1001);
    assert!(rt; place == Place::Replaces { slot: 128 }, "{place:?}");
    let place = ask(&mut table, 2, &question(OTHER_NAME)?, 7, 1001);
    assert!(rt; place == Place::Replaces { slot: 129 }, "{place:?}");
    Ok(())
}

// An answer to the slot's question, and each premise taken away.
#[derive(Clone, Copy, Debug, Drop)]
struct Answer {
    slot: usize,
    carrier: Carrier,
    id: u16,
    name: &'static [u8],
    qtype: u16,
    qclass: u16,
    fits: bool,
}

const NAME: &[u8] = b"\x01A\x07EXAMPLE\x00";

const FITTING: Answer = Answer {
    slot: 3,
    carrier: Carrier::Datagram,
    id: 7,
    name: NAME,
    qtype: 16,
    qclass: 1,
    fits: true,
};

// The answer that fits, and others that don't.
fn answers() -> [Answer; 7] {
    let fits = false;
    [
        FITTING,
        // Another question waits there.
        Answer {
            slot: 2,
            fits,
            ..FITTING
        },
        Answer {
            carrier: Carrier::Stream,
            fits,
            ..FITTING
        },
        Answer {
            id: 8,
            fits,
            ..FITTING
        },
        Answer {
            name: b"\x07example\x00",
            fits,
            ..FITTING
        },
        Answer {
            qtype: 1,
            fits,
            ..FITTING
        },
        Answer {
            qclass: 3,
            fits,
            ..FITTING
        },
    ]
}

// The fourth slot alone has a question.
fn one_waits(alloc: Global) -> Result<WaitingTable, Fail> {
    let mut table = WaitingTable::new(alloc)?;
    ask(&mut table, 1, &question(OTHER_NAME)?, 7, 1000);
    ask(&mut table, 1, &question(OTHER_TYPE)?, 7, 1000);
    ask(&mut table, 1, &question(OTHER_CLASS)?, 7, 1000);
    ask(&mut table, 1, &question(QUERY)?, 7, 1000);
    Ok(table)
}

fn first_misjudged(table: &WaitingTable) -> Result<Option<Answer>, Fail> {
    for row in answers() {
        let (name, _) = Name::read(row.name)?;
        if fits(table, row, &name) != row.fits {
            return Ok(Some(row));
        }
    }
    Ok(None)
}

fn fits(table: &WaitingTable, row: Answer, name: &Name) -> bool {
    if row.slot > 3 {
        return !row.fits;
    }
    table.fits(row.slot, row.carrier, row.id, name, row.qtype, row.qclass)
}

#[test]
fn an_answer_fits_by_slot_carrier_id_name_type_and_class(rt: HostRuntime) -> Result<(), Fail> {
    let mut table = one_waits(rt.alloc())?;
    let wrong = first_misjudged(&table)?;
    assert!(rt; wrong.is_none(), "{wrong:?}");
    table.free(3);
    assert!(rt; !table.has_id(3, Carrier::Datagram, 7) && table.clients(3) == 0);
    Ok(())
}
