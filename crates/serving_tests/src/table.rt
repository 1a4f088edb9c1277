//! The table of the queries that wait for the upstream, event by event.
use dname::Name;
use dnswire::{QueryRead, Question, read_query};
use serving::{Action, Event, WorkerCore};
use std::test::Fail;

// A.Example TXT, without OPT.
const QUERY: &[u8] =
    b"\x12\x34\x01\x00\x00\x01\x00\x00\x00\x00\x00\x00\x01A\x07Example\x00\x00\x10\x00\x01";

// Its question, as the client wrote it.
const ASKED: &[u8] = b"\x01A\x07Example\x00\x00\x10\x00\x01";

const TXT: u16 = 16;

const IN: u16 = 1;

const CLIENT: u64 = 0x7f00_0001_0035;

fn question() -> Result<Question, Fail> {
    match read_query(QUERY) {
        QueryRead::Query(question) => Ok(question),
        _ => Err("not a query")?,
    }
}

// What was done of an event. A relay goes to the client, with the octets that it asked.
#[derive(Debug, PartialEq, Drop)]
enum Deed {
    Sent(u16),
    ServFail,
    Relayed,
    Ignored,
    Other,
}

fn deed_of(action: Action) -> Deed {
    match action {
        Action::Send { id } => Deed::Sent(id),
        Action::ServFail => Deed::ServFail,
        Action::Relay { client, question } => {
            if client == CLIENT && question.asked.as_slice() == ASKED {
                Deed::Relayed
            } else {
                Deed::Other
            }
        }
        Action::Ignored => Deed::Ignored,
    }
}

fn ask(core: &mut WorkerCore, question: &Question, now: u32) -> Deed {
    let event = Event::Ask {
        client: CLIENT,
        question,
        now,
    };
    deed_of(core.step(event))
}

fn came(core: &mut WorkerCore, id: u16, name: &Name, qtype: u16, qclass: u16) -> Deed {
    let event = Event::Came {
        id,
        name,
        qtype,
        qclass,
    };
    deed_of(core.step(event))
}

// What happens to a table: a client asks, or an answer comes with that ID, that name or the root's, and that type and class.
#[derive(Clone, Copy, Drop)]
enum Step {
    Asked { now: u32 },
    Came { id: u16 },
    OfTheRoot { id: u16 },
    OfType { id: u16, qtype: u16 },
    OfClass { id: u16, qclass: u16 },
}

fn done(core: &mut WorkerCore, question: &Question, step: Step) -> Deed {
    let name = &question.name;
    match step {
        Step::Asked { now } => ask(core, question, now),
        Step::Came { id } => came(core, id, name, TXT, IN),
        Step::OfTheRoot { id } => came(core, id, &Name::root(), TXT, IN),
        Step::OfType { id, qtype } => came(core, id, name, qtype, IN),
        Step::OfClass { id, qclass } => came(core, id, name, TXT, qclass),
    }
}

// The first step of which something else is done, and what.
fn first_wrong(
    core: &mut WorkerCore,
    question: &Question,
    steps: &[(Step, Deed)],
) -> Option<(usize, Deed)> {
    for (i, (step, wanted)) in steps.iter().enumerate() {
        let deed = done(core, question, *step);
        if deed != *wanted {
            return Some((i, deed));
        }
    }
    None
}

// Asks 256 times at that moment, and gives the first that isn't sent with the next ID from `first` on, and what is done of it.
fn asked_otherwise(
    core: &mut WorkerCore,
    question: &Question,
    first: u16,
    now: u32,
) -> Option<(u16, Deed)> {
    for i in 0..256 {
        let deed = ask(core, question, now);
        if deed != Deed::Sent(first.wrapping_add(i)) {
            return Some((i, deed));
        }
    }
    None
}

#[test]
fn a_full_table_waits_until_entries_are_five_seconds_old(rt: HostRuntime) -> Result<(), Fail> {
    let question = question()?;
    let mut core = WorkerCore::new(rt.alloc())?;
    let wrong = asked_otherwise(&mut core, &question, 0, 100);
    assert!(rt; wrong.is_none(), "{wrong:?}");
    let steps = [
        (Step::Asked { now: 104 }, Deed::ServFail),
        (Step::Asked { now: 105 }, Deed::Sent(256)),
        (Step::Came { id: 0 }, Deed::Ignored),
        (Step::Came { id: 256 }, Deed::Relayed),
    ];
    let wrong = first_wrong(&mut core, &question, &steps);
    assert!(rt; wrong.is_none(), "{wrong:?}");
    Ok(())
}

// All 256 are free at once, each at its next turn.
#[test]
fn all_entries_grow_late_at_once(rt: HostRuntime) -> Result<(), Fail> {
    let question = question()?;
    let mut core = WorkerCore::new(rt.alloc())?;
    let wrong = asked_otherwise(&mut core, &question, 0, 100);
    assert!(rt; wrong.is_none(), "{wrong:?}");
    let wrong = asked_otherwise(&mut core, &question, 256, 105);
    assert!(rt; wrong.is_none(), "{wrong:?}");
    let deed = ask(&mut core, &question, 105);
    assert!(rt; deed == Deed::ServFail, "{deed:?}");
    Ok(())
}

// The first turn in which the one slot that is used isn't sent with its ID and relayed.
fn turned_otherwise(core: &mut WorkerCore, question: &Question) -> Option<(u16, Deed, Deed)> {
    for turn in 0..256 {
        let id = turn * 256;
        let sent = ask(core, question, 100);
        let relayed = came(core, id, &question.name, TXT, IN);
        if sent != Deed::Sent(id) || relayed != Deed::Relayed {
            return Some((turn, sent, relayed));
        }
    }
    None
}

// After its last turn a slot goes on to its first.
#[test]
fn the_turn_of_a_slot_goes_round(rt: HostRuntime) -> Result<(), Fail> {
    let question = question()?;
    let mut core = WorkerCore::new(rt.alloc())?;
    let wrong = turned_otherwise(&mut core, &question);
    assert!(rt; wrong.is_none(), "{wrong:?}");
    let deed = ask(&mut core, &question, 100);
    assert!(rt; deed == Deed::Sent(0), "{deed:?}");
    Ok(())
}

// What is ignored changes nothing, and the least free slot is taken first.
#[test]
fn an_answer_fits_by_its_slot_turn_name_type_and_class(rt: HostRuntime) -> Result<(), Fail> {
    let question = question()?;
    let mut core = WorkerCore::new(rt.alloc())?;
    let steps = [
        (Step::Asked { now: 100 }, Deed::Sent(0)),
        (Step::Asked { now: 100 }, Deed::Sent(1)),
        (Step::Came { id: 2 }, Deed::Ignored),
        (Step::Came { id: 256 }, Deed::Ignored),
        (Step::OfTheRoot { id: 0 }, Deed::Ignored),
        (Step::OfType { id: 0, qtype: 1 }, Deed::Ignored),
        (Step::OfClass { id: 0, qclass: 3 }, Deed::Ignored),
        (Step::Came { id: 0 }, Deed::Relayed),
        (Step::Came { id: 0 }, Deed::Ignored),
        (Step::Asked { now: 100 }, Deed::Sent(256)),
    ];
    let wrong = first_wrong(&mut core, &question, &steps);
    assert!(rt; wrong.is_none(), "{wrong:?}");
    Ok(())
}

// By a clock of 32 bits: the first entry is 3 seconds old at 1, past the clock's end. At 0 it is 2 seconds old, and the second
// one, sent a second later, counts as nearly 2^32 seconds old.
#[test]
fn the_clock_goes_round(rt: HostRuntime) -> Result<(), Fail> {
    let question = question()?;
    let mut core = WorkerCore::new(rt.alloc())?;
    let steps = [
        (Step::Asked { now: u32::MAX - 1 }, Deed::Sent(0)),
        (Step::Asked { now: 1 }, Deed::Sent(1)),
        (Step::Asked { now: 0 }, Deed::Sent(257)),
    ];
    let wrong = first_wrong(&mut core, &question, &steps);
    assert!(rt; wrong.is_none(), "{wrong:?}");
    Ok(())
}
