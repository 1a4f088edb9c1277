//! What a tick finds due.
use crate::questions::{QUERY, ask, question};
use arrivals::Carrier;
use std::test::Fail;
use waiting_table::{SLOTS, WaitingTable};

// A moment in milliseconds, whether the question is late then, and whether it is asked again, which is done.
const TICKS: [(u64, bool, bool); 9] = [
    (10_999, false, false),
    (11_000, false, true),
    // Two seconds after the second asking.
    (12_999, false, false),
    // A clock that goes back makes nothing due.
    (0, false, false),
    (13_000, false, true),
    // It isn't asked a fourth time.
    (14_499, false, false),
    (14_500, true, false),
    (20_000, true, false),
    (u64::MAX, true, false),
];

fn first_wrong(table: &mut WaitingTable) -> Option<(u64, usize)> {
    for (now, late, due) in TICKS {
        let slot = table.next_due(0, now);
        let wanted = if late || due { 0 } else { SLOTS };
        if slot != wanted || table.is_late(0, now) != late || table.is_due(0, now) != due {
            return Some((now, slot));
        }
        if table.is_due(0, now) {
            table.ask_again(0, 8, now);
        }
    }
    None
}

#[test]
fn a_question_is_asked_three_times_and_is_late_after_four_and_a_half_seconds(
    rt: HostRuntime,
) -> Result<(), Fail> {
    let mut table = WaitingTable::new(rt.alloc())?;
    ask(&mut table, 1, &question(QUERY)?, 7, 10_000);
    let wrong = first_wrong(&mut table);
    assert!(rt; wrong.is_none(), "{wrong:?}");
    let by = Carrier::Datagram;
    assert!(rt; !table.has_id(0, by, 7) && table.has_id(0, by, 8));
    Ok(())
}

// A pass begins where it is told, and passes over free slots.
#[test]
fn the_next_slot_is_found_from_a_slot_on(rt: HostRuntime) -> Result<(), Fail> {
    let mut table = WaitingTable::new(rt.alloc())?;
    ask(&mut table, 1, &question(QUERY)?, 7, 0);
    ask(
        &mut table,
        1,
        &question(crate::questions::OTHER_TYPE)?,
        7,
        0,
    );
    ask(
        &mut table,
        1,
        &question(crate::questions::OTHER_NAME)?,
        7,
        2,
    );
    table.free(0);
    let found = (
        table.next_due(0, 1001),
        table.next_due(2, 1001),
        table.next_due(2, 1002),
        table.next_due(SLOTS, 1002),
    );
    assert!(rt; found == (1, SLOTS, 2, SLOTS), "{found:?}");
    Ok(())
}
