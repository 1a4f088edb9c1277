//! Events, one a row, and what is sent for each.
use crate::loaded::Loaded;
use crate::script::Script;
use crate::served::{Served, serve};
use crate::writing::{Changes, written};
use forwarding::{Came, Moment, Receiver};
use std::alloc::Global;
use std::cell::Cell;
use std::sync::Wait;
use std::test::Fail;

/// A moment in seconds and in milliseconds, what comes then, its octets with changes, and what is sent for it, in order.
pub(crate) type Row = (
    u32,
    u64,
    Came,
    &'static [u8],
    Changes,
    &'static [(Receiver, &'static [u8], Changes)],
);

/// The first step of which something else is done, where the IDs that are drawn begin with 7, and each is so much higher.
pub(crate) fn first_wrong_row<R: Wait>(
    rt: &R,
    alloc: Global,
    passed: &[&[u8]],
    step: u16,
    rows: &[Row],
) -> Result<Option<usize>, Fail> {
    Ok(serve_rows(rt, alloc, passed, step, rows)?.wrong)
}

/// What comes of the rows, with the same IDs.
pub(crate) fn serve_rows<R: Wait>(
    rt: &R,
    alloc: Global,
    passed: &[&[u8]],
    step: u16,
    rows: &[Row],
) -> Result<Served, Fail> {
    let dice = Loaded {
        next: Cell::new(7),
        step,
    };
    serve(rt, alloc, passed, &dice, script_of(alloc, rows)?)
}

fn script_of(alloc: Global, rows: &[Row]) -> Result<Script, Fail> {
    let mut script = Script::new(alloc);
    for row in rows {
        add(&mut script, row)?;
    }
    Ok(script)
}

fn add(script: &mut Script, row: &Row) -> Result<(), Fail> {
    let (seconds, millis, came, like, changes, sent) = *row;
    script.comes(Moment { seconds, millis }, came, written(like, changes))?;
    for (receiver, like, changes) in sent {
        script.goes(*receiver, written(like, changes))?;
    }
    Ok(())
}
