//! A worker over a new cache and an outlet in memory.
ghost use Rattle.std.specs.Prelude.{◌≡◌, Some};
ghost use Rattle.resolver.specs.Caches.{IsSeatOf};
ghost use Rattle.waiting_table.specs.Waiting.{empty_table};
ghost use Rattle.forwarding.specs.Lawful.{IsNew};
ghost use Rattle.forwarding.specs.MemoryOutlet.{told_by};

use crate::loaded::Loaded;
use crate::script::{Script, Step, first_otherwise};
use counters::Counts;
use dname::Name;
use forwarding::{
    Came, Event, Holding, MemoryOutlet, MessageOctets, Moment, PassedNames, serve_some,
};
use resolver::{CacheSeat, SharedCache};
use std::alloc::Global;
use std::sync::Wait;
use std::test::Fail;
use waiting_table::WaitingTable;

/// How many more messages may be sent than the steps tell.
const SPARE: usize = 64;

/// What came of a script.
#[derive(Drop)]
pub(crate) struct Served {
    /// The first step that went otherwise.
    pub(crate) wrong: Option<usize>,
    /// What the outlet was shown last.
    pub(crate) shown: Counts,
    pub(crate) holding: Holding,
}

/// The first step that goes otherwise, where these names are passed beside the resolver's own.
pub(crate) fn first_wrong<R: Wait>(
    rt: &R,
    alloc: Global,
    passed: &[&[u8]],
    dice: &Loaded,
    script: Script,
) -> Result<Option<usize>, Fail> {
    Ok(serve(rt, alloc, passed, dice, script)?.wrong)
}

/// Does what the script asks for, where these names are passed beside the resolver's own.
pub(crate) fn serve<R: Wait>(
    rt: &R,
    alloc: Global,
    passed: &[&[u8]],
    dice: &Loaded,
    script: Script,
) -> Result<Served, Fail> {
    let names = passed_names(alloc, passed)?;
    serve_passing(rt, alloc, &names, dice, script)
}

fn serve_passing<'a, R: Wait>(
    rt: &'a R,
    alloc: Global,
    names: &'a PassedNames,
    dice: &Loaded,
    script: Script,
) -> Result<Served, Fail> {
    let table = WaitingTable::new(alloc)?;
    let Script { events, steps } = script;
    let number = events.len();
    let room = steps.len().saturating_add(SPARE);
    let outlet = MemoryOutlet::with_room(rt, alloc, names, events, room)?;
    let (cache, mut seats) = SharedCache::with_seats(rt, alloc, 1)?;
    let found = match seats.pop() {
        Some(seat) => Ok(run_script(
            rt, alloc, &cache, seat, names, table, outlet, dice, number, &steps,
        )),
        None => Err(Fail::from("no seat")),
    };
    cache.give_up(rt);
    found
}

fn passed_names(alloc: Global, passed: &[&[u8]]) -> Result<PassedNames, Fail> {
    let mut names = PassedNames::own(alloc)?;
    for wire in passed {
        let (name, _) = Name::read(wire)?;
        names.pass(name)?;
    }
    Ok(names)
}

fn run_script<R: Wait>(
    rt: &R,
    alloc: Global,
    cache: &SharedCache,
    seat: CacheSeat,
    names: &PassedNames,
    table: WaitingTable,
    outlet: MemoryOutlet<'_, R>,
    dice: &Loaded,
    number: usize,
    steps: &[Step],
) -> Served
    requires seat { IsSeatOf cache.now seat }
    requires table { table ≡ empty_table }
    requires outlet { IsNew names.now (Some (told_by outlet)) }
{
    let mut seat = seat;
    let mut table = table;
    let mut counts = Counts::new();
    let mut outlet = outlet;
    let mut event = no_event();
    serve_some(
        rt,
        alloc,
        cache,
        &mut seat,
        names,
        &mut table,
        &mut counts,
        &mut event,
        &mut outlet,
        dice,
        number,
    );
    Served {
        wrong: first_otherwise(outlet.carried(), steps),
        shown: outlet.shown().copy(),
        holding: outlet.holding(),
    }
}

// A place for events.
fn no_event() -> Event {
    Event {
        moment: Moment {
            seconds: 0,
            millis: 0,
        },
        came: Came::Tick,
        octets: MessageOctets::new(),
    }
}
