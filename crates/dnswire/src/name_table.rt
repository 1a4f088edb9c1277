ghost use Rattle.std.specs.Prelude.{[], ◌≡◌, ◌≤◌, ◌+◌, ◌<◌, ℕ, List, ◌++◌, length, set, get_or, IfOk, IfSome, IfNone, Err};
ghost use Rattle.dnswire.specs.Expansions.{HasOctets, IsKept, IsTableOf, octets_in, nowhere};
ghost use Rattle.dname.specs.Name.{Label};
ghost use Rattle.dnswire.specs.Runs.{HasNoRoom, IsRunAt, Stand};
ghost use Rattle.dnswire.specs.declared.name_read.NotRead.{NotRead};

use crate::label_run::Run;
use crate::name_labels::POINTED_OFFSETS;
use crate::name_read::{NotRead, append, append_from};
use crate::run_sizes::run_by;
use arrayvec::ArrayVec;
use dname::{MAX_WIRE, octets_between};
use std::alloc::{AllocError, Global};

/// For so many octets an offset is room made at first, so that they are seldom moved.
const OCTETS_AN_OFFSET: usize = 32;

/// What stands in a message where pointers go, written out, so that no chain of pointers is followed twice.
#[derive(Drop)]
pub(crate) struct NameTable {
    // All that is written out, and where it is by its offset in the message.
    octets: Vec<u8>,
    extents: Vec<Extent>,
    // The sizes of runs of labels, by their offsets.
    runs: Vec<u8>,
}

/// Where octets are kept; a extent without octets is none.
#[derive(Clone, Copy, Debug)]
pub(crate) struct Extent {
    start: usize,
    size: usize,
}

const NOWHERE: Extent = Extent { start: 0, size: 0 };

impl NameTable {
    /// The table that keeps nothing. It takes no memory.
    pub(crate) fn empty(alloc: Global) -> NameTable
        ensures { (message : List ℕ) → IsTableOf message result }
    {
        NameTable {
            octets: Vec::new(alloc),
            extents: Vec::new(alloc),
            runs: Vec::new(alloc),
        }
    }

    pub(crate) fn is_open(&self) -> bool {
        !self.extents.is_empty()
    }

    /// Makes room for what stands in a message of so many octets.
    pub(crate) fn open(&mut self, alloc: Global, size: usize) -> Result<(), AllocError>
        ensures { (message : List ℕ) → IsTableOf message self.old
            → IsTableOf message self.new }
    {
        if self.extents.is_empty() {
            let count = size.min(POINTED_OFFSETS);
            self.octets = Vec::with_capacity(alloc, OCTETS_AN_OFFSET * count)?;
            self.runs = vec![in alloc; 0; count]?;
            self.extents = vec![in alloc; NOWHERE; count]?;
        }
        Ok(())
    }

    /// Where the octets of the offset are kept.
    fn extent_at(&self, at: usize) -> Extent
        ensures { result ≡ get_or self.now.extents.items at nowhere }
    {
        match self.extents.get(at) {
            Some(extent) => *extent,
            None => NOWHERE,
        }
    }

    /// The octets at the extent.
    pub(crate) fn octets_of(&self, extent: Extent) -> &[u8]
        requires { extent.start + extent.size ≤ length self.now.octets.items }
        ensures { result.now ≡ octets_in self.now.octets.items extent }
    {
        octets_between(
            self.octets.as_slice(),
            extent.start,
            extent.start + extent.size,
        )
    }

    fn keep(&mut self, at: usize, extent: Extent)
        requires { at < length self.old.extents.items }
        ensures octets { self.new.octets.items ≡ self.old.octets.items }
        ensures extents { self.new.extents.items ≡ set self.old.extents.items at extent }
        ensures runs { self.new.runs.items ≡ self.old.runs.items }
    {
        self.extents[at] = extent;
    }

    fn add(&mut self, piece: &[u8]) -> Result<Extent, AllocError>
        ensures octets { IfOk result (λ extent.
            (extent.start + extent.size ≤ length self.new.octets.items)
            × (octets_in self.new.octets.items extent ≡ piece.now)
            × (extent.size ≡ length piece.now)) }
        ensures table { (message : List ℕ) → IsTableOf message self.old
            → IsTableOf message self.new }
    {
        let start = self.octets.len();
        self.octets.extend_from_slice(piece)?;
        Ok(Extent {
            start,
            size: piece.len(),
        })
    }
}

/// Where the octets are of what is read from the offset on, which are no more than these.
pub(crate) fn extent_of(
    message: &[u8],
    at: usize,
    room: usize,
    table: &mut NameTable,
) -> Result<Extent, NotRead>
    requires room { room ≤ 255 }
    requires table { IsTableOf message.now table.old }
    ensures read { IfOk result (λ extent. IsKept message.now table.new.octets.items at extent
        × (extent.size ≤ room)) }
    ensures faulty { result ≡ Err NotRead.Faulty → HasNoRoom message.now at room }
    ensures table { IsTableOf message.now table.new }
{
    let known = table.extent_at(at);
    if known.size > room {
        return Err(NotRead::Faulty);
    }
    if known.size > 0 {
        return Ok(known);
    }
    let mut rest = ArrayVec::new();
    let Some(last_run) = rest_at(message, at, room, table, &mut rest) else {
        return Err(NotRead::Faulty);
    };
    let Ok(extent) = table.add(rest.as_slice()) else {
        return Err(NotRead::OutOfMemory);
    };
    remember(message, at, extent, last_run, table);
    Ok(extent)
}

// Writes what is read from the offset on, and gives where the last run begins that wasn't kept.
fn rest_at(
    message: &[u8],
    at: usize,
    room: usize,
    table: &mut NameTable,
    octets: &mut ArrayVec<u8, MAX_WIRE>,
) -> Option<usize>
    requires room { room ≤ 255 }
    requires empty { octets.old.items ≡ [] }
    requires table { IsTableOf message.now table.old }
    ensures read { IfSome result (λ _. HasOctets message.now at octets.new.items
        × (length octets.new.items ≤ room)) }
    ensures none { IfNone result (HasNoRoom message.now at room) }
    ensures table { IsTableOf message.now table.new }
{
    let mut start = at;
    let mut last_run = at;
    loop {
        let known = table.extent_at(start);
        if known.size > room - octets.len() {
            return None;
        }
        if known.size > 0 {
            append(octets, table.octets_of(known));
            return Some(last_run);
        }
        last_run = start;
        let Some(run) = run_by(message, start, room - octets.len(), &mut table.runs) else {
            return None;
        };
        append_from(octets, message, start, run.size);
        let Some(next) = run.next else {
            append(octets, &[0]);
            return Some(last_run);
        };
        start = next;
    }
}

// Keeps what is read from the offset on, which is at the extent, and what its pointers lead to.
fn remember(message: &[u8], at: usize, whole: Extent, last_run: usize, table: &mut NameTable)
    requires kept { IsKept message.now table.old.octets.items at whole }
    requires small { whole.size ≤ 255 }
    requires table { IsTableOf message.now table.old }
    ensures octets { table.new.octets.items ≡ table.old.octets.items }
    ensures table { IsTableOf message.now table.new }
{
    let mut start = at;
    let mut extent = whole;
    while start < table.extents.len() {
        table.keep(start, extent);
        if start == last_run {
            return;
        }
        let Some(run) = run_by(message, start, extent.size, &mut table.runs) else {
            return;
        };
        let Some(next) = run.next else {
            return;
        };
        start = next;
        extent = Extent {
            start: extent.start + run.size,
            size: extent.size - run.size,
        };
    }
}
