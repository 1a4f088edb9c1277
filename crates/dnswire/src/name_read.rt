ghost use Rattle.std.specs.Prelude.{◌≡◌, ◌≤◌, ◌+◌, ℕ, List, [], ◌++◌, length, take, drop, IfOk, IfSome, IsTrue, Err};
ghost use Rattle.dnswire.specs.Data.{IsWrittenOut};
ghost use Rattle.dnswire.specs.Expansions.{HasOctets, IsTableOf, octets_in};
ghost use Rattle.dnswire.specs.Runs.{HasNoRoom};
ghost use Rattle.dnswire.specs.declared.name_read.NotRead.{NotRead};

use crate::label_run::run_at;
use crate::name_labels::{Piece, piece_at};
use crate::name_table::{Extent, NameTable, extent_of};
use arrayvec::ArrayVec;
use dname::{MAX_WIRE, octets_between};
use std::alloc::Global;

/// Why a name isn't read.
#[derive(Clone, Copy, Debug, PartialEq, Eq)]
pub(crate) enum NotRead {
    /// No name stands there.
    Faulty,
    OutOfMemory,
}

/// How much may be read behind a name's first pointer where nothing is kept.
const NEAR_POINTERS: usize = 4;

const NEAR_OCTETS: usize = 64;

/// Where a name's octets stand in one piece, the root's among them, and the offset after the name.
#[derive(Clone, Copy, Debug)]
pub(crate) struct Whole {
    pub(crate) start: usize,
    pub(crate) size: usize,
    pub(crate) end: usize,
}

/// The name at the offset where it stands in one piece, or near behind a pointer.
pub(crate) fn whole_at(message: &[u8], at: usize) -> Option<Whole>
    ensures read { IfSome result (λ whole.
        IsWrittenOut message.now at (take whole.size (drop whole.start message.now)) whole.end) }
    ensures within { IfSome result (λ whole. whole.start + whole.size ≤ length message.now) }
{
    let run = run_at(message, at, MAX_WIRE)?;
    let Some(next) = run.next else {
        let size = run.size + 1;
        return Some(Whole {
            start: at,
            size,
            end: at + size,
        });
    };
    if run.size > 0 {
        return None;
    }
    let last = run_at(message, next, NEAR_OCTETS)?;
    match last.next {
        None => Some(Whole {
            start: next,
            size: last.size + 1,
            end: at + 2,
        }),
        Some(_) => None,
    }
}

/// The extent of the name at the offset, where it is a pointer alone and the table is open.
pub(crate) fn pointed_place(
    message: &[u8],
    at: usize,
    table: &mut NameTable,
) -> Result<Option<Extent>, NotRead>
    requires { IsTableOf message.now table.old }
    ensures read { IfOk result (λ found. IfSome found (λ extent.
        IsWrittenOut message.now at (octets_in table.new.octets.items extent) (at + 2))) }
    ensures within { IfOk result (λ found. IfSome found (λ extent.
        (extent.start + extent.size ≤ length table.new.octets.items)
        × (at + 2 ≤ length message.now))) }
    ensures faulty { result ≡ Err NotRead.Faulty → HasNoRoom message.now at 255 }
    ensures table { IsTableOf message.now table.new }
{
    if !table.is_open() {
        return Ok(None);
    }
    match piece_at(message, at) {
        Some(Piece::Pointer(next)) if next < at => {
            match extent_of(message, next, MAX_WIRE, table) {
                Ok(extent) => Ok(Some(extent)),
                Err(NotRead::Faulty) => Err(NotRead::Faulty),
                Err(NotRead::OutOfMemory) => Err(NotRead::OutOfMemory),
            }
        }
        _ => Ok(None),
    }
}

/// Writes the name at the offset out, with its letters as they came, and gives the offset after it.
pub(crate) fn write_out(
    alloc: Global,
    message: &[u8],
    at: usize,
    table: &mut NameTable,
    octets: &mut ArrayVec<u8, MAX_WIRE>,
) -> Result<usize, NotRead>
    requires empty { octets.old.items ≡ [] }
    requires table { IsTableOf message.now table.old }
    ensures read { IfOk result (IsWrittenOut message.now at octets.new.items) }
    ensures faulty { result ≡ Err NotRead.Faulty → HasNoRoom message.now at 255 }
    ensures table { IsTableOf message.now table.new }
{
    let Some(run) = run_at(message, at, MAX_WIRE) else {
        return Err(NotRead::Faulty);
    };
    append_from(octets, message, at, run.size);
    let Some(next) = run.next else {
        append(octets, &[0]);
        return Ok(at + run.size + 1);
    };
    write_rest(alloc, message, next, MAX_WIRE - run.size, table, octets)?;
    Ok(at + run.size + 2)
}

// Writes what is read from the offset on, which has no more octets than these, after those that there are.
fn write_rest(
    alloc: Global,
    message: &[u8],
    at: usize,
    room: usize,
    table: &mut NameTable,
    octets: &mut ArrayVec<u8, MAX_WIRE>,
) -> Result<(), NotRead>
    requires room { length octets.old.items + room ≤ 255 }
    requires table { IsTableOf message.now table.old }
    ensures read { IfOk result (λ _. (rest : List ℕ) × HasOctets message.now at rest
        × (length rest ≤ room) × (octets.new.items ≡ octets.old.items ++ rest)) }
    ensures faulty { result ≡ Err NotRead.Faulty → HasNoRoom message.now at room }
    ensures table { IsTableOf message.now table.new }
{
    let front = octets.len();
    if write_near(message, at, room.min(NEAR_OCTETS), table, octets) {
        return Ok(());
    }
    octets.truncate(front);
    if table.open(alloc, message.len()).is_err() {
        return Err(NotRead::OutOfMemory);
    }
    let extent = extent_of(message, at, room, table)?;
    append(octets, table.octets_of(extent));
    Ok(())
}

// Writes what is read from the offset on, where it is near, has no more octets than these, and nothing is kept yet.
fn write_near(
    message: &[u8],
    at: usize,
    room: usize,
    table: &NameTable,
    octets: &mut ArrayVec<u8, MAX_WIRE>,
) -> bool
    requires { length octets.old.items + room ≤ 255 }
    ensures yes { IsTrue result → (rest : List ℕ) × HasOctets message.now at rest
        × (length rest ≤ room) × (octets.new.items ≡ octets.old.items ++ rest) }
    ensures no { (rest : List ℕ) × (octets.new.items ≡ octets.old.items ++ rest) }
{
    if table.is_open() {
        return false;
    }
    let mut start = at;
    let mut left = room;
    for _ in 0..NEAR_POINTERS {
        let Some(run) = run_at(message, start, left) else {
            return false;
        };
        append_from(octets, message, start, run.size);
        let Some(next) = run.next else {
            append(octets, &[0]);
            return true;
        };
        left -= run.size;
        start = next;
    }
    false
}

/// Puts the piece last.
pub(crate) fn append(octets: &mut ArrayVec<u8, MAX_WIRE>, piece: &[u8])
    requires { length octets.old.items + length piece.now ≤ 255 }
    ensures octets { octets.new.items ≡ octets.old.items ++ piece.now }
    ensures size { length octets.new.items ≡ length octets.old.items + length piece.now }
{
    let fitted = octets.try_extend_from_slice(piece).is_ok();
    prove!(fitted);
}

/// Puts so many octets of the message last, from the offset on.
pub(crate) fn append_from(
    octets: &mut ArrayVec<u8, MAX_WIRE>,
    message: &[u8],
    at: usize,
    size: usize,
)
    requires room { length octets.old.items + size ≤ 255 }
    requires within { at + size ≤ length message.now }
    ensures octets { octets.new.items ≡ octets.old.items ++ take size (drop at message.now) }
    ensures size { length octets.new.items ≡ length octets.old.items + size }
{
    append(octets, octets_between(message, at, at + size));
}
