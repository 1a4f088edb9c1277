//! The calls for C.
ghost use Rattle.std.specs.Prelude.{◌≡◌, ◌≤◌, ◌↔◌, length, take, Some};
ghost use Rattle.cache_meaning.specs.Held.{Held};
ghost use Rattle.reply_core.specs.declared.draft.TheConstants.{MAX_REPLY};
ghost use Rattle.resolver.specs.Queried.{HasAnswer, IsSoundReply};
ghost use Rattle.resolver.specs.declared.answering.Answering.{Answering};
ghost use Rattle.dnsreplay_c.specs.Codes.{CodesAreTheHeaders};
ghost use Rattle.dnsreplay_c.specs.Calls.{IsClosed, IsCopied, IsInsert, IsOpened, IsQuery, count_of};
ghost use Rattle.dnsreplay_c.specs.Handle.{state_of};
ghost use Rattle.dnsreplay_c.specs.declared.code.TheConstants.{DONE};

use crate::code::{DONE, NO_MEMORY, WRONG_STATE};
use crate::kept::Kept;
use crate::snapshot::Snapshot;
use resolver::Counts;
use std::alloc::Global;

/// Opens a closed handle on a cache that holds nothing.
#[unsafe(no_mangle)]
pub extern "C" fn dnsreplay_open(alloc: Global, cache: &mut Snapshot) -> i32
    ensures { IsOpened result (state_of cache.old) (state_of cache.new) }
{
    if let Some(kept) = cache.take(alloc) {
        cache.put(kept);
        return WRONG_STATE;
    }
    match Kept::empty(alloc) {
        Ok(kept) => {
            cache.put(kept);
            DONE
        }
        Err(_) => NO_MEMORY,
    }
}

/// Closes an open handle. What no other has is freed.
#[unsafe(no_mangle)]
pub extern "C" fn dnsreplay_close(alloc: Global, cache: &mut Snapshot) -> i32
    ensures { IsClosed result (state_of cache.old) (state_of cache.new) }
{
    match cache.take(alloc) {
        Some(_) => DONE,
        None => WRONG_STATE,
    }
}

/// Opens a closed handle on what an open one has.
#[unsafe(no_mangle)]
pub extern "C" fn dnsreplay_copy(alloc: Global, cache: &mut Snapshot, other: &mut Snapshot) -> i32
    ensures copied { IsCopied
        result (state_of cache.old) (state_of other.old) (state_of other.new) }
    ensures same { state_of cache.new ≡ state_of cache.old }
{
    if let Some(kept) = other.take(alloc) {
        other.put(kept);
        return WRONG_STATE;
    }
    let Some(kept) = cache.take(alloc) else {
        return WRONG_STATE;
    };
    let copied = kept.copy(alloc);
    cache.put(kept);
    match copied {
        Ok(further) => {
            other.put(further);
            DONE
        }
        Err(_) => NO_MEMORY,
    }
}

/// Stores an upstream answer's octets at a moment, in seconds since 1970: the handle goes on to the next snapshot.
#[unsafe(no_mangle)]
pub extern "C" fn dnsreplay_insert(
    alloc: Global,
    cache: &mut Snapshot,
    octets: &[u8],
    now: u32,
    counts: &mut Counts,
) -> i32
    ensures { IsInsert
        (state_of cache.old) octets.now now result (state_of cache.new) counts.old counts.new }
{
    let Some(mut kept) = cache.take(alloc) else {
        return WRONG_STATE;
    };
    let code = kept.insert(alloc, octets, now, counts);
    cache.put(kept);
    code
}

/// Asks with a query's octets at a moment, in seconds since 1970.
#[unsafe(no_mangle)]
pub extern "C" fn dnsreplay_query(
    alloc: Global,
    cache: &mut Snapshot,
    octets: &[u8],
    now: u32,
    room: &mut [u8],
    written: &mut usize,
) -> i32
    ensures replied { IsQuery (state_of cache.old) octets.now now
        result room.old room.new written.old written.new }
    ensures same { state_of cache.new ≡ state_of cache.old }
    ensures exact { (held : Held) → state_of cache.old ≡ Some held
        → MAX_REPLY ≤ length room.old
        → (result ≡ DONE) ↔ HasAnswer Answering.ByProof held octets.now now }
    ensures sound { (held : Held) → state_of cache.old ≡ Some held → result ≡ DONE
        → IsSoundReply Answering.ByProof held octets.now now (take written.new room.new) }
{
    let Some(kept) = cache.take(alloc) else {
        return WRONG_STATE;
    };
    let code = kept.reply(octets, now, room, written);
    cache.put(kept);
    code
}

/// How many records the snapshot holds; none where the handle is closed.
#[unsafe(no_mangle)]
pub extern "C" fn dnsreplay_records(alloc: Global, cache: &mut Snapshot) -> usize
    ensures count { result ≡ count_of (state_of cache.old) }
    ensures same { state_of cache.new ≡ state_of cache.old }
{
    let Some(kept) = cache.take(alloc) else {
        return 0;
    };
    let count = kept.len();
    cache.put(kept);
    count
}

/// The version of the calls' forms and codes, with which a C program compares its header's.
#[unsafe(no_mangle)]
pub extern "C" fn dnsreplay_version() -> u32
    ensures version { result ≡ 1 }
    ensures codes { CodesAreTheHeaders }
{
    1
}

#[cfg(test)]
mod tests;
