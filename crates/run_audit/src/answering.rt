//! Whether each output frame is that of its input frame, and the first fault of what replies use.
ghost use Rattle.std.specs.Prelude.{◌≡◌, IfOk};
ghost use Rattle.std.specs.List.Sorted.{IsNonDecreasingBy};
ghost use Rattle.run_audit.specs.First.{IsAnswered};
ghost use Rattle.run_audit.specs.Pairs.{AreInTurn, AreMatched, rank_of};

use crate::checked::Checked;
use crate::fault_at::{FaultAt, earlier};
use crate::pair::FramePair;
use crate::pair_check::check_pair;
use dname::OutOfMemory;
use record_store::Store;
use reply_core::ReplyBuffer;
use std::alloc::Global;
use zone_index::{ZoneIndex, ZoneSearch};

/// What is found of all pairs.
#[derive(Clone, Copy, Debug)]
pub(crate) enum Answered {
    /// An output frame isn't its input frame's.
    Wrong,
    /// Each is, and this is what is wrong with the earliest reply that uses records with a fault.
    Right { first: Option<FaultAt> },
}

/// What is found of the pairs, which need to be in the order of versions. Each version is made once.
pub(crate) fn check_pairs(
    alloc: Global,
    zone: &ZoneIndex,
    pairs: &[FramePair<'_>],
) -> Result<Answered, OutOfMemory>
    requires matched { AreMatched pairs.now }
    requires ranked { IsNonDecreasingBy rank_of pairs.now }
    requires turns { AreInTurn pairs.now }
    ensures { IfOk result (IsAnswered zone.now pairs.now) }
{
    let mut search = ZoneSearch::of(alloc, zone)?;
    let mut store = Store::empty(alloc)?;
    let mut number: u64 = 0;
    let mut first: Option<FaultAt> = None;
    let mut reply = ReplyBuffer::new();
    for pair in pairs {
        match check_pair(alloc, &mut search, &store, number, pair, &mut reply)? {
            Checked::Wrong => return Ok(Answered::Wrong),
            Checked::Right => {}
            Checked::Faulty(fault) => first = Some(earlier(first, FaultAt { at: pair.at, fault })),
            Checked::Placed(batch) => {
                store = store.with_batch(alloc, &batch)?;
                number += 1;
            }
        }
    }
    Ok(Answered::Right { first })
}
