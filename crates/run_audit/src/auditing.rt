//! The audit.
ghost use Rattle.std.specs.Prelude.{◌≡◌, ◌<◌, ◌≤◌, ◌^◌, length, map, count_by, Err, IfOk, IfSome};
ghost use Rattle.replay_meaning.specs.Frame.{input_of};
ghost use Rattle.replay_meaning.specs.OutFrame.{output_of};
ghost use Rattle.run_audit.specs.Findings.{IsFound, IsFoundIn};
ghost use Rattle.run_audit.specs.First.{finding_at, finding_of};
ghost use Rattle.run_audit.specs.Pairs.{AreAtPlaces, AreMatched, inputs_in, outputs_in, output_in};
ghost use Rattle.run_audit.specs.Replies.{is_reply};
ghost use Rattle.run_audit.specs.Spelled.{SpellInputs, SpellOutputs};
ghost use Rattle.run_audit.specs.Upheld.{IsUpheldAtYes};

use crate::answering::{Answered, check_pairs};
use crate::fault::Fault;
use crate::fault_at::FaultAt;
use crate::laws::yes_is_upheld;
use crate::order::are_in_order;
use crate::pair::{FramePair, pairs_of};
use crate::reading::{read_inputs, read_outputs};
use crate::turns::{are_numbered, rank};
use crate::{AuditFault, Clause, Finding};
use dname::OutOfMemory;
use replay_meaning::{Frame, OutFrame, OutKind};
use std::alloc::Global;
use zone_index::ZoneIndex;

/// What is found of a zone and a recorded run of at most 32 workers: the octets of its input, which are 64 MiB at most, and of
/// its output. Each frame's place is counted from 0 over all frames, and a used record's over those of its reply, the set that
/// answers, the SOA and the records of a denial. The zone has to be that of the run's time: one that was signed anew has
/// another SOA.
pub fn audit(
    alloc: Global,
    zone: &ZoneIndex,
    input: &[u8],
    output: &[u8],
) -> Result<Finding, AuditFault>
    requires { length input.now ≤ 67_108_864 }
    ensures found { IfOk result (IsFound zone.now input.now output.now) }
    ensures upheld { IfOk result (IsUpheldAtYes zone.now input.now output.now) }
    ensures bad_input { result ≡ Err AuditFault.BadInput → SpellInputs input.now → ⊥ }
    ensures bad_output { result ≡ Err AuditFault.BadOutput
        → SpellInputs input.now × (SpellOutputs output.now → ⊥) }
{
    let Some(frames) = read_inputs(alloc, input)? else {
        return Err(AuditFault::BadInput);
    };
    let Some(outputs) = read_outputs(alloc, output)? else {
        return Err(AuditFault::BadOutput);
    };
    yes_is_upheld();
    let _apex = zone.apex();
    let finding = find(alloc, zone, frames.as_slice(), outputs.as_slice())?;
    Ok(finding)
}

// What is found of the frames.
fn find(
    alloc: Global,
    zone: &ZoneIndex,
    frames: &[Frame<'_>],
    outputs: &[OutFrame<'_>],
) -> Result<Finding, OutOfMemory>
    requires { length frames.now < 2 ^ 32 }
    ensures { IfOk result
        (IsFoundIn zone.now (map input_of frames.now) (map output_of outputs.now)) }
{
    let Some(pairs) = pairs_of(alloc, frames, outputs)? else {
        return Ok(Finding::Unfit {
            clause: Clause::Frames,
        });
    };
    find_in(alloc, zone, pairs)
}

// What is found of the pairs, which are in the order of frames.
fn find_in(
    alloc: Global,
    zone: &ZoneIndex,
    pairs: Vec<FramePair<'_>>,
) -> Result<Finding, OutOfMemory>
    requires matched { AreMatched pairs.items }
    requires places { AreAtPlaces pairs.items }
    requires few { length pairs.items < 2 ^ 32 }
    ensures { IfOk result
        (IsFoundIn zone.now (inputs_in pairs.entry.items) (outputs_in pairs.entry.items)) }
{
    let ordered = are_in_order(pairs.as_slice());
    let replies = count_replies(pairs.as_slice());
    let mut pairs = pairs;
    rank(&mut pairs)?;
    if !are_numbered(pairs.as_slice()) {
        return Ok(Finding::Unfit {
            clause: Clause::Versions,
        });
    }
    match check_pairs(alloc, zone, pairs.as_slice())? {
        Answered::Wrong => Ok(Finding::Unfit {
            clause: Clause::Outcomes,
        }),
        Answered::Right { first } => Ok(if ordered {
            finding_of(replies, first)
        } else {
            Finding::Unfit {
                clause: Clause::Order,
            }
        }),
    }
}

fn count_replies(pairs: &[FramePair<'_>]) -> u32
    requires { length pairs.now < 2 ^ 32 }
    ensures { result ≡ count_by is_reply (outputs_in pairs.now) }
{
    let mut replies: u32 = 0;
    for pair in pairs {
        if is_reply(pair) {
            replies += 1;
        }
    }
    replies
}

fn is_reply(pair: &FramePair<'_>) -> bool
    ensures { result ≡ is_reply (output_in pair.now) }
{
    matches!(pair.output.kind, OutKind::Reply)
}

// The finding of a run that fits.
fn finding_of(replies: u32, first: Option<FaultAt>) -> Finding
    requires { IfSome first (λ first. first.at < 2 ^ 32) }
    ensures { result ≡ finding_of replies first }
{
    match first {
        None => Finding::Yes { replies },
        Some(first) => finding_at(first.at as u32, first.fault),
    }
}

fn finding_at(at: u32, fault: Fault) -> Finding
    ensures { result ≡ finding_at at fault }
{
    match fault {
        Fault::Record { used } => Finding::Record { at, used },
        Fault::Clash => Finding::Clash { at },
    }
}
