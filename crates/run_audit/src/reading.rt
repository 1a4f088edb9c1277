ghost use Rattle.std.specs.Prelude.{◌≡◌, ℕ, List, ◌++◌, map, IfSome, IsNone, IfOk, MatchOption};
ghost use Rattle.replay_meaning.specs.Frame.{Input, input_of};
ghost use Rattle.replay_meaning.specs.OutFrame.{Output, output_of, output_spelling, IsOutput};
ghost use Rattle.run_audit.specs.Spelled.{AreInputs, AreOutputs};

use dname::{OutOfMemory, octets_from, u16_at, u32_at};
use replay_meaning::{FRAME_HEAD, Frame, OutFrame, OutKind, read_frame};
use std::alloc::Global;

/// The frames of an input. None where the octets don't spell frames.
pub(crate) fn read_inputs(
    alloc: Global,
    octets: &[u8],
) -> Result<Option<Vec<Frame<'_>>>, OutOfMemory>
    ensures { IfOk result (λ found. MatchOption found
        ((inputs : List Input) → AreInputs octets.now inputs → ⊥)
        (λ frames. AreInputs octets.now (map input_of frames.items))) }
{
    let mut frames = Vec::new(alloc);
    let mut rest = octets;
    while !rest.is_empty() {
        let Some((frame, after)) = read_frame(rest) else {
            return Ok(None);
        };
        frames.push(frame)?;
        rest = after;
    }
    Ok(Some(frames))
}

/// The frames of an output. None where the octets don't spell frames.
pub(crate) fn read_outputs(
    alloc: Global,
    octets: &[u8],
) -> Result<Option<Vec<OutFrame<'_>>>, OutOfMemory>
    ensures { IfOk result (λ found. MatchOption found
        ((outputs : List Output) → AreOutputs octets.now outputs → ⊥)
        (λ frames. AreOutputs octets.now (map output_of frames.items))) }
{
    let mut frames = Vec::new(alloc);
    let mut rest = octets;
    while !rest.is_empty() {
        let Some((frame, after)) = read_output(rest) else {
            return Ok(None);
        };
        frames.push(frame)?;
        rest = after;
    }
    Ok(Some(frames))
}

/// The output frame at the front, and the octets after it. None where no frame is there whole.
pub(crate) fn read_output(octets: &[u8]) -> Option<(OutFrame<'_>, &[u8])>
    ensures output { IfSome result (λ read. IsOutput (output_of read.0)) }
    ensures spelled { IfSome result (λ read.
        octets.now ≡ output_spelling (output_of read.0) ++ read.1.now) }
    ensures none { IsNone result → (output : Output) (rest : List ℕ)
        → IsOutput output → octets.now ≡ output_spelling output ++ rest → ⊥ }
{
    if octets.len() < FRAME_HEAD {
        return None;
    }
    let kind = match octets[0] {
        1 => OutKind::Reply,
        2 => OutKind::Forward,
        3 => OutKind::Stored,
        4 => OutKind::Refused,
        5 => OutKind::Dropped,
        6 => OutKind::Error,
        _ => return None,
    };
    let size = usize::from(u16_at(octets, 6));
    let rest = octets_from(octets, FRAME_HEAD);
    if rest.len() < size {
        return None;
    }
    let (body, rest) = rest.split_at(size);
    Some((
        OutFrame {
            kind,
            worker: octets[1],
            version: u32_at(octets, 2),
            body,
        },
        rest,
    ))
}
