ghost use Rattle.std.specs.Prelude.{◌≡◌, ℕ, ◌<◌, List, length, map, get_or, Some, None, IsTrue, ◌↔◌, IfOk, MatchOption};
ghost use Rattle.replay_meaning.specs.Frame.{input_of};
ghost use Rattle.replay_meaning.specs.OutFrame.{output_of};
ghost use Rattle.run_audit.specs.Clauses.{ArePaired, IsOneWorkers, MOST_WORKERS};
ghost use Rattle.run_audit.specs.Pairs.{AreAtPlaces, AreMatched, inputs_in, outputs_in, is_put, rank_of};

use dname::OutOfMemory;
use replay_meaning::{Frame, OutFrame, OutKind};
use std::alloc::Global;

/// As many workers as a run can have.
const MOST_WORKERS: u8 = 32;

/// An input frame, and the output frame that a recorded run has for it.
#[derive(Clone, Copy, Debug)]
pub(crate) struct FramePair<'a> {
    /// How many input frames stand before it.
    pub(crate) at: usize,
    pub(crate) frame: Frame<'a>,
    pub(crate) output: OutFrame<'a>,
}

/// The frames in pairs, in their order. None where they can't be paired.
pub(crate) fn pairs_of<'a>(
    alloc: Global,
    frames: &[Frame<'a>],
    outputs: &[OutFrame<'a>],
) -> Result<Option<Vec<FramePair<'a>>>, OutOfMemory>
    ensures { IfOk result (λ found. MatchOption found
        (ArePaired MOST_WORKERS (map input_of frames.now) (map output_of outputs.now) → ⊥)
        (λ pairs. (inputs_in pairs.items ≡ map input_of frames.now)
        × (outputs_in pairs.items ≡ map output_of outputs.now) × AreMatched pairs.items
        × AreAtPlaces pairs.items)) }
{
    if frames.len() != outputs.len() {
        return Ok(None);
    }
    let mut pairs = Vec::new(alloc);
    for at in 0..frames.len() {
        let frame = frames[at];
        let output = outputs[at];
        if !are_one_workers(&frame, &output) {
            return Ok(None);
        }
        pairs.push(FramePair { at, frame, output })?;
    }
    Ok(Some(pairs))
}

// Whether the output frame is of the input frame's worker, which is one of 32.
fn are_one_workers(frame: &Frame<'_>, output: &OutFrame<'_>) -> bool
    ensures { IsTrue result
        ↔ IsOneWorkers MOST_WORKERS (input_of frame.entry.now) (output_of output.now) }
{
    frame.worker < MOST_WORKERS && output.worker == frame.worker
}

/// Whether the pair's output frame places a batch.
pub(crate) fn is_put(pair: &FramePair<'_>) -> bool
    ensures { result ≡ is_put pair.now }
{
    matches!(pair.output.kind, OutKind::Stored)
}

/// By which pairs are put in the order of versions.
pub(crate) fn rank_of(pair: &FramePair<'_>) -> u64
    ensures { result ≡ rank_of pair.now }
{
    let met = if is_put(pair) { 0 } else { 1 };
    2 * u64::from(pair.output.version) + met
}
