ghost use Rattle.std.specs.Prelude.{◌≡◌, ℕ, ◌+◌, ◌<◌, ◌≤◌, List, ◌++◌, All, IfOk, OnOk, OnErr, length, drop};
ghost use Rattle.outside_core.specs.Fault.{Rose};
ghost use Rattle.replay_meaning.specs.OutFrame.{Output, IsOutput, output_spelling};
ghost use Rattle.worker_seats.specs.Gather.{Gathers, IsPartWritten};
ghost use Rattle.worker_seats.specs.Cuts.{AreCut, cuts_in, parts_of};
ghost use Rattle.worker_seats.specs.Merge.{AreWritten, AreWrittenInPart, BeginsWithFrame, CanBeMerged};
ghost use Rattle.worker_seats.specs.Ranges.{WritesInPart, WritesRest};

use crate::frames::{Frames, skip_frame};
use crate::gather::{flush, put};
use crate::outputs::Outputs;
use crate::rounds::write_rounds;
use crate::starts::{places_at, ranges_of, rest_at};
use dname::{octets_from, u16_at};
use outside_core::{Failed, Sink, write_whole};
use replay_meaning::FRAME_HEAD;
use std::alloc::Global;
use std::sync::Wait;
use std::thread::Threads;

/// Writes the output frames of all workers, in the order of the frames that they are for. After a failure a strict prefix of
/// them was written.
pub fn write_outputs<R: Threads + Wait + Sync, K: Sink>(
    rt: &R,
    alloc: Global,
    sink: &mut K,
    frames: &Frames<'_>,
    outputs: &Outputs,
) -> Result<(), Failed>
    requires workers { All (λ frame. frame.worker < length outputs.now) frames.now }
    requires merge { CanBeMerged (parts_of outputs.now) frames.now }
    requires cuts { AreCut outputs.now frames.now }
    ensures written { OnOk result (AreWritten (parts_of outputs.now) frames.now
        (K.written sink.old) (K.written sink.new)) }
    ensures faults { OnOk result (K.faults sink.new ≡ K.faults sink.old) }
    ensures part { OnErr result (AreWrittenInPart (parts_of outputs.now) frames.now
        (K.written sink.old) (K.written sink.new)) }
    ensures failed { OnErr result (Rose (K.faults sink.old) (K.faults sink.new)) }
{
    if outputs.workers() == 1 {
        return write_whole(sink, outputs.of_worker(0));
    }
    let ranges = ranges_of(frames, outputs);
    if ranges == 1 {
        return write_from(alloc, sink, frames, outputs, 0);
    }
    write_rounds(rt, alloc, sink, frames, outputs, ranges)
}

// Frame by frame from a range on, each from where it lies.
pub(crate) fn write_from<K: Sink>(
    alloc: Global,
    sink: &mut K,
    frames: &Frames<'_>,
    outputs: &Outputs,
    range: usize,
) -> Result<(), Failed>
    requires workers { All (λ frame. frame.worker < length outputs.now) frames.now }
    requires merge { CanBeMerged (parts_of outputs.now) frames.now }
    requires cuts { AreCut outputs.now frames.now }
    requires range { range ≤ cuts_in (length frames.now) }
    ensures written { OnOk result (WritesRest (parts_of outputs.now) frames.now range
        (K.written sink.old) (K.written sink.new)) }
    ensures faults { OnOk result (K.faults sink.new ≡ K.faults sink.old) }
    ensures part { OnErr result (WritesInPart (parts_of outputs.now) frames.now range
        (K.written sink.old) (K.written sink.new)) }
    ensures failed { OnErr result (Rose (K.faults sink.old) (K.faults sink.new)) }
{
    let mut gathered = Vec::new(alloc);
    let mut places = places_at(frames, outputs, range);
    let mut rest = rest_at(frames, outputs, range);
    while let Some((owner, after)) = skip_frame(rest) {
        let worker = usize::from(owner);
        let octets = outputs.of_worker(worker);
        match put_frame(sink, &mut gathered, octets, places[worker]) {
            Ok(next) => places[worker] = next,
            Err(failed) => return Err(failed),
        }
        rest = after;
    }
    flush(sink, &mut gathered)
}

// Puts the output frame at this place behind what was gathered, and gives the place after it.
fn put_frame<K: Sink>(
    sink: &mut K,
    gathered: &mut Vec<u8>,
    octets: &[u8],
    at: usize,
) -> Result<usize, Failed>
    requires within { at ≤ length octets.now }
    requires frame { BeginsWithFrame (drop at octets.now) }
    ensures put { IfOk result (λ next. (output : Output) (rest : List ℕ) → IsOutput output
        → drop at octets.now ≡ output_spelling output ++ rest
        → (next ≡ at + length (output_spelling output))
        × Gathers gathered.old.items (output_spelling output) gathered.new.items
        (K.written sink.old) (K.written sink.new)) }
    ensures part { OnErr result ((output : Output) (rest : List ℕ) → IsOutput output
        → drop at octets.now ≡ output_spelling output ++ rest
        → IsPartWritten (gathered.old.items ++ output_spelling output)
        (K.written sink.old) (K.written sink.new)) }
    ensures faults { OnOk result (K.faults sink.new ≡ K.faults sink.old) }
    ensures failed { OnErr result (Rose (K.faults sink.old) (K.faults sink.new)) }
{
    let frame = front_frame(octets_from(octets, at));
    match put(sink, gathered, frame) {
        Ok(()) => Ok(at + frame.len()),
        Err(failed) => Err(failed),
    }
}

// The output frame at the front.
pub(crate) fn front_frame(octets: &[u8]) -> &[u8]
    requires { BeginsWithFrame octets.now }
    ensures within { length result.now ≤ length octets.now }
    ensures front { (output : Output) (rest : List ℕ) → IsOutput output
        → octets.now ≡ output_spelling output ++ rest → result.now
        ≡ output_spelling output }
{
    let size = FRAME_HEAD + usize::from(u16_at(octets, 6));
    let (frame, _) = octets.split_at(size);
    frame
}
