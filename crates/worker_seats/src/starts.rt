//! Where a range of the frames begins: in the input, and in what each worker has written.
ghost use Rattle.std.specs.Prelude.{◌≡◌, ℕ, ◌+◌, ◌*◌, ◌<◌, ◌≤◌, All, length, drop};
ghost use Rattle.worker_seats.specs.Cuts.{AreCut, cuts_in, parts_of};
ghost use Rattle.worker_seats.specs.Frames.{AreSpelled};
ghost use Rattle.worker_seats.specs.Ranges.{ArePlacesAt, IsCutBefore};
ghost use Rattle.worker_seats.specs.declared.cut.TheConstants.{RANGE};

use crate::cut::Cut;
use crate::frames::Frames;
use crate::outputs::Outputs;
use dname::octets_from;

/// As many workers as a frame can name.
pub(crate) const WORKERS: usize = 256;

// How many ranges there are. Without frames there is one.
pub(crate) fn ranges_of(frames: &Frames<'_>, outputs: &Outputs) -> usize
    requires workers { All (λ frame. frame.worker < length outputs.now) frames.now }
    requires cuts { AreCut outputs.now frames.now }
    ensures many { result ≡ cuts_in (length frames.now) + 1 }
    ensures some { 1 < result → 0 < length outputs.now }
{
    if outputs.workers() == 0 {
        return 1;
    }
    outputs.cuts_of(0).len() + 1
}

// The cut before a range.
fn cut_before(cuts: &[Cut], range: usize) -> Cut
    requires { range ≤ length cuts.now }
    ensures { IsCutBefore range cuts.now result }
{
    if range == 0 {
        return Cut { from: 0, place: 0 };
    }
    cuts[range - 1]
}

// What is left of the input at the beginning of a range.
pub(crate) fn rest_at<'a>(frames: &Frames<'a>, outputs: &Outputs, range: usize) -> &'a [u8]
    requires workers { All (λ frame. frame.worker < length outputs.now) frames.now }
    requires cuts { AreCut outputs.now frames.now }
    requires range { range ≤ cuts_in (length frames.now) }
    ensures { AreSpelled result.now (drop (RANGE * range) frames.now) }
{
    if outputs.workers() == 0 {
        return frames.octets();
    }
    octets_from(frames.octets(), cut_before(outputs.cuts_of(0), range).from)
}

// Where each worker's next output lies at the beginning of a range.
pub(crate) fn places_at(frames: &Frames<'_>, outputs: &Outputs, range: usize) -> [usize; WORKERS]
    requires cuts { AreCut outputs.now frames.now }
    requires range { range ≤ cuts_in (length frames.now) }
    ensures room { length result ≡ 256 }
    ensures lie { ArePlacesAt (parts_of outputs.now) frames.now (RANGE * range) result }
{
    let mut places = [0usize; WORKERS];
    let mut worker: usize = 0;
    while worker < WORKERS {
        if worker == outputs.workers() {
            return places;
        }
        places[worker] = cut_before(outputs.cuts_of(worker), range).place;
        worker += 1;
    }
    places
}
