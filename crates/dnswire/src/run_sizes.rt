ghost use Rattle.std.specs.Prelude.{◌≡◌, ◌+◌, ◌≤◌, ◌<◌, ℕ, List, IfSome, IfNone, length};
ghost use Rattle.dname.specs.Name.{Label, wire_of};
ghost use Rattle.dnswire.specs.MessageName.{Reads};
ghost use Rattle.dnswire.specs.Runs.{AreRunSizes, HasEnd, HasNoRoom, IsRunAt, Stand};

use crate::label_run::Run;
use crate::name_labels::{Piece, piece_at};
use crate::name_skip::known_size;

/// The run at the offset, as `run_at` gives it. The sizes of runs are kept by their offsets, so that no label is passed over
/// twice.
pub(crate) fn run_by(message: &[u8], at: usize, room: usize, sizes: &mut Vec<u8>) -> Option<Run>
    requires room { room ≤ 255 }
    requires sizes { AreRunSizes message.now sizes.old.items }
    ensures read { IfSome result (IsRunAt message.now at) }
    ensures labels { IfSome result (λ run. (labels : List Label)
        × Stand message.now at labels (at + run.size)) }
    ensures room { IfSome result (λ run. run.size < room) }
    ensures within { IfSome result (λ run. at + run.size ≤ length message.now) }
    ensures none { IfNone result (HasNoRoom message.now at room) }
    ensures sizes { AreRunSizes message.now sizes.new.items }
{
    let Some(last) = end_by(message, at, room, sizes.as_mut_slice()) else {
        return None;
    };
    let size = last - at;
    match piece_at(message, last) {
        Some(Piece::End) => Some(Run { size, next: None }),
        Some(Piece::Pointer(next)) if next < at => Some(Run {
            size,
            next: Some(next),
        }),
        _ => None,
    }
}

// Where the labels from the offset on end; none where whatever is read from there has more octets than these. Each of the
// labels before one that is known becomes known.
fn end_by(message: &[u8], at: usize, room: usize, sizes: &mut [u8]) -> Option<usize>
    requires room { room ≤ 255 }
    requires sizes { AreRunSizes message.now sizes.old }
    ensures read { IfSome result (HasEnd message.now at) }
    ensures room { IfSome result (λ last. last < at + room) }
    ensures none { IfNone result ((start end : ℕ) (labels : List Label)
        → Reads message.now start at labels end → room < length (wire_of labels)) }
    ensures sizes { AreRunSizes message.now sizes.new }
{
    if room == 0 || at >= message.len() {
        return None;
    }
    let known = known_size(sizes, at);
    if known >= room {
        return None;
    }
    if known > 0 {
        return Some(at + known);
    }
    let size = usize::from(message[at]);
    if size == 0 || size > 63 {
        return Some(at);
    }
    if size >= room {
        return None;
    }
    let next = at + (1 + size);
    let Some(last) = end_by(message, next, room - (1 + size), sizes) else {
        return None;
    };
    if at < sizes.len() {
        sizes[at] = (last - at) as u8;
    }
    Some(last)
}
