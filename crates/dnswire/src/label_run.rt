ghost use Rattle.std.specs.Prelude.{◌≡◌, ◌+◌, ◌≤◌, ◌<◌, ℕ, List, IfSome, IfNone, length, drop};
ghost use Rattle.dname.specs.Name.{Label, wire_of};
ghost use Rattle.dnswire.specs.MessageName.{Reads};
ghost use Rattle.dnswire.specs.Runs.{IsRunEnd, IsRunAt, HasNoRoom, Stand};

use crate::name_labels::{Piece, piece_at};

/// A run of labels in a message (RFC 1035, section 4.1.4).
#[derive(Clone, Copy, Debug)]
pub(crate) struct Run {
    /// The octets of its labels, their length octets among them.
    pub(crate) size: usize,
    /// The offset that the pointer at its end goes to, before the run; none where a zero octet ends it.
    pub(crate) next: Option<usize>,
}

/// The run at the offset; none where no name can be read from there that has no more octets than these.
pub(crate) fn run_at(message: &[u8], at: usize, room: usize) -> Option<Run>
    requires { room ≤ 255 }
    ensures read { IfSome result (IsRunAt message.now at) }
    ensures labels { IfSome result (λ run. (labels : List Label)
        × Stand message.now at labels (at + run.size)) }
    ensures room { IfSome result (λ run. run.size < room) }
    ensures within { IfSome result (λ run. at + run.size ≤ length message.now) }
    ensures none { IfNone result (HasNoRoom message.now at room) }
{
    let Some(last) = labels_end(message, at, room) else {
        return None;
    };
    let size = last - at;
    match piece_at(message, last) {
        Some(Piece::End) => Some(Run { size, next: None }),
        Some(Piece::Pointer(next)) if next < at => Some(Run {
            size,
            next: Some(next),
        }),
        _ => None,
    }
}

// Where the labels from the offset on end; none where whatever is read from there has more octets than these.
fn labels_end(message: &[u8], at: usize, room: usize) -> Option<usize>
    requires { room ≤ 255 }
    ensures read { IfSome result (IsRunEnd message.now at) }
    ensures labels { IfSome result (λ last. (labels : List Label)
        × Stand message.now at labels last) }
    ensures room { IfSome result (λ last. last < at + room) }
    ensures none { IfNone result ((start end : ℕ) (labels : List Label)
        → Reads message.now start at labels end → room < length (wire_of labels)) }
{
    if at >= message.len() {
        return None;
    }
    let limit = message.len().min(at + room);
    let mut here = at;
    while here < limit {
        let size = usize::from(message[here]);
        if size == 0 || size > 63 {
            return Some(here);
        }
        here += 1 + size;
    }
    None
}
