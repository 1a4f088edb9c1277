ghost use Rattle.std.specs.Prelude.{◌≡◌, ℕ, ◌*◌, ◌<◌, ◌≤◌, List, ◌++◌, true, false, length, IfSome, IsSomeAnd, MatchOption};
ghost use Rattle.replay_meaning.specs.Frame.{Input, IsInput, input_of, input_spelling};
ghost use Rattle.replay_meaning.specs.Replay.{AreFrames, SpellsFrames};
ghost use Rattle.worker_seats.specs.Frames.{AreSpelled};

use dname::{octets_from, u16_at};
use replay_meaning::{FRAME_HEAD, Frame, read_frame};
use std::marker::Model;

/// Octets that spell frames, and lend their messages. It is seen as these frames, in order.
#[derive(Drop)]
pub struct Frames<'a> {
    octets: &'a [u8],
}

impl<'a> Model for Frames<'a> {
    ghost use Rattle.std.specs.Prelude.{List};
    ghost use Rattle.replay_meaning.specs.Frame.{Input};
    ghost use Rattle.worker_seats.specs.Frames.{AreSpelled, inputs_in};

    ghost Value = { List Input };

    ghost view = { λ f. inputs_in f.octets.now };

    ghost invariant = { λ f. AreSpelled f.octets.now (inputs_in f.octets.now) };
}

impl<'a> Frames<'a> {
    /// The frames of an input. None where the octets don't spell frames, each for one of so many workers.
    pub fn of(octets: &'a [u8], workers: u8) -> Option<Frames<'a>>
        ensures frames { MatchOption result (AreFrames workers octets.now → ⊥)
            (SpellsFrames workers octets.now) }

        // A frame has eight octets at least.
        ensures few { IfSome result (λ frames. 8 * length frames ≤ length octets.now) }
    {
        if are_frames(octets, workers) {
            Some(Frames { octets })
        } else {
            None
        }
    }

    pub(crate) fn octets(&self) -> &'a [u8]
        ensures { AreSpelled result.now self.now }
    {
        self.octets
    }
}

// Whether the octets spell frames, each for one of so many workers.
fn are_frames(octets: &[u8], workers: u8) -> bool
    ensures spelled { result ≡ true → AreFrames workers octets.now }
    ensures none { result ≡ false → AreFrames workers octets.now → ⊥ }
{
    let mut rest = octets;
    while !rest.is_empty() {
        let Some((frame, after)) = read_frame(rest) else {
            return false;
        };
        if frame.worker >= workers {
            return false;
        }
        rest = after;
    }
    true
}

// The frame at the front if it is the worker's, and the octets after it. Another's is passed over unread.
pub(crate) fn frame_for(octets: &[u8], worker: usize) -> Option<(Option<Frame<'_>>, &[u8])>
    ensures every { (input : Input) (rest : List ℕ) → IsInput input
        → octets.now ≡ input_spelling input ++ rest → IsSomeAnd result
        (λ read. (read.1.now ≡ rest) × MatchOption read.0 (input.worker ≡ worker → ⊥)
        (λ frame. (input_of frame ≡ input) × (input.worker ≡ worker))) }
    ensures shorter { IfSome result (λ read. length read.1.now < length octets.now) }
{
    let Some((owner, after)) = skip_frame(octets) else {
        return None;
    };
    if usize::from(owner) != worker {
        return Some((None, after));
    }
    let Some((frame, after)) = read_frame(octets) else {
        return None;
    };
    Some((Some(frame), after))
}

// The worker of the frame at the front, and the octets after it.
pub(crate) fn skip_frame(octets: &[u8]) -> Option<(u8, &[u8])>
    ensures every { (input : Input) (rest : List ℕ) → IsInput input
        → octets.now ≡ input_spelling input ++ rest → IsSomeAnd result
        (λ read. (read.0 ≡ input.worker) × (read.1.now ≡ rest)) }
    ensures shorter { IfSome result (λ read. length read.1.now < length octets.now) }
{
    if octets.len() < FRAME_HEAD {
        return None;
    }
    let size = usize::from(u16_at(octets, 6));
    let rest = octets_from(octets, FRAME_HEAD);
    if rest.len() < size {
        return None;
    }
    let (_, rest) = rest.split_at(size);
    Some((octets[1], rest))
}
