ghost use Rattle.std.specs.Prelude.{◌≡◌, ◌≤◌, [], ◌++◌, length, take, drop, min, Some, None, Ok, IsOk, IfOk};
ghost use Rattle.outside_core.specs.SteadySource.{supply_of, after_taking};

use crate::slices::rest_of;
use crate::{Failed, Sink, Source};
use std::marker::Model;

/// A source in memory that never fails. What the rest of a buffer holds after a read is what it
/// held before.
#[derive(Debug, Drop)]
pub struct SteadySource {
    contents: Vec<u8>,
    position: usize,
}

impl Model for SteadySource {
    ghost use Rattle.std.specs.Prelude.{◌≤◌, length, take, drop};
    ghost use Rattle.outside_core.specs.SteadySource.{Supply};

    ghost Value = { Supply };

    ghost view = { λ s. record {
      taken = take s.position s.contents.items;
      left = drop s.position s.contents.items;
    } };

    ghost invariant = { λ s. s.position ≤ length s.contents.items };
}

impl SteadySource {
    pub fn of(contents: Vec<u8>) -> SteadySource
        ensures { result ≡ supply_of contents.items }
    {
        SteadySource {
            contents,
            position: 0,
        }
    }
}

impl Source for SteadySource {
    ghost taken = { λ s. Some s.taken };

    ghost left = { λ s. Some s.left };

    ghost faults = { λ _. 0 };

    #[tactic(auto, using(crate::proofs::Pieces::taking))]
    fn read(&mut self, into: &mut [u8]) -> Result<usize, Failed>
        ensures steady { IsOk result }
        ensures within { IfOk result (λ n. n ≤ length into.old) }
        ensures taken { IfOk result (λ n. self.new.taken ≡ self.old.taken ++ take n into.new) }
        ensures left { IfOk result (λ n. self.old.left ≡ take n into.new ++ self.new.left) }
        ensures end { IfOk result
            (λ n. n ≡ 0 → 1 ≤ length into.old → self.new.left ≡ []) }

        // Beyond the trait: the answer, the buffer and the source after the call follow from it.
        ensures count { IfOk result (λ n. n ≡ min (length into.old) (length self.old.left)) }
        ensures buffer { IfOk result (λ n. into.new ≡ take n self.old.left ++ drop n into.old) }
        ensures after { IfOk result (λ n. self.new ≡ after_taking n self.old) }
    {
        let count = copy_front(rest_of(&self.contents, self.position), into);
        self.position += count;
        Ok(count)
    }
}

// Copies as many octets as both have, and gives their number.
fn copy_front(from: &[u8], into: &mut [u8]) -> usize
    ensures count { result ≡ min (length into.old) (length from.now) }
    ensures front { take result into.new ≡ take result from.now }
    ensures copied { into.new ≡ take result from.now ++ drop result into.old }
{
    let count = into.len().min(from.len());
    into[..count].copy_from_slice(&from[..count]);
    count
}

/// A sink that takes each piece whole, keeps nothing, and never fails.
#[derive(Clone, Copy, Debug, Default)]
pub struct SteadySink;

impl SteadySink {
    pub fn new() -> SteadySink {
        SteadySink
    }
}

impl Sink for SteadySink {
    ghost written = { λ _. None };

    ghost faults = { λ _. 0 };

    fn write(&mut self, piece: &[u8]) -> Result<usize, Failed>
        requires { 1 ≤ length piece.now }
        ensures steady { IsOk result }
        ensures whole { result ≡ Ok (length piece.now) }
    {
        Ok(piece.len())
    }
}
