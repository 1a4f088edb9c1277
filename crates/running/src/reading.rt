ghost use Rattle.std.specs.Prelude.{◌≡◌, ℕ, ◌+◌, ◌≤◌, List, [], ◌++◌, length, IfOk, IfSome, OnErr, IsErrOf};
ghost use Rattle.outside_core.specs.Told.{prepend_told};
ghost use Rattle.outside_core.specs.Fault.{Rose};
ghost use Rattle.running.specs.Run.{HasGiven};
ghost use Rattle.running.specs.declared.reading.TheConstants.{MAX_SOURCE};

use outside_core::Source;
use std::alloc::Global;

/// The octets of the longest input.
pub const MAX_INPUT: usize = 67_108_864;

/// The octets of the longest source of an audit, which has a zone, an input and an output.
pub const MAX_SOURCE: usize = 268_435_456;

/// The octets that one call of the source asks for at most.
const PIECE: usize = 65_536;

#[derive(Clone, Copy, Debug, PartialEq, Eq)]
pub enum ReadError {
    Failed,
    OutOfMemory,
}

/// Reads the source to its end, or to one octet more than so many.
pub fn read_whole<S: Source>(
    alloc: Global,
    source: &mut S,
    most: usize,
) -> Result<Vec<u8>, ReadError>
    requires { most ≤ MAX_SOURCE }
    ensures left { IfOk result (λ input.
        S.left source.old ≡ prepend_told input.items (S.left source.new)) }
    ensures end { IfOk result (λ input.
        length input.items ≤ most → IfSome (S.left source.new) (λ left. left ≡ [])) }
    ensures most { IfOk result (λ input. length input.items ≤ most + 1) }
    ensures faults { IfOk result (λ _. S.faults source.new ≡ S.faults source.old) }
    ensures failed { IsErrOf result ReadError.Failed
        → Rose (S.faults source.old) (S.faults source.new) }
    ensures part { OnErr result (HasGiven (S.left source.old) (S.left source.new)) }
{
    let mut input = Vec::new(alloc);
    // So that it is never moved; without that room it grows.
    let _ = input.reserve_exact(most + 1);
    let mut piece = [0; PIECE];
    while input.len() <= most {
        match read_piece(source, &mut piece, &mut input, most) {
            Ok(0) => break,
            Ok(_) => {}
            Err(error) => return Err(error),
        }
    }
    Ok(input)
}

// Puts the source's next octets at the end of the input, by way of the piece; how many, and 0 at the source's end.
fn read_piece<S: Source>(
    source: &mut S,
    piece: &mut [u8; PIECE],
    input: &mut Vec<u8>,
    most: usize,
) -> Result<usize, ReadError>
    requires { (length input.old.items ≤ most) × (most ≤ MAX_SOURCE) }
    ensures piece { IfOk result (λ count. (piece : List ℕ) × (length piece ≡ count)
        × (input.new.items ≡ input.old.items ++ piece)
        × (S.left source.old ≡ prepend_told piece (S.left source.new))) }
    ensures end { IfOk result (λ count.
        count ≡ 0 → IfSome (S.left source.new) (λ left. left ≡ [])) }
    ensures most { IfOk result (λ _. length input.new.items ≤ most + 1) }
    ensures faults { IfOk result (λ _. S.faults source.new ≡ S.faults source.old) }
    ensures failed { IsErrOf result ReadError.Failed
        → Rose (S.faults source.old) (S.faults source.new) }
    ensures part { OnErr result (HasGiven (S.left source.old) (S.left source.new)) }
{
    let room = (most + 1 - input.len()).min(PIECE);
    let Ok(count) = source.read(&mut piece[..room]) else {
        return Err(ReadError::Failed);
    };
    match input.extend_from_slice(&piece[..count]) {
        Ok(()) => Ok(count),
        Err(_) => Err(ReadError::OutOfMemory),
    }
}
