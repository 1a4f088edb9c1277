ghost use Rattle.std.specs.Prelude.{◌≡◌, ◌+◌, ◌<◌, ◌^◌, [], ◌∷◌, ◌++◌, length, IfOk, OnOk, OnErr};
ghost use Rattle.dname.specs.Pack.{pieces_of, three_of, nine_of, head_of, IsPacked};

use crate::stored_octets::StoredOctets;
use crate::{OutOfMemory, Packed};
use std::alloc::Global;
use std::marker::Model;

/// The least length that takes nine octets and not three.
const LONG: usize = 0xFF_0000;

/// Strings of octets that lie one behind another, seen as their list. A few octets lie in the value itself, more in one
/// block of memory.
#[derive(Debug, Drop)]
pub struct Pack {
    octets: StoredOctets,
}

impl Model for Pack {
    ghost use Rattle.std.specs.Prelude.{List, ℕ};
    ghost use Rattle.dname.specs.Pack.{pieces_of, IsPacked};

    ghost Value = { List (List ℕ) };

    ghost view = { λ p. pieces_of p.octets };

    ghost invariant = { λ p. IsPacked p.octets };
}

impl Pack {
    /// No strings. The allocator is kept for `push`, and no memory is taken.
    pub fn empty(alloc: Global) -> Pack
        ensures { result ≡ [] }
    {
        Pack {
            octets: StoredOctets::empty(alloc),
        }
    }

    /// Puts the string last.
    pub fn push(&mut self, piece: &[u8]) -> Result<(), OutOfMemory>
        ensures ok { OnOk result (self.new ≡ self.old ++ piece.now ∷ []) }
        ensures refused { OnErr result (self.new ≡ self.old) }
    {
        let size = piece.len();
        if size < LONG {
            self.append(&three_of(size), piece)
        } else {
            self.append(&nine_of(size), piece)
        }
    }

    /// How many octets the string takes in a pack, with those of its length.
    pub fn room_of(piece: &[u8]) -> usize
        ensures { result ≡ length (head_of (length piece.now)) + length piece.now }
    {
        let size = piece.len();
        if size < LONG { 3 + size } else { 9 + size }
    }

    // Puts the octets of the string's length last, and then the string.
    fn append(&mut self, head: &[u8], piece: &[u8]) -> Result<(), OutOfMemory>
        requires head { head.now ≡ head_of (length piece.now) }
        requires piece { length piece.now < 2 ^ 63 }
        ensures ok { OnOk result (self.new ≡ self.old ++ piece.now ∷ []) }
        ensures refused { OnErr result (self.new ≡ self.old) }
    {
        self.octets.append(head, piece)?;
        Ok(())
    }

    /// An equal pack.
    pub fn copy(&self, alloc: Global) -> Result<Pack, OutOfMemory>
        ensures { IfOk result (λ copy. copy ≡ self.now) }
    {
        Ok(Pack {
            octets: self.octets.copy(alloc)?,
        })
    }

    /// Its octets, each string after its length.
    pub fn octets(&self) -> &[u8]
        ensures packed { IsPacked result.now }
        ensures pieces { pieces_of result.now ≡ self.now }
    {
        self.octets.as_slice()
    }

    /// Its strings, lent.
    pub fn packed(&self) -> Packed<'_>
        ensures { result ≡ self.now }
    {
        Packed::of(self.octets())
    }
}

// The octets of a length below `LONG`, the high octet first.
fn three_of(size: usize) -> [u8; 3]
    requires { size < 16711680 }
    ensures { result ≡ three_of size }
{
    [
        (size / 0x1_0000) as u8,
        (size / 0x100 % 0x100) as u8,
        (size % 0x100) as u8,
    ]
}

// The octets of any other length.
fn nine_of(size: usize) -> [u8; 9]
    requires { size < 2 ^ 63 }
    ensures { result ≡ nine_of size }
{
    let [a, b, c, d, e, f, g, h] = (size as u64).to_be_bytes();
    [0xFF, a, b, c, d, e, f, g, h]
}
