ghost use Rattle.std.specs.Prelude.{◌≡◌, ◌+◌, ◌<◌, ◌≤◌, length, drop, IfOk};
ghost use Rattle.dname.specs.Pack.{head_of};
ghost use Rattle.dname.specs.Name.{labels_of, IsWire};
ghost use Rattle.denial_records.specs.TypeSet.{types_in, IsKept};
ghost use Rattle.denial_records.specs.Kept.{piece_at, kept_offset, HasOffsets};

use crate::LentTypes;
use dname::{LentName, OutOfMemory, Pack, Packed, octets_from};
use std::alloc::Global;
use std::marker::Model;

/// The strings of a kept record, seen as their list. Beside them lie the offsets at which those at places 1 to `N` begin, so
/// that a string is read without those before it. An offset that has no place in 32 bits is the greatest number of them, and
/// the strings behind it are gone through.
#[derive(Debug, Drop)]
pub(crate) struct KeptStrings<const N: usize> {
    offsets: [u32; N],
    pack: Pack,
}

impl<const N: usize> Model for KeptStrings<N> {
    ghost use Rattle.std.specs.Prelude.{List, ℕ};
    ghost use Rattle.denial_records.specs.Kept.{HasOffsets};

    ghost Value = { List (List ℕ) };

    ghost view = { λ s. s.pack };

    ghost invariant = { λ s. HasOffsets N s.offsets s.pack };
}

impl<const N: usize> KeptStrings<N> {
    /// The strings of the pack.
    pub(crate) fn of(pack: Pack) -> KeptStrings<N>
        ensures { result ≡ pack }
    {
        let offsets = offsets_in(&pack);
        KeptStrings { offsets, pack }
    }

    /// Equal strings.
    pub(crate) fn copy(&self, alloc: Global) -> Result<KeptStrings<N>, OutOfMemory>
        ensures { IfOk result (λ copy. copy ≡ self.now) }
    {
        Ok(KeptStrings {
            offsets: self.offsets,
            pack: self.pack.copy(alloc)?,
        })
    }

    /// The strings behind the first `count`.
    #[inline(always)]
    pub(crate) fn behind(&self, count: usize) -> Packed<'_>
        requires { count ≤ N }
        ensures { result ≡ drop count self.now }
    {
        let octets = self.pack.octets();
        if count == 0 {
            return Packed::of(octets);
        }
        let offset = self.offsets[count - 1];
        if offset == u32::MAX {
            return Packed::of(octets).behind(count);
        }
        Packed::of(octets_from(octets, offset as usize))
    }

    /// The string at place `i`.
    #[inline(always)]
    pub(crate) fn get(&self, i: usize) -> &[u8]
        requires has_offset { i ≤ N }
        requires there { i < length self.now }
        ensures { result.now ≡ piece_at self.now i }
    {
        self.behind(i).get(0)
    }

    /// The name whose wire form is the string at place `i`.
    #[inline(always)]
    pub(crate) fn name(&self, i: usize) -> LentName<'_>
        requires has_offset { i ≤ N }
        requires there { i < length self.now }
        requires name { IsWire (piece_at self.now i) }
        ensures { result ≡ labels_of (piece_at self.now i) }
    {
        LentName::of(self.get(i))
    }

    /// The types whose type bit maps are the string at place `i`.
    #[inline(always)]
    pub(crate) fn types(&self, i: usize) -> LentTypes<'_>
        requires has_offset { i ≤ N }
        requires there { i < length self.now }
        requires types { IsKept (piece_at self.now i) }
        ensures { result ≡ types_in (piece_at self.now i) }
    {
        LentTypes::of(self.get(i))
    }
}

// Where the strings behind the first, the second and so on begin.
fn offsets_in<const N: usize>(pack: &Pack) -> [u32; N]
    ensures { HasOffsets N result pack.now }
{
    let mut offsets = [0; N];
    let mut rest = pack.packed();
    let mut offset = 0;
    'strings: for i in 0..N {
        if let Some(piece) = rest.next() {
            offset = offset_behind(offset, piece);
        }
        offsets[i] = offset;
    }
    offsets
}

// Where the string behind one that begins at the offset begins.
fn offset_behind(offset: u32, piece: &[u8]) -> u32
    ensures { result
        ≡ kept_offset (offset + (length (head_of (length piece.now)) + length piece.now)) }
{
    let behind = u64::from(offset) + Pack::room_of(piece) as u64;
    if behind < u64::from(u32::MAX) {
        behind as u32
    } else {
        u32::MAX
    }
}
