ghost use Rattle.std.specs.Prelude.{◌≡◌, ◌↔◌, ◌⊎◌, ℕ, ◌+◌, ◌*◌, ◌<◌, ◌≤◌, true, false, List, length, IsTrue, IfOk, IfSome, IfNone, IsErrOf, MatchOption, Ok, Err, Contains};
ghost use Rattle.denial_records.specs.declared.type_set.TheConstants.{MAX_BITMAP};
ghost use Rattle.denial_records.specs.TypeSet.{IsTypeMap, IsNoTypeMap, IsTypeSet, BeginsWith, IsBitmap, has_bit, types_in, IsKept};

use dname::{Octets, OutOfMemory};
use std::alloc::Global;
use std::marker::Model;

/// The octets of a bitmap with a bit for each type of its window (RFC 4034, section 4.1.2).
const MAX_BITMAP: usize = 32;

/// Why no set of types came of octets.
#[derive(Clone, Copy, Debug, PartialEq, Eq)]
pub enum MapFault {
    /// The octets aren't type bit maps.
    BadMap,
    /// There is no memory left.
    OutOfMemory,
}

/// A set of record types, seen as the rising list of their numbers. It keeps the octets of its type bit maps.
#[derive(Debug, Drop)]
pub struct TypeSet {
    octets: Octets,
}

impl Model for TypeSet {
    ghost use Rattle.std.specs.Prelude.{List, ℕ};
    ghost use Rattle.denial_records.specs.TypeSet.{types_in, IsKept};

    ghost Value = { List ℕ };

    ghost view = { λ s. types_in s.octets };

    ghost invariant = { λ s. IsKept s.octets };
}

impl TypeSet {
    /// The types that the octets stand for. No octets at all are the empty set.
    pub fn read(alloc: Global, octets: &[u8]) -> Result<TypeSet, MapFault>
        ensures read { IfOk result (IsTypeMap octets.now) }
        ensures bad_map { IsErrOf result MapFault.BadMap ↔ IsNoTypeMap octets.now }
        ensures out_of_memory { IsErrOf result MapFault.OutOfMemory
            → (types : List ℕ) × IsTypeMap octets.now types }
        ensures set { IfOk result IsTypeSet }

        // Type bit maps are read, where there is memory.
        ensures every_map { (types : List ℕ) → IsTypeMap octets.now types
            → (result ≡ Ok types) ⊎ (result ≡ Err MapFault.OutOfMemory) }
    {
        if !is_type_map(octets) {
            return Err(MapFault::BadMap);
        }
        match Octets::of(alloc, octets) {
            Ok(octets) => Ok(TypeSet { octets }),
            Err(_) => Err(MapFault::OutOfMemory),
        }
    }

    /// The set, lent.
    pub fn lent(&self) -> LentTypes<'_>
        ensures { result ≡ self.now }
    {
        LentTypes::of(self.octets.as_slice())
    }

    /// The octets of its type bit maps.
    pub fn octets(&self) -> &[u8]
        ensures types { types_in result.now ≡ self.now }
        ensures kept { IsKept result.now }
    {
        self.octets.as_slice()
    }

    /// Whether the type is in the set. It looks at each block once at most.
    pub fn has(&self, rtype: u16) -> bool
        ensures answer { IsTrue result ↔ Contains self.now rtype }
        ensures set { IsTypeSet self.now }
    {
        self.lent().has(rtype)
    }

    /// An equal set.
    pub fn copy(&self, alloc: Global) -> Result<TypeSet, OutOfMemory>
        ensures { IfOk result (λ copy. copy ≡ self.now) }
    {
        Ok(TypeSet {
            octets: Octets::of(alloc, self.octets.as_slice())?,
        })
    }
}

/// A set of record types whose octets are lent, seen as a `TypeSet` is.
#[derive(Debug, Drop)]
pub struct LentTypes<'a> {
    octets: &'a [u8],
}

impl<'a> Model for LentTypes<'a> {
    ghost use Rattle.std.specs.Prelude.{List, ℕ};
    ghost use Rattle.denial_records.specs.TypeSet.{types_in, IsKept};

    ghost Value = { List ℕ };

    ghost view = { λ s. types_in s.octets.now };

    ghost invariant = { λ s. IsKept s.octets.now };
}

impl<'a> LentTypes<'a> {
    /// The set of type bit maps as a `TypeSet` keeps them.
    pub fn of(octets: &'a [u8]) -> LentTypes<'a>
        requires { IsKept octets.now }
        ensures { result ≡ types_in octets.now }
    {
        LentTypes { octets }
    }

    /// Whether the type is in the set. It looks at each block once at most.
    pub fn has(&self, rtype: u16) -> bool
        ensures answer { IsTrue result ↔ Contains self.now rtype }
        ensures set { IsTypeSet self.now }
    {
        let (window, bit) = ((rtype / 256) as u8, usize::from(rtype % 256));
        let mut rest = self.octets;
        while let Some((block, after)) = first_block(rest, 0) {
            if block.window == window {
                return has_bit(block.bitmap, bit);
            }
            rest = after;
        }
        false
    }

    /// The least type of the set that isn't below this one. It looks at each block once at most.
    pub fn next_from(&self, rtype: u16) -> Option<u16>
        ensures next { IfSome result (λ next. Contains self.now next × (rtype ≤ next)
            × ((other : ℕ) → Contains self.now other → rtype ≤ other → next ≤ other)) }
        ensures none { IfNone result ((other : ℕ) → Contains self.now other → other < rtype) }
        ensures set { IsTypeSet self.now }
    {
        let mut rest = self.octets;
        while let Some((block, after)) = first_block(rest, 0) {
            let begin = 256 * u16::from(block.window);
            let from = usize::from(rtype.saturating_sub(begin));
            if let Some(bit) = first_bit(block.bitmap, from) {
                return Some(begin + bit as u16);
            }
            rest = after;
        }
        None
    }
}

// A window's number and its bitmap.
#[derive(Drop)]
struct Block<'a> {
    window: u8,
    bitmap: &'a [u8],
}

// Whether the octets are type bit maps.
fn is_type_map(octets: &[u8]) -> bool
    ensures { IsTrue result ↔ ((types : List ℕ) × IsTypeMap octets.now types) }
{
    let mut least = 0;
    let mut rest = octets;
    while !rest.is_empty() {
        match first_block(rest, least) {
            Some((block, after)) => {
                least = u16::from(block.window) + 1;
                rest = after;
            }
            None => return false,
        }
    }
    true
}

// The block at the front, whose window is `least` or a later one, and what follows it.
fn first_block(octets: &[u8], least: u16) -> Option<(Block<'_>, &[u8])>
    ensures { MatchOption result
        ((window : ℕ) (bitmap rest : List ℕ) → ¬ BeginsWith least octets.now window bitmap rest)
        (λ front. BeginsWith least octets.now front.0.window front.0.bitmap.now front.1.now) }
{
    let (window, after) = octets.split_first()?;
    let (size, after) = after.split_first()?;
    let (window, size) = (*window, usize::from(*size));
    if u16::from(window) < least || size > after.len() {
        return None;
    }
    let (bitmap, rest) = after.split_at(size);
    if is_bitmap(bitmap) {
        Some((Block { window, bitmap }, rest))
    } else {
        None
    }
}

// Whether a bitmap has 1 to 32 octets, the last of them not zero.
fn is_bitmap(bitmap: &[u8]) -> bool
    ensures { IsTrue result ↔ IsBitmap bitmap.now }
{
    match bitmap.last() {
        Some(last) => bitmap.len() <= MAX_BITMAP && *last != 0,
        None => false,
    }
}

// Whether the bit is set, counted from the high bit of the first octet.
fn has_bit(bitmap: &[u8], bit: usize) -> bool
    ensures { result ≡ has_bit bitmap.now bit }
{
    match bitmap.get(bit / 8) {
        Some(octet) => *octet & (0x80 >> (bit % 8)) != 0,
        None => false,
    }
}

// The first bit that is set, from this one on.
fn first_bit(bitmap: &[u8], from: usize) -> Option<usize>
    requires { length bitmap.now ≤ MAX_BITMAP }
    ensures some { IfSome result (λ bit. (from ≤ bit) × (bit < 8 * length bitmap.now)
        × (has_bit bitmap.now bit ≡ true)
        × ((other : ℕ) → from ≤ other → other < bit → has_bit bitmap.now other ≡ false)) }
    ensures none { IfNone result ((other : ℕ) → from ≤ other → other < 8 * length bitmap.now
        → has_bit bitmap.now other ≡ false) }
{
    for bit in from..8 * bitmap.len() {
        if has_bit(bitmap, bit) {
            return Some(bit);
        }
    }
    None
}
