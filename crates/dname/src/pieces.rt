ghost use Rattle.std.specs.Prelude.{◌≡◌, ◌+◌, ◌≤◌, min, length, take, drop, nat_eq};
ghost use Rattle.std.specs.Cmp.Lexicographic.{slice_cmp, pointwise};
ghost use Rattle.std.specs.Ordering.{nat_cmp};
ghost use Rattle.std.specs.Slice.Scan.{big_endian};
ghost use Rattle.dname.specs.Digest.{padded};

use std::cmp::Ordering;

// The order of two strings of octets, by pieces of 8 and 4 octets where both have so many. std's order of `&[u8]`
// answers the same, in three times as many instructions.
#[inline(always)]
pub(crate) fn octets_cmp(octets: &[u8], others: &[u8]) -> Ordering
    ensures { result ≡ slice_cmp nat_cmp octets.now others.now }
{
    let both = octets.len().min(others.len());
    if both >= 8 {
        long_cmp(octets, others, both)
    } else if both >= 4 {
        middle_cmp(octets, others, both)
    } else {
        short_cmp(octets, others, both)
    }
}

#[inline(always)]
pub(crate) fn octets_eq(octets: &[u8], others: &[u8]) -> bool
    ensures { result ≡ pointwise nat_eq octets.now others.now }
{
    octets.len() == others.len() && octets_cmp(octets, others).is_eq()
}

// The number that the first 8 octets spell, with zero octets where there are fewer.
#[inline(always)]
pub(crate) fn first_word(octets: &[u8]) -> u64
    ensures { result ≡ padded 8 0 octets.now }
{
    if octets.len() >= 8 {
        return word_at(octets, 0);
    }
    let mut bytes = [0; 8];
    bytes[..octets.len()].copy_from_slice(octets);
    u64::from_be_bytes(bytes)
}

// The order where both have 8 octets and more.
#[inline(always)]
fn long_cmp(octets: &[u8], others: &[u8], both: usize) -> Ordering
    requires least { both ≡ min (length octets.now) (length others.now) }
    requires long { 8 ≤ both }
    ensures { result ≡ slice_cmp nat_cmp octets.now others.now }
{
    let mut at = 0;
    while at < both - 8 {
        let (first, other) = (word_at(octets, at), word_at(others, at));
        if first != other {
            return first.cmp(&other);
        }
        at += 8;
    }
    let (last, another) = (word_at(octets, both - 8), word_at(others, both - 8));
    if last != another {
        return last.cmp(&another);
    }
    octets.len().cmp(&others.len())
}

// The order where both have 4 octets and one has fewer than 8.
#[inline(always)]
fn middle_cmp(octets: &[u8], others: &[u8], both: usize) -> Ordering
    requires least { both ≡ min (length octets.now) (length others.now) }
    requires middle { (4 ≤ both) × (both ≤ 8) }
    ensures { result ≡ slice_cmp nat_cmp octets.now others.now }
{
    let (first, other) = (half_at(octets, 0), half_at(others, 0));
    if first != other {
        return first.cmp(&other);
    }
    let (last, another) = (half_at(octets, both - 4), half_at(others, both - 4));
    if last != another {
        return last.cmp(&another);
    }
    octets.len().cmp(&others.len())
}

// The order, octet by octet.
#[inline(always)]
fn short_cmp(octets: &[u8], others: &[u8], both: usize) -> Ordering
    requires { both ≡ min (length octets.now) (length others.now) }
    ensures { result ≡ slice_cmp nat_cmp octets.now others.now }
{
    for at in 0..both {
        if octets[at] != others[at] {
            return octets[at].cmp(&others[at]);
        }
    }
    octets.len().cmp(&others.len())
}

#[inline(always)]
pub(crate) fn word_at(octets: &[u8], at: usize) -> u64
    requires { at + 8 ≤ length octets.now }
    ensures { result ≡ big_endian 0 (take 8 (drop at octets.now)) }
{
    u64::from_be_bytes([
        octets[at],
        octets[at + 1],
        octets[at + 2],
        octets[at + 3],
        octets[at + 4],
        octets[at + 5],
        octets[at + 6],
        octets[at + 7],
    ])
}

#[inline(always)]
fn half_at(octets: &[u8], at: usize) -> u32
    requires { at + 4 ≤ length octets.now }
    ensures { result ≡ big_endian 0 (take 4 (drop at octets.now)) }
{
    u32::from_be_bytes([octets[at], octets[at + 1], octets[at + 2], octets[at + 3]])
}
