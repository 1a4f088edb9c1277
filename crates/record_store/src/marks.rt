//! The numbers by which sets are sought.
ghost use Rattle.std.specs.Prelude.{◌≡◌, ◌<◌, ◌≤◌, ◌*◌, ◌+◌, ◌-◌, ◌/◌, ◌%◌, ◌^◌, length, drop, fold};
ghost use Rattle.record_store.specs.Marks.{mixed, word_of, words_mixed, hash_of, type_part, owner_number, set_number};

use dname::types::CNAME_TYPE;
use dname::{LentName, Name, octets_from};

// An odd number, as near to 2 ^ 64 over the golden ratio as one is.
const FACTOR: u64 = 0x9E37_79B9_7F4A_7C15;

/// The number of a set: 16 bits of its zone, 32 bits of its owner name, and its type. No number of 64 bits that rises
/// with the key tells names of one zone apart; the zone's part keeps its sets together, and the owner name's those of one name.
pub(crate) fn set_number(zone: &Name, owner: &Name, rtype: u16) -> u64
    ensures { result ≡ set_number zone.now owner.now rtype }
{
    lent_set_number(&zone.lent(), &owner.lent(), rtype)
}

/// The same, of names that are lent.
pub(crate) fn lent_set_number(zone: &LentName<'_>, owner: &LentName<'_>, rtype: u16) -> u64
    ensures { result ≡ set_number zone.now owner.now rtype }
{
    lent_owner_number(zone, owner) + type_part(rtype)
}

/// The least number that a set of the owner name may have, which is that of its CNAME set.
pub(crate) fn owner_number(zone: &Name, owner: &Name) -> u64
    ensures value { result ≡ owner_number zone.now owner.now }
    ensures room { result + 2 ^ 16 ≤ 2 ^ 64 }
{
    lent_owner_number(&zone.lent(), &owner.lent())
}

fn lent_owner_number(zone: &LentName<'_>, owner: &LentName<'_>) -> u64
    ensures value { result ≡ owner_number zone.now owner.now }
    ensures room { result + 2 ^ 16 ≤ 2 ^ 64 }
{
    zone_part(zone.wire()) * 0x1_0000_0000_0000 + owner_part(owner.wire()) * 0x1_0000
}

// By the apex's wire form.
fn zone_part(apex: &[u8]) -> u64
    ensures value { result ≡ hash_of apex.now % 2 ^ 16 }
    ensures small { result < 2 ^ 16 }
{
    hash_of(apex) % 0x1_0000
}

fn owner_part(owner: &[u8]) -> u64
    ensures value { result ≡ hash_of owner.now % 2 ^ 32 }
    ensures small { result < 2 ^ 32 }
{
    hash_of(owner) % 0x1_0000_0000
}

/// A CNAME set comes first of the owner name's.
pub(crate) fn type_part(rtype: u16) -> u64
    ensures value { result ≡ type_part rtype }
    ensures small { result < 2 ^ 16 }
{
    u64::from(rtype.wrapping_sub(CNAME_TYPE))
}

// Word by word, and then the last eight octets, which may overlap the word before them: one multiplication for eight octets.
#[tactic(auto, unfolding(crate::specs::Marks::hash_of))]
fn hash_of(octets: &[u8]) -> u64
    ensures { result ≡ hash_of octets.now }
{
    if octets.len() < 8 {
        return short_hash(octets);
    }
    mixed(words_mixed(octets), last_word(octets))
}

// All whole words of eight octets.
#[tactic(auto, using(crate::proofs::MarkLemmas::one_word))]
fn words_mixed(octets: &[u8]) -> u64
    ensures { result ≡ words_mixed (length octets.now / 8) octets.now 0 }
{
    let mut hash = 0;
    let mut rest = octets;
    while rest.len() >= 8 {
        hash = mixed(hash, word_of(rest));
        rest = octets_from(rest, 8);
    }
    hash
}

// Octet by octet, of fewer than eight.
fn short_hash(octets: &[u8]) -> u64
    ensures { result ≡ fold mixed 0 octets.now }
{
    let mut hash = 0;
    for octet in octets {
        hash = mixed(hash, u64::from(*octet));
    }
    hash
}

// The last eight octets as one number.
fn last_word(octets: &[u8]) -> u64
    requires { 8 ≤ length octets.now }
    ensures { result ≡ word_of (drop (length octets.now - 8) octets.now) }
{
    word_of(octets_from(octets, octets.len() - 8))
}

// The first eight octets as one number.
fn word_of(octets: &[u8]) -> u64
    requires { 8 ≤ length octets.now }
    ensures { result ≡ word_of octets.now }
{
    u64::from_le_bytes([
        octets[0], octets[1], octets[2], octets[3], octets[4], octets[5], octets[6], octets[7],
    ])
}

// One number more. The upper half of the product, on which more of the bits tell, comes to lie below.
#[tactic(auto, unfolding(crate::specs::Marks::mixed))]
fn mixed(hash: u64, number: u64) -> u64
    ensures { result ≡ mixed hash number }
{
    hash.wrapping_add(number)
        .wrapping_mul(FACTOR)
        .rotate_left(32)
}
