//! Sets that are the same in all.
ghost use Rattle.std.specs.Prelude.{◌≡◌, ◌↔◌, IsTrue};

use denial_records::KeptSet;
use dname::Packed;

/// Whether the two sets are the same, with their signatures, their lives and the moments of their expiry.
pub(crate) fn same_set(one: &KeptSet, other: &KeptSet) -> bool
    ensures { IsTrue result ↔ (one.now ≡ other.now) }
{
    same_numbers(one, other) && same_names(one, other) && same_data(one, other)
}

fn same_numbers(one: &KeptSet, other: &KeptSet) -> bool
    ensures { IsTrue result ↔ ((one.now.rtype ≡ other.now.rtype)
        × (one.now.life ≡ other.now.life)
        × (one.now.expiry ≡ other.now.expiry)) }
{
    one.rtype() == other.rtype() && one.life() == other.life() && one.expiry() == other.expiry()
}

fn same_names(one: &KeptSet, other: &KeptSet) -> bool
    ensures { IsTrue result ↔ ((one.now.zone ≡ other.now.zone)
        × (one.now.owner ≡ other.now.owner)) }
{
    one.zone() == other.zone() && one.owner() == other.owner()
}

fn same_data(one: &KeptSet, other: &KeptSet) -> bool
    ensures { IsTrue result ↔ ((one.now.items ≡ other.now.items)
        × (one.now.signatures ≡ other.now.signatures)) }
{
    same_strings(one.items(), other.items()) && same_strings(one.signatures(), other.signatures())
}

fn same_strings(one: Packed<'_>, other: Packed<'_>) -> bool
    ensures { IsTrue result ↔ (one ≡ other) }
{
    let (mut rest, mut others) = (one.again(), other.again());
    while let Some(piece) = rest.next() {
        match others.next() {
            Some(another) if piece == another => {}
            _ => return false,
        }
    }
    others.is_empty()
}
