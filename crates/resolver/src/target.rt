//! The name that a DNAME makes of one below its owner.
ghost use Rattle.std.specs.Prelude.{◌≡◌, ◌+◌, ◌-◌, ◌≤◌, ◌++◌, length, take};
ghost use Rattle.dname.specs.Name.{IsName, IsUnder};
ghost use Rattle.dname.specs.Read.{written};
ghost use Rattle.resolver.specs.Target.{target_of};
ghost use Rattle.resolver.specs.Lent.{made_by};

use arrayvec::ArrayVec;
use denial_records::KeptSet;
use dname::{LentName, MAX_WIRE, Name, one_name_in};

/// What the DNAME set makes of a name below its owner; none where its data isn't one name, or where that would be too long.
pub(crate) fn made_by(name: &Name, set: &KeptSet) -> Option<Name>
    ensures { result ≡ made_by name.now set.now }
{
    let owner = set.owner();
    if !name.lent().is_under(&owner) {
        return None;
    }
    let suffix = one_name_in(set.items())?;
    target_of(name, &owner, &suffix)
}

/// The name with its end, which is the owner, replaced by the suffix; none where it would have more than 255 octets.
pub(crate) fn target_of(name: &Name, owner: &LentName<'_>, suffix: &Name) -> Option<Name>
    requires { IsUnder name.now owner.now }
    ensures { result ≡ target_of name.now owner.now suffix.now }
{
    let front = front_of(name, owner);
    let end = suffix.wire();
    if front.len() + end.len() > MAX_WIRE {
        return None;
    }
    Some(Name::of_wire(joined(front, end).as_slice()))
}

// The octets of the labels in front of the owner.
fn front_of<'a>(name: &'a Name, owner: &LentName<'_>) -> &'a [u8]
    requires { IsUnder name.now owner.now }
    ensures spelled { result.now ≡ written (take (length name.now - length owner.now) name.now) }
    ensures name { IsName name.now }
{
    let wire = name.wire();
    &wire[..wire.len() - owner.wire().len()]
}

fn joined(front: &[u8], end: &[u8]) -> ArrayVec<u8, MAX_WIRE>
    requires { length front.now + length end.now ≤ 255 }
    ensures { result.items ≡ front.now ++ end.now }
{
    let mut octets = ArrayVec::new();
    let fitted = octets.try_extend_from_slice(front).is_ok();
    prove!(fitted);
    let fitted = octets.try_extend_from_slice(end).is_ok();
    prove!(fitted);
    octets
}
