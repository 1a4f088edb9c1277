ghost use Rattle.std.specs.Prelude.{◌≡◌, map, IfOk};
ghost use Rattle.dname.specs.Tests.{each_once, same_octets};
ghost use Rattle.intake.specs.Once.{news};

use dname::{Octets, OctetsList, OutOfMemory};
use std::alloc::Global;
use std::collections::BTreeSet;

/// The first of those octets that are equal, in order. One alone takes no memory.
pub(crate) fn each_once(alloc: Global, octets: OctetsList) -> Result<OctetsList, OutOfMemory>
    ensures { IfOk result (λ kept. kept ≡ each_once same_octets octets) }
{
    if octets.len() < 2 {
        Ok(octets)
    } else {
        firsts_of(alloc, octets)
    }
}

fn firsts_of(alloc: Global, octets: OctetsList) -> Result<OctetsList, OutOfMemory>
    ensures { IfOk result (λ kept. kept ≡ each_once same_octets octets) }
{
    let new = are_new(alloc, octets.as_slice())?;
    let mut kept = OctetsList::empty(alloc);
    let mut at = 0;
    for item in octets.into_vec() {
        if new[at] {
            kept.push(item)?;
        }
        at += 1;
    }
    Ok(kept)
}

// Of each whether no earlier one is equal.
fn are_new(alloc: Global, octets: &[Octets]) -> Result<Vec<bool>, OutOfMemory>
    ensures { IfOk result (λ new. new.items ≡ news octets.now) }
{
    let mut seen = BTreeSet::new(alloc);
    let mut new = Vec::new(alloc);
    for item in octets {
        new.push(seen.insert(item.as_slice())?)?;
    }
    Ok(new)
}
