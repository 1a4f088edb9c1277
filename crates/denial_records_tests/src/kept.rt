use crate::made::{nsec, nsec3, set, set_of};
use denial_records::{KeptNsec, KeptNsec3, KeptSet, LentTypes, Nsec3Rec, NsecRec, SetRec, TypeSet};
use dname::{Octets, OctetsList, OutOfMemory, Packed};
use std::alloc::Global;
use std::test::Fail;

fn same_strings(mut packed: Packed<'_>, list: &OctetsList) -> bool {
    for item in list.as_slice() {
        if packed.next() != Some(item.as_slice()) {
            return false;
        }
    }
    packed.is_empty()
}

// Of the types that the records have, and some that they don't.
fn same_types(lent: &LentTypes<'_>, types: &TypeSet) -> bool {
    for rtype in [0, 1, 2, 46, 257] {
        if lent.has(rtype) != types.has(rtype) {
            return false;
        }
    }
    true
}

// Whether the kept set has the names, the type and times, the items, and the signatures of the other.
fn set_parts(kept: &KeptSet, set: &SetRec) -> [bool; 4] {
    [
        kept.zone() == set.zone.lent() && kept.owner() == set.owner.lent(),
        (kept.rtype(), kept.life(), kept.expiry()) == (set.rtype, set.life, set.expiry),
        same_strings(kept.items(), &set.items),
        same_strings(kept.signatures(), &set.signatures),
    ]
}

// Whether the kept record has the names, the types, the times, the image, and the signatures of the other.
fn nsec_parts(kept: &KeptNsec, nsec: &NsecRec) -> [bool; 5] {
    [
        kept.zone() == nsec.zone.lent()
            && kept.owner() == nsec.owner.lent()
            && kept.next() == nsec.next.lent(),
        same_types(&kept.types(), &nsec.types),
        (kept.life(), kept.expiry()) == (nsec.life, nsec.expiry),
        kept.image() == nsec.image.as_slice(),
        same_strings(kept.signatures(), &nsec.signatures),
    ]
}

// Whether the kept record has the zone, the hashes, the salt, the counts, the types, the times, the image, and the signatures
// of the other.
fn nsec3_parts(kept: &KeptNsec3, nsec3: &Nsec3Rec) -> [bool; 8] {
    [
        kept.zone() == nsec3.zone.lent(),
        (*kept.hash(), *kept.next()) == (nsec3.hash, nsec3.next),
        kept.salt() == nsec3.salt.as_slice(),
        (kept.iterations(), kept.opt_out()) == (nsec3.iterations, nsec3.opt_out),
        same_types(&kept.types(), &nsec3.types),
        (kept.life(), kept.expiry()) == (nsec3.life, nsec3.expiry),
        kept.image() == nsec3.image.as_slice(),
        same_strings(kept.signatures(), &nsec3.signatures),
    ]
}

#[test]
fn a_kept_set_gives_back_what_it_was_made_of(rt: HostRuntime) -> Result<(), Fail> {
    let alloc = rt.alloc();
    let set = set(alloc)?;
    let kept = KeptSet::of(alloc, &set)?;
    let found = (set_parts(&kept, &set), set_parts(&kept.copy(alloc)?, &set));
    assert!(rt; found == ([true; 4], [true; 4]), "{found:?}");
    let told = (kept.rtype(), kept.life(), kept.expiry());
    assert!(rt; told == (1, 3600, 1045762263), "{told:?}");
    Ok(())
}

#[test]
fn a_kept_nsec_record_gives_back_what_it_was_made_of(rt: HostRuntime) -> Result<(), Fail> {
    let alloc = rt.alloc();
    let nsec = nsec(alloc)?;
    let kept = KeptNsec::of(alloc, &nsec)?;
    let found = (
        nsec_parts(&kept, &nsec),
        nsec_parts(&kept.copy(alloc)?, &nsec),
    );
    assert!(rt; found == ([true; 5], [true; 5]), "{found:?}");
    let told = (kept.life(), kept.expiry());
    assert!(rt; told == (3600, 1045762263), "{told:?}");
    Ok(())
}

#[test]
fn a_kept_nsec3_record_gives_back_what_it_was_made_of(rt: HostRuntime) -> Result<(), Fail> {
    let alloc = rt.alloc();
    let nsec3 = nsec3(alloc)?;
    let kept = KeptNsec3::of(alloc, &nsec3)?;
    let found = (
        nsec3_parts(&kept, &nsec3),
        nsec3_parts(&kept.copy(alloc)?, &nsec3),
    );
    assert!(rt; found == ([true; 8], [true; 8]), "{found:?}");
    let hashes = (*kept.hash(), *kept.next());
    assert!(rt; hashes == ([1; 20], [2; 20]), "{hashes:?}");
    let told = (kept.iterations(), kept.opt_out(), kept.life());
    assert!(rt; told == (12, true, 3600), "{told:?}");
    assert!(rt; kept.expiry() == 1045762263);
    Ok(())
}

// 256 strings of 257 octets, as many MX records have that give one name of 255 (RFC 1035, section 3.3.9).
fn long_names(alloc: Global) -> Result<OctetsList, OutOfMemory> {
    let mut list = OctetsList::empty(alloc);
    for octet in 0..=255 {
        let item = vec![in alloc; octet; 257]?;
        list.push(Octets::of(alloc, item.as_slice())?)?;
    }
    Ok(list)
}

// A message's names may each be written once and pointed to, so a set may be longer than a message.
#[test]
fn a_set_of_66560_octets_is_kept(rt: HostRuntime) -> Result<(), Fail> {
    let alloc = rt.alloc();
    let set = set_of(alloc, long_names(alloc)?)?;
    let kept = KeptSet::of(alloc, &set)?;
    let found = (set_parts(&kept, &set), set_parts(&kept.copy(alloc)?, &set));
    assert!(rt; found == ([true; 4], [true; 4]), "{found:?}");
    Ok(())
}
