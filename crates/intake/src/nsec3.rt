ghost use Rattle.std.specs.Prelude.{◌≡◌, ◌≤◌, [], ◌∷◌, ℕ, List, length, Some, IfOk, MatchOption};
ghost use Rattle.dname.specs.declared.types.TheConstants.{NSEC3_TYPE};
ghost use Rattle.nsec3_hash.specs.Base32Hex.{IsHash};
ghost use Rattle.denial_records.specs.Nsec3Parts.{IsNsec3};
ghost use Rattle.denial_records.specs.declared.nsec3_parts.Nsec3Parts.{Nsec3Parts};
ghost use Rattle.intake.specs.Stored.{IsHashedOwner};
ghost use Rattle.intake.specs.SignedGroup.{Passes, IsTakenOf};

use crate::signed_group::SignedGroup;
use denial_records::{KeptNsec3, Nsec3Fault, Nsec3Parts, Nsec3Rec, Record};
use dname::{Name, Octets, OctetsList, OutOfMemory, octets_between};
use nsec3_hash::from_base32hex;
use std::alloc::{AllocError, Global};

/// The number of SHA-1 (RFC 5155, section 11).
const SHA_1: u8 = 1;

/// Opt-Out, the one flag that there is (RFC 5155, section 3.1.2.1).
const OPT_OUT: u8 = 1;

const MAX_ITERATIONS: u16 = 50;

/// The digits of a hash (RFC 5155, section 3.3).
const HASH_DIGITS: u8 = 32;

/// The record of an NSEC3 group that is kept. None where its data doesn't read, its parts aren't those of records that
/// are used, or its owner is no hash below the zone.
pub(crate) fn nsec3_record(
    alloc: Global,
    group: &SignedGroup,
    image: Octets,
    signatures: OctetsList,
    now: u32,
) -> Result<Option<Record>, OutOfMemory>
    requires passes { Passes group.now }
    requires rtype { group.now.rtype ≡ NSEC3_TYPE }
    ensures { IfOk result (IsTakenOf now group.now (image ∷ []) signatures) }
{
    let Some(hash) = owner_hash(group.owner.name(), &group.agreed.signer) else {
        return Ok(None);
    };
    let Some(parts) = read_parts(alloc, image.as_slice())? else {
        return Ok(None);
    };
    if parts.algorithm != SHA_1 || parts.flags > OPT_OUT || parts.iterations > MAX_ITERATIONS {
        return Ok(None);
    }
    let nsec3 = nsec3_of(group, hash, parts, image, signatures, now);
    let kept = KeptNsec3::of(alloc, &nsec3)?;
    Ok(Some(Record::Nsec3(kept)))
}

fn nsec3_of(
    group: &SignedGroup,
    hash: [u8; 20],
    parts: Nsec3Parts,
    image: Octets,
    signatures: OctetsList,
    now: u32,
) -> Nsec3Rec
    requires passes { Passes group.now }
    requires rtype { group.now.rtype ≡ NSEC3_TYPE }
    requires hashed { IsHashedOwner group.now.owner group.now.agreed.signer hash }
    requires reads { IsNsec3 image parts }
    requires sha1 { parts.algorithm ≡ 1 }
    requires flags { parts.flags ≤ 1 }
    requires iterations { parts.iterations ≤ 50 }
    ensures { IsTakenOf now group.now (image ∷ []) signatures (Some (Record.Nsec3 result)) }
{
    let life = group.life();
    let next = parts.next;
    Nsec3Rec {
        zone: group.agreed.signer.copy(),
        hash,
        next,
        salt: parts.salt,
        iterations: parts.iterations,
        opt_out: parts.flags == OPT_OUT,
        types: parts.types,
        life,
        expiry: u64::from(now) + u64::from(life),
        image,
        signatures,
    }
}

// The hash whose text is the owner's first label, where the owner's parent is the zone.
fn owner_hash(owner: &Name, zone: &Name) -> Option<[u8; 20]>
    ensures { MatchOption result ((hash : List ℕ)
        → ¬ IsHashedOwner owner.now zone.now hash) (IsHashedOwner owner.now zone.now) }
{
    let parent = owner.parent()?;
    let wire = owner.wire();
    if parent != *zone || wire[0] != HASH_DIGITS {
        return None;
    }
    let hash = from_base32hex(octets_between(wire, 1, 33))?;
    are_hash(&hash);
    Some(hash)
}

// Any 20 octets are a hash.
fn are_hash(octets: &[u8])
    requires { length octets.now ≡ 20 }
    ensures { IsHash octets.now }
{}

fn read_parts(alloc: Global, octets: &[u8]) -> Result<Option<Nsec3Parts>, OutOfMemory>
    ensures { IfOk result
        (λ read. MatchOption read ((parts : Nsec3Parts)
        → ¬ IsNsec3 octets.now parts) (IsNsec3 octets.now)) }
{
    match Nsec3Parts::read(alloc, octets) {
        Ok(parts) => Ok(Some(parts)),
        Err(Nsec3Fault::Short) => Ok(None),
        Err(Nsec3Fault::BadHash) => Ok(None),
        Err(Nsec3Fault::BadMap) => Ok(None),
        Err(Nsec3Fault::OutOfMemory) => Err(AllocError),
    }
}
