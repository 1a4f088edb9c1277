ghost use Rattle.std.specs.Prelude.{◌≡◌, [], ◌∷◌, Some, IfOk, MatchOption};
ghost use Rattle.dname.specs.Name.{IsUnder};
ghost use Rattle.dname.specs.declared.types.TheConstants.{NSEC_TYPE};
ghost use Rattle.denial_records.specs.NsecParts.{IsNsec};
ghost use Rattle.denial_records.specs.declared.nsec_parts.NsecParts.{NsecParts};
ghost use Rattle.intake.specs.SignedGroup.{Passes, IsTakenOf};

use crate::signed_group::SignedGroup;
use denial_records::{KeptNsec, NsecFault, NsecParts, NsecRec, Record};
use dname::{Octets, OctetsList, OutOfMemory};
use std::alloc::{AllocError, Global};

/// The record of an NSEC group that is kept. None where its data doesn't read, or its next name is outside the zone.
pub(crate) fn nsec_record(
    alloc: Global,
    group: &SignedGroup,
    image: Octets,
    signatures: OctetsList,
    now: u32,
) -> Result<Option<Record>, OutOfMemory>
    requires passes { Passes group.now }
    requires rtype { group.now.rtype ≡ NSEC_TYPE }
    ensures { IfOk result (IsTakenOf now group.now (image ∷ []) signatures) }
{
    let Some(parts) = read_parts(alloc, image.as_slice())? else {
        return Ok(None);
    };
    if !parts.next.is_under(&group.agreed.signer) {
        return Ok(None);
    }
    let nsec = nsec_of(group, parts, image, signatures, now);
    let kept = KeptNsec::of(alloc, &nsec)?;
    Ok(Some(Record::Nsec(kept)))
}

fn nsec_of(
    group: &SignedGroup,
    parts: NsecParts,
    image: Octets,
    signatures: OctetsList,
    now: u32,
) -> NsecRec
    requires passes { Passes group.now }
    requires rtype { group.now.rtype ≡ NSEC_TYPE }
    requires reads { IsNsec image parts }
    requires inside { IsUnder parts.next group.now.agreed.signer }
    ensures { IsTakenOf now group.now (image ∷ []) signatures (Some (Record.Nsec result)) }
{
    let life = group.life();
    NsecRec {
        zone: group.agreed.signer.copy(),
        owner: group.owner.name().copy(),
        next: parts.next,
        types: parts.types,
        life,
        expiry: u64::from(now) + u64::from(life),
        image,
        signatures,
    }
}

fn read_parts(alloc: Global, octets: &[u8]) -> Result<Option<NsecParts>, OutOfMemory>
    ensures { IfOk result
        (λ read. MatchOption read ((parts : NsecParts)
        → ¬ IsNsec octets.now parts) (IsNsec octets.now)) }
{
    match NsecParts::read(alloc, octets) {
        Ok(parts) => Ok(Some(parts)),
        Err(NsecFault::BadName) => Ok(None),
        Err(NsecFault::BadMap) => Ok(None),
        Err(NsecFault::OutOfMemory) => Err(AllocError),
    }
}
