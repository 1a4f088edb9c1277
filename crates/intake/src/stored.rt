ghost use Rattle.std.specs.Prelude.{◌≡◌, [], ◌∷◌, length, IfOk, Some, false};
ghost use Rattle.intake.specs.Group.{Group};
ghost use Rattle.intake.specs.Pile.{IsPileOf};
ghost use Rattle.intake.specs.Batch.{IsTakenAs};
ghost use Rattle.intake.specs.Stored.{is_denial_type};
ghost use Rattle.intake.specs.SignedGroup.{Passes, IsTakenOf};
ghost use Rattle.denial_records.specs.declared.record.Record.TheVariants.{Set};

use crate::agreed::Agreed;
use crate::each_once::each_once;
use crate::nsec::nsec_record;
use crate::nsec3::nsec3_record;
use crate::pile::Pile;
use crate::signed_group::SignedGroup;
use denial_records::{KeptSet, Record, SetRec};
use dname::types::{NSEC_TYPE, NSEC3_TYPE};
use dname::{Octets, OctetsList, OutOfMemory};
use std::alloc::Global;

/// The record that a pile's group is stored as. None where it isn't stored.
pub(crate) fn stored(alloc: Global, pile: Pile, now: u32) -> Result<Option<Record>, OutOfMemory>
    ensures { IfOk result
        (λ taken. (group : Group) → IsPileOf group pile → IsTakenAs now group taken) }
{
    let signatures = each_once(alloc, pile.signatures)?;
    let Some(agreed) = Agreed::of(signatures.as_slice(), now) else {
        return Ok(None);
    };
    let items = each_once(alloc, pile.items)?;
    let group = SignedGroup {
        class: pile.class,
        rtype: pile.rtype,
        owner: pile.owner,
        ttl: pile.ttl,
        count: items.len(),
        agreed,
    };
    if group.passes() {
        record_of(alloc, &group, items, signatures, now)
    } else {
        Ok(None)
    }
}

// The record of a group that passes.
fn record_of(
    alloc: Global,
    group: &SignedGroup,
    items: OctetsList,
    signatures: OctetsList,
    now: u32,
) -> Result<Option<Record>, OutOfMemory>
    requires passes { Passes group.now }
    requires count { group.now.count ≡ length items }
    ensures { IfOk result (IsTakenOf now group.now items signatures) }
{
    match group.rtype {
        NSEC_TYPE => nsec_record(alloc, group, only(items), signatures, now),
        NSEC3_TYPE => nsec3_record(alloc, group, only(items), signatures, now),
        _ => {
            let set = set_of(group, items, signatures, now);
            Ok(Some(Record::Set(KeptSet::of(alloc, &set)?)))
        }
    }
}

fn set_of(group: &SignedGroup, items: OctetsList, signatures: OctetsList, now: u32) -> SetRec
    requires passes { Passes group.now }
    requires no_denial { is_denial_type group.now.rtype ≡ false }
    ensures { IsTakenOf now group.now items signatures (Some (Set result)) }
{
    let life = group.life();
    SetRec {
        owner: group.signed_name(),
        zone: group.agreed.signer.copy(),
        rtype: group.rtype,
        life,
        expiry: u64::from(now) + u64::from(life),
        items,
        signatures,
    }
}

// The only one of the octets.
fn only(octets: OctetsList) -> Octets
    requires { length octets ≡ 1 }
    ensures { octets ≡ result ∷ [] }
{
    octets.into_vec().pop().unwrap()
}
