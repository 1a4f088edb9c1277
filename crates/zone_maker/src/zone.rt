ghost use Rattle.std.specs.Prelude.{◌≡◌, ◌≤◌, ◌<◌, ◌+◌, ◌∷◌, OnOk, IfOk};
ghost use Rattle.std.specs.List.Sorted.{IsPermutation};
ghost use Rattle.dname.specs.Name.{IsUnder};
ghost use Rattle.zone_meaning.specs.Zone.{IsProofType, HasData};
ghost use Rattle.zone_meaning.specs.ZoneTable.{zone_record};
ghost use Rattle.zone_maker.specs.Made.{made_example, made_zone, type_in, data_in};
ghost use Rattle.zone_maker.specs.NameKinds.{kind_of};

use crate::name_kind::{NameKind, kind_at};
use crate::names::{apex, name_server, owner_at};
use crate::pieces::{SOA_DATA, address_at};
use dname::types::{A_TYPE, NS_TYPE, SOA_TYPE};
use dname::{Name, Octets, OutOfMemory};
use std::alloc::{AllocError, Global};
use zone_meaning::{AddFault, ZoneTable};

/// The made zone.
pub(crate) fn zone(alloc: Global, seed: u32, names: u32) -> Result<ZoneTable, OutOfMemory>
    requires { names ≤ 10000 }
    ensures apex { IfOk result (λ zone. zone.apex ≡ made_example) }
    ensures records { IfOk result (λ zone.
        IsPermutation (made_zone seed names).records zone.records) }
{
    let mut zone = with_apex(alloc)?;
    for i in 0..names {
        put_name(alloc, &mut zone, seed, i)?;
    }
    Ok(zone)
}

// The zone of no names.
fn with_apex(alloc: Global) -> Result<ZoneTable, OutOfMemory>
    ensures apex { IfOk result (λ zone. zone.apex ≡ made_example) }
    ensures records { IfOk result (λ zone. (seed : _)
        → IsPermutation (made_zone seed 0).records zone.records) }
{
    let mut zone = ZoneTable::at(alloc, apex());
    let servers = Octets::of(alloc, name_server().wire())?;
    let authority = Octets::of(alloc, &SOA_DATA)?;
    put(&mut zone, apex(), NS_TYPE, servers)?;
    put(&mut zone, apex(), SOA_TYPE, authority)?;
    Ok(zone)
}

// Puts the record that name number i gives into the zone of the names before it.
fn put_name(alloc: Global, zone: &mut ZoneTable, seed: u32, i: u32) -> Result<(), OutOfMemory>
    requires few { i < 10000 }
    requires apex { zone.old.apex ≡ made_example }
    requires records { IsPermutation (made_zone seed i).records zone.old.records }
    ensures apex { zone.new.apex ≡ made_example }
    ensures records { OnOk result
        (IsPermutation (made_zone seed (i + 1)).records zone.new.records) }
{
    let kind = kind_at(i);
    let data = data_in(alloc, kind, seed, i)?;
    put(zone, owner_at(i), type_in(kind), data)?;
    Ok(())
}

// Puts a record that the zone doesn't have yet.
fn put(zone: &mut ZoneTable, owner: Name, rtype: u16, octets: Octets) -> Result<(), OutOfMemory>
    requires under { IsUnder owner zone.old.apex }
    requires plain { IsProofType rtype → ⊥ }
    requires fresh { HasData zone.old owner rtype octets → ⊥ }
    ensures apex { zone.new.apex ≡ zone.old.apex }
    ensures records { OnOk result
        (IsPermutation (zone_record owner rtype octets ∷ zone.old.records) zone.new.records) }
{
    match zone.add(owner, rtype, octets) {
        Ok(()) => Ok(()),
        Err(AddFault::OutOfMemory) => Err(AllocError),
        Err(AddFault::Outside | AddFault::Forbidden) => unreachable!(),
    }
}

fn type_in(kind: NameKind) -> u16
    ensures { result ≡ type_in (kind_of kind) }
{
    match kind {
        NameKind::Cut => NS_TYPE,
        NameKind::Host | NameKind::Above | NameKind::Wild => A_TYPE,
    }
}

fn data_in(alloc: Global, kind: NameKind, seed: u32, i: u32) -> Result<Octets, OutOfMemory>
    ensures { IfOk result (λ octets. octets ≡ data_in (kind_of kind) seed i) }
{
    match kind {
        NameKind::Cut => Octets::of(alloc, name_server().wire()),
        NameKind::Host | NameKind::Above | NameKind::Wild => Octets::of(
            alloc,
            &address_at(seed, i),
        ),
    }
}
