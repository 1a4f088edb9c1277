ghost use Rattle.std.specs.Prelude.{◌≡◌, ◌↔◌, [], ◌∷◌, ◌++◌, OnOk, OnErr, IfOk, IsTrue, Err};
ghost use Rattle.dname.specs.Name.{IsUnder};
ghost use Rattle.zone_meaning.specs.Zone.{IsZone, IsProofType, IsSameZone};
ghost use Rattle.zone_meaning.specs.ZoneTable.{zone_record};

use crate::ZoneIndex;
use crate::entry::Entry;
use dname::types::{NSEC_TYPE, NSEC3_TYPE, RRSIG_TYPE};
use dname::{BoxedName, Name, Octets, OutOfMemory};
use std::alloc::Global;
use std::marker::Model;
use zone_meaning::AddFault;

/// The records of a zone as they come, seen as the zone with its apex and records.
#[derive(Drop)]
pub struct ZoneRecords {
    alloc: Global,
    apex: Name,
    entries: Vec<Entry>,
}

impl Model for ZoneRecords {
    ghost use Rattle.zone_meaning.specs.Zone.{Zone, IsZone};
    ghost use Rattle.zone_index.specs.Entries.{zone_in};

    ghost Value = { Zone };

    ghost view = { λ z. zone_in z.apex z.entries.items };

    ghost invariant = { λ z. IsZone (zone_in z.apex z.entries.items) };
}

impl ZoneRecords {
    /// The zone with no records. It takes no memory, and keeps the allocator for `add`.
    pub fn at(alloc: Global, apex: Name) -> ZoneRecords
        ensures { result ≡ record { apex = apex; records = [] } }
    {
        ZoneRecords {
            alloc,
            apex,
            entries: Vec::new(alloc),
        }
    }

    /// Puts the record behind those of the zone, also where the zone has it.
    pub fn add(&mut self, owner: Name, rtype: u16, octets: Octets) -> Result<(), AddFault>
        ensures outside { (result ≡ Err AddFault.Outside)
            ↔ (IsUnder owner self.old.apex → ⊥) }
        ensures forbidden { (result ≡ Err AddFault.Forbidden)
            ↔ (IsUnder owner self.old.apex × IsProofType rtype) }
        ensures refused { OnErr result (self.new ≡ self.old) }
        ensures added { OnOk result
            (self.new.records ≡ self.old.records ++ zone_record owner rtype octets ∷ []) }
        ensures apex { self.new.apex ≡ self.old.apex }
        ensures zone { IsZone self.new }
    {
        if !owner.is_under(&self.apex) {
            return Err(AddFault::Outside);
        }
        if is_proof_type(rtype) {
            return Err(AddFault::Forbidden);
        }
        self.put(owner, rtype, octets)?;
        let _ = &self.apex;
        Ok(())
    }

    fn put(&mut self, owner: Name, rtype: u16, octets: Octets) -> Result<(), OutOfMemory>
        requires under { IsUnder owner self.old.apex }
        requires plain { IsProofType rtype → ⊥ }
        ensures refused { OnErr result (self.new ≡ self.old) }
        ensures added { OnOk result
            (self.new.records ≡ self.old.records ++ zone_record owner rtype octets ∷ []) }
        ensures apex { self.new.apex ≡ self.old.apex }
    {
        let owner = BoxedName::of(self.alloc, owner)?;
        self.entries.push(Entry {
            owner,
            rtype,
            octets,
        })?;
        Ok(())
    }

    /// The zone that is found by search.
    pub fn index(self) -> Result<ZoneIndex, OutOfMemory>
        ensures { IfOk result (λ index. IsSameZone self index) }
    {
        ZoneIndex::of(self.apex, self.entries)
    }
}

fn is_proof_type(rtype: u16) -> bool
    ensures { IsTrue result ↔ IsProofType rtype }
{
    rtype == RRSIG_TYPE || rtype == NSEC_TYPE || rtype == NSEC3_TYPE
}
