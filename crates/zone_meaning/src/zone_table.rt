ghost use Rattle.std.specs.Prelude.{◌≡◌, ◌↔◌, List, [], ◌∷◌, length, OnOk, OnErr, IfSome, IfNone, IsTrue, Err};
ghost use Rattle.std.specs.List.Sorted.{IsPermutation};
ghost use Rattle.dname.specs.Name.{Label, IsUnder, asterisk};
ghost use Rattle.zone_meaning.specs.Zone.{IsZone, IsProofType, HasData, HasType, IsBelow, IsCut};
ghost use Rattle.zone_meaning.specs.Lookup.{Answer, Referral, Redirect, MeetsCut, MeetsDname, Meets, MeetsFirst, MeetsNothing, AnswersAt, IsClosestEncloser, Synthesizes, LooksUp};
ghost use Rattle.zone_meaning.specs.ZoneTable.{HasEachOnce, IsTable, zone_record, looked_of, IsUnbarred, IsReached};

use crate::group::{Group, add_item, any_under, begin, has_item, least, nearest, place_of};
use crate::{AddFault, Looked};
use dname::types::{CNAME_TYPE, DNAME_TYPE, DS_TYPE, NS_TYPE, NSEC_TYPE, NSEC3_TYPE, RRSIG_TYPE};
use dname::{Name, Octets, OctetsList, OutOfMemory};
use std::alloc::Global;
use std::marker::Model;

/// The records of a zone, seen as the zone with its apex and records.
#[derive(Drop)]
pub struct ZoneTable {
    alloc: Global,
    apex: Name,
    // One for each owner and type that has records.
    groups: Vec<Group>,
}

impl Model for ZoneTable {
    ghost use Rattle.zone_meaning.specs.Zone.{Zone};
    ghost use Rattle.zone_meaning.specs.ZoneTable.{zone_in, IsTable};

    ghost Value = { Zone };

    ghost view = { λ t. zone_in t.apex t.groups.items };

    ghost invariant = { λ t. IsTable (zone_in t.apex t.groups.items) t.groups.items };
}

impl ZoneTable {
    /// The zone with no records. It takes no memory, and keeps the allocator for `add`.
    pub fn at(alloc: Global, apex: Name) -> ZoneTable
        ensures { result ≡ record { apex = apex; records = [] } }
    {
        ZoneTable {
            alloc,
            apex,
            groups: Vec::new(alloc),
        }
    }

    /// The name at the zone's top.
    pub fn apex(&self) -> &Name
        ensures value { result.now ≡ self.now.apex }
        ensures zone { IsZone self.now }
    {
        &self.apex
    }

    /// Puts the record among those of the zone; where it stands is left open.
    pub fn add(&mut self, owner: Name, rtype: u16, octets: Octets) -> Result<(), AddFault>
        ensures outside { (result ≡ Err AddFault.Outside)
            ↔ (IsUnder owner self.old.apex → ⊥) }
        ensures forbidden { (result ≡ Err AddFault.Forbidden)
            ↔ (IsUnder owner self.old.apex × IsProofType rtype) }
        ensures refused { OnErr result (self.new ≡ self.old) }
        ensures there { HasData self.old owner rtype octets → self.new ≡ self.old }
        ensures added { OnOk result ((HasData self.old owner rtype octets → ⊥)
            → IsPermutation (zone_record owner rtype octets ∷ self.old.records) self.new.records) }
        ensures apex { self.new.apex ≡ self.old.apex }
        ensures zone { IsZone self.new }
        ensures once { HasEachOnce self.new }
    {
        if !owner.is_under(&self.apex) {
            return Err(AddFault::Outside);
        }
        if is_proof_type(rtype) {
            return Err(AddFault::Forbidden);
        }
        self.insert(owner, rtype, octets)?;
        let _ = &self.apex;
        Ok(())
    }

    /// What the zone answers to the name and type: the lookup of RFC 1034 (section 4.3.2) with the wildcards of RFC 4592
    /// and the DNAMEs of RFC 6672. It takes no memory.
    pub fn lookup<'a>(&'a self, name: &Name, qtype: u16) -> Looked<'a>
        requires { IsUnder name.now self.now.apex }
        ensures { LooksUp self.now name.now qtype (looked_of result) }
    {
        if let Some(other) = self.first_met(name, qtype) {
            return self.stopped_at(other);
        }
        if self.reaches(name) {
            return self.answer_at(name, qtype);
        }
        if !self.reaches(self.apex()) {
            return Looked::NxDomain;
        }
        let encloser = self.closest_encloser(name);
        self.synthesized(&wildcard_of(name, &encloser), qtype)
    }

    // The first cut or DNAME on the way from the apex down to the name.
    fn first_met(&self, name: &Name, qtype: u16) -> Option<Name>
        requires { IsUnder name.now self.now.apex }
        ensures first { IfSome result (λ other. MeetsFirst self.now name.now qtype other) }
        ensures none { IfNone result (MeetsNothing self.now name.now qtype) }
    {
        let last = name.labels();
        for n in self.apex().labels()..last + 1 {
            let other = name.last(n);
            if self.meets_cut(name, qtype, &other) || self.meets_dname(name, &other) {
                return Some(other);
            }
        }
        None
    }

    fn meets_cut(&self, name: &Name, qtype: u16, other: &Name) -> bool
        requires { IsUnder name.now other.now }
        ensures { IsTrue result ↔ MeetsCut self.now name.now qtype other.now }
    {
        self.is_cut(other) && (qtype != DS_TYPE || !is_same(other, name))
    }

    fn meets_dname(&self, name: &Name, other: &Name) -> bool
        requires { IsUnder name.now other.now }
        ensures { IsTrue result ↔ MeetsDname self.now name.now other.now }
    {
        self.has(other, DNAME_TYPE) && !is_same(name, other)
    }

    // The answer where the lookup meets the name first.
    fn stopped_at<'a>(&'a self, other: Name) -> Looked<'a>
        ensures cut { IsCut self.now other → looked_of result ≡ Referral other }
        ensures dname { (IsCut self.now other → ⊥) → looked_of result ≡ Redirect other }
    {
        if self.is_cut(&other) {
            Looked::Referral(other)
        } else {
            Looked::Redirect(other)
        }
    }

    // The answer at a name that exists.
    fn answer_at<'a>(&'a self, name: &Name, rtype: u16) -> Looked<'a>
        ensures { AnswersAt self.now name.now rtype (looked_of result) }
    {
        if let Some(items) = self.data(name, rtype) {
            return Looked::Answer(items);
        }
        match self.data(name, CNAME_TYPE) {
            Some(items) => Looked::Alias(least(items)),
            None => Looked::NoData,
        }
    }

    fn closest_encloser(&self, name: &Name) -> Name
        requires within { IsUnder name.now self.now.apex }
        requires unbarred { IsUnbarred self.now name.now }
        requires missing { IsReached self.now name.now → ⊥ }
        requires some { IsReached self.now self.now.apex }
        ensures { IsClosestEncloser self.now name.now result }
    {
        nearest(self.groups(), self.apex(), name)
    }

    // The answer by a source of synthesis.
    fn synthesized<'a>(&'a self, source: &Name, rtype: u16) -> Looked<'a>
        requires within { IsUnder source.now self.now.apex }
        requires unbarred { IsUnbarred self.now source.now }
        ensures { Synthesizes self.now source.now rtype (looked_of result) }
    {
        if !self.reaches(source) {
            return Looked::NxDomain;
        }
        if self.has(source, NS_TYPE) {
            return Looked::Undefined;
        }
        match self.answer_at(source, rtype) {
            Looked::NoData => self.without_data(source),
            answer => answer,
        }
    }

    // No data, which a DNAME leaves open.
    fn without_data<'a>(&'a self, source: &Name) -> Looked<'a>
        ensures dname { HasType self.now source.now DNAME_TYPE → result ≡ Looked.Undefined }
        ensures none { (HasType self.now source.now DNAME_TYPE → ⊥) → result
            ≡ Looked.NoData }
    {
        if self.has(source, DNAME_TYPE) {
            Looked::Undefined
        } else {
            Looked::NoData
        }
    }

    fn is_cut(&self, name: &Name) -> bool
        ensures { IsTrue result ↔ IsCut self.now name.now }
    {
        self.has(name, NS_TYPE) && !is_same(name, self.apex())
    }

    fn has(&self, owner: &Name, rtype: u16) -> bool
        ensures { IsTrue result ↔ HasType self.now owner.now rtype }
    {
        self.data(owner, rtype).is_some()
    }

    // All data of the owner and type.
    fn data(&self, owner: &Name, rtype: u16) -> Option<&OctetsList>
        ensures some { IfSome result (λ items.
            AnswersAt self.now owner.now rtype (Answer items.now)) }
        ensures none { IfNone result (HasType self.now owner.now rtype → ⊥) }
    {
        let groups = self.groups();
        let place = place_of(groups, owner, rtype)?;
        Some(&groups[place].items)
    }

    // Whether an owner is the name or below it.
    fn reaches(&self, name: &Name) -> bool
        ensures { IsTrue result ↔ IsReached self.now name.now }
    {
        any_under(self.groups(), name)
    }

    fn insert(&mut self, owner: Name, rtype: u16, octets: Octets) -> Result<(), OutOfMemory>
        requires under { IsUnder owner self.old.apex }
        requires plain { IsProofType rtype → ⊥ }
        ensures refused { OnErr result (self.new ≡ self.old) }
        ensures there { HasData self.old owner rtype octets → self.new ≡ self.old }
        ensures added { OnOk result ((HasData self.old owner rtype octets → ⊥)
            → IsPermutation (zone_record owner rtype octets ∷ self.old.records) self.new.records) }
        ensures apex { self.new.apex ≡ self.old.apex }
    {
        match place_of(self.groups.as_slice(), &owner, rtype) {
            None => begin(self.alloc, &mut self.groups, owner, rtype, octets),
            Some(place) => {
                if has_item(&self.groups[place].items, &octets) {
                    return Ok(());
                }
                add_item(&mut self.groups, place, octets)
            }
        }
    }

    fn groups(&self) -> &[Group]
        ensures { IsTable self.now result.now }
    {
        self.groups.as_slice()
    }
}

fn is_same(name: &Name, other: &Name) -> bool
    ensures { IsTrue result ↔ (name.now ≡ other.now) }
{
    *name == *other
}

// The wildcard below a name that another is below.
fn wildcard_of(name: &Name, encloser: &Name) -> Name
    requires { IsBelow name.now encloser.now }
    ensures { result ≡ asterisk ∷ encloser.now }
{
    let _wire = name.wire();
    match encloser.star() {
        Some(source) => source,
        None => unreachable!(),
    }
}

fn is_proof_type(rtype: u16) -> bool
    ensures { IsTrue result ↔ IsProofType rtype }
{
    rtype == RRSIG_TYPE || rtype == NSEC_TYPE || rtype == NSEC3_TYPE
}
