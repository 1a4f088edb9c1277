//! Whether a type bit map has just the types of a name.
ghost use Rattle.std.specs.Prelude.{◌≡◌, ◌↔◌, true, false, IsTrue};
ghost use Rattle.std.specs.List.{All, Contains};
ghost use Rattle.zone_meaning.specs.Zone.{IsProofType, HasType};
ghost use Rattle.zone_meaning.specs.Consistent.{TypesAgree};
ghost use Rattle.zone_index.specs.Entries.{HaveRecords, HasTypesIn, ParentTypesAgree};

use crate::entry::Entry;
use crate::owner_records::OwnerRecords;
use denial_records::LentTypes;
use dname::types::{CNAME_TYPE, DS_TYPE, NS_TYPE, NSEC_TYPE, NSEC3_TYPE, RRSIG_TYPE};

/// Whether the types are those of the name, at a cut of those that the parent's side speaks for.
pub(crate) fn types_agree(records: &OwnerRecords<'_>, types: &LentTypes<'_>) -> bool
    ensures { IsTrue result ↔ TypesAgree records.now.zone records.now.name types.now }
{
    let _apex = records.zone().apex();
    if records.is_cut() {
        return parent_types_agree(records, types);
    }
    if !has_types_in(records, types) {
        return false;
    }
    have_records(records, types)
}

fn parent_types_agree(records: &OwnerRecords<'_>, types: &LentTypes<'_>) -> bool
    ensures { IsTrue result ↔ ParentTypesAgree records.now.zone records.now.name types.now }
{
    if !agrees(records, types, NS_TYPE) {
        return false;
    }
    if !agrees(records, types, DS_TYPE) {
        return false;
    }
    agrees(records, types, CNAME_TYPE)
}

fn agrees(records: &OwnerRecords<'_>, types: &LentTypes<'_>, rtype: u16) -> bool
    ensures { IsTrue result ↔ (HasType records.now.zone records.now.name rtype
        ↔ Contains types.now rtype) }
{
    let listed = types.has(rtype);
    if records.has_type(rtype) {
        listed
    } else {
        !listed
    }
}

// Whether each type of the name is among the types.
fn has_types_in(records: &OwnerRecords<'_>, types: &LentTypes<'_>) -> bool
    ensures { IsTrue result ↔ HasTypesIn records.now.zone records.now.name types.now }
{
    are_listed(records.entries(), types)
}

fn are_listed(entries: &[Entry], types: &LentTypes<'_>) -> bool
    ensures { IsTrue result ↔ All (λ e. Contains types.now e.rtype) entries.now }
{
    for at in 0..entries.len() {
        if !is_listed(&entries[at], types) {
            return false;
        }
    }
    true
}

fn is_listed(entry: &Entry, types: &LentTypes<'_>) -> bool
    ensures { IsTrue result ↔ Contains types.now entry.now.rtype }
{
    types.has(entry.rtype)
}

// Whether the name has a record of each of the types, but of those that prove others.
fn have_records(records: &OwnerRecords<'_>, types: &LentTypes<'_>) -> bool
    ensures { IsTrue result ↔ HaveRecords records.now.zone records.now.name types.now }
{
    let mut from: u16 = 0;
    while let Some(rtype) = types.next_from(from) {
        if is_missing(records, rtype) {
            return false;
        }
        if rtype == 65_535 {
            return true;
        }
        from = rtype + 1;
    }
    true
}

fn is_missing(records: &OwnerRecords<'_>, rtype: u16) -> bool
    ensures missing { result ≡ true → (IsProofType rtype → ⊥)
        × (HasType records.now.zone records.now.name rtype → ⊥) }
    ensures there { result ≡ false → (IsProofType rtype → ⊥)
        → HasType records.now.zone records.now.name rtype }
{
    if is_proof_type(rtype) {
        return false;
    }
    !records.has_type(rtype)
}

fn is_proof_type(rtype: u16) -> bool
    ensures { IsTrue result ↔ IsProofType rtype }
{
    rtype == RRSIG_TYPE || rtype == NSEC_TYPE || rtype == NSEC3_TYPE
}
