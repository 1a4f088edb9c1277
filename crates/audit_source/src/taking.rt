ghost use Rattle.std.specs.Prelude.{◌≡◌, ℕ, List, [], ◌∷◌, ◌++◌, length, IfOk, MatchOption};
ghost use Rattle.dname.specs.Name.{Label};
ghost use Rattle.zone_meaning.specs.Zone.{ZoneRecord};
ghost use Rattle.zone_meaning.specs.ZoneTable.{zone_record};
ghost use Rattle.audit_source.specs.Source.{Entry};
ghost use Rattle.audit_source.specs.Pieces.{HasEntries, HasTaken, AreTaken};

use crate::SourceFault;
use crate::reading::first_entry;
use dname::{Name, Octets, OutOfMemory};
use std::alloc::{AllocError, Global};
use zone_index::ZoneRecords;
use zone_meaning::AddFault;

/// Puts so many records from the front of the octets into the zone, up to the first that it refuses. Gives the fault of
/// that one, and the octets after all of them; none where so many don't stand there.
pub(crate) fn take_entries<'a>(
    alloc: Global,
    zone: &mut ZoneRecords,
    count: u32,
    octets: &'a [u8],
) -> Result<Option<(Option<SourceFault>, &'a [u8])>, OutOfMemory>
    requires { zone.old.records ≡ [] }
    ensures { IfOk result (λ taken. MatchOption taken
        ((entries : List Entry) (rest : List ℕ) → length entries ≡ count
        → HasEntries octets.now entries rest → ⊥)
        (λ taken. HasTaken octets.now zone.old.apex count zone.new taken.0 taken.1.now)) }
{
    let mut refused = None;
    let mut rest = octets;
    for _ in 0..count {
        let Some((owner, rtype, data, after)) = first_entry(rest) else {
            return Ok(None);
        };
        refused = take_record(alloc, zone, refused, owner, rtype, data)?;
        rest = after;
    }
    Ok(Some((refused, rest)))
}

// Puts the record behind those of the zone, where none has been refused. Gives the fault of the first that is.
fn take_record(
    alloc: Global,
    zone: &mut ZoneRecords,
    refused: Option<SourceFault>,
    owner: Name,
    rtype: u16,
    rdata: &[u8],
) -> Result<Option<SourceFault>, OutOfMemory>
    ensures { IfOk result (λ now. (apex : List Label) (records : List ZoneRecord)
        → AreTaken apex records zone.old refused
        → AreTaken apex (records ++ zone_record owner rtype rdata.now ∷ []) zone.new now) }
{
    if refused.is_some() {
        return Ok(refused);
    }
    let octets = Octets::of(alloc, rdata)?;
    match zone.add(owner, rtype, octets) {
        Ok(()) => Ok(None),
        Err(AddFault::Outside) => Ok(Some(SourceFault::Outside)),
        Err(AddFault::Forbidden) => Ok(Some(SourceFault::Forbidden)),
        Err(AddFault::OutOfMemory) => Err(AllocError),
    }
}
