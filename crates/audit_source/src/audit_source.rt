ghost use Rattle.std.specs.Prelude.{◌≡◌, ◌+◌, ◌≤◌, ◌⊎◌, ℕ, List, length, IsOk, IfOk, IfErr, Err};
ghost use Rattle.zone_meaning.specs.Zone.{Zone};
ghost use Rattle.audit_source.specs.Source.{IsSourceOf, IsFaultOf};
ghost use Rattle.audit_source.specs.declared.source_fault.SourceFault.{SourceFault};

use crate::SourceFault;
use crate::reading::{first_head, first_run};
use crate::taking::take_entries;
use std::alloc::Global;
use zone_index::{ZoneIndex, ZoneRecords};

/// What an audit reads: a zone, and the octets of a recorded run.
#[derive(Drop)]
pub struct AuditSource<'a> {
    pub zone: ZoneIndex,
    pub input: &'a [u8],
    pub output: &'a [u8],
}

/// The zone and the run that the octets are, or the first fault. Memory is taken for the zone alone, and the run isn't
/// looked into.
pub fn read_source(alloc: Global, octets: &[u8]) -> Result<AuditSource<'_>, SourceFault>
    ensures read { IfOk result (λ read.
        IsSourceOf octets.now read.zone read.input.now read.output.now) }
    ensures refused { IfErr result (λ fault. (fault ≡ SourceFault.OutOfMemory)
        ⊎ IsFaultOf octets.now fault) }
    ensures within { IfOk result (λ read.
        length read.input.now + length read.output.now ≤ length octets.now) }

    // Octets that are a source are read, and the first fault is told, where there is memory.
    ensures every_source { (zone : Zone) (input output : List ℕ)
        → IsSourceOf octets.now zone input output
        → IsOk result ⊎ (result ≡ Err SourceFault.OutOfMemory) }
    ensures every_fault { (fault : SourceFault) → IsFaultOf octets.now fault
        → (result ≡ Err fault) ⊎ (result ≡ Err SourceFault.OutOfMemory) }
{
    source_of(alloc, octets)
}

fn source_of(alloc: Global, octets: &[u8]) -> Result<AuditSource<'_>, SourceFault>
    ensures read { IfOk result (λ read.
        IsSourceOf octets.now read.zone read.input.now read.output.now) }
    ensures refused { IfErr result (λ fault. (fault ≡ SourceFault.OutOfMemory)
        ⊎ IsFaultOf octets.now fault) }
{
    let Some((apex, count, rest)) = first_head(octets) else {
        return Err(SourceFault::Form);
    };
    let mut zone = ZoneRecords::at(alloc, apex);
    let Some((refused, rest)) = take_entries(alloc, &mut zone, count, rest)? else {
        return Err(SourceFault::Form);
    };
    let Some((input, output, rest)) = first_run(rest) else {
        return Err(SourceFault::Form);
    };
    if let Some(fault) = refused {
        return Err(fault);
    }
    if !rest.is_empty() {
        return Err(SourceFault::Trailing);
    }
    let zone = zone.index()?;
    Ok(AuditSource {
        zone,
        input,
        output,
    })
}
