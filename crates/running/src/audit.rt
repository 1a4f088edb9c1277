//! The command `audit`.
ghost use Rattle.std.specs.Prelude.{◌≡◌, ◌⊎◌, ◌<◌, ◌≤◌, ℕ, List, ◌++◌, length, IfOk, IfSome, IsErrOf, Some};
ghost use Rattle.outside_core.specs.Fault.{Rose};
ghost use Rattle.run_audit.specs.declared.finding.Finding.TheVariants.{Yes};
ghost use Rattle.run_audit.specs.Line.{finding_line};
ghost use Rattle.running.specs.Audit.{AreUpheld, AreUpheldAtYes, HasAudited, HasAuditedInPart, HasFound, IsAuditStatusOf, IsOfAudit, IsTooLong, IsUnaudited};
ghost use Rattle.running.specs.Run.{HasGiven, IsRefused, IsReadTo};
ghost use Rattle.running.specs.declared.reading.TheConstants.{MAX_INPUT, MAX_SOURCE};

use crate::reading::{MAX_INPUT, MAX_SOURCE, ReadError, read_whole};
use crate::status::Status;
use audit_source::{SourceFault, read_source};
use outside_core::{Sink, Source, write_whole};
use run_audit::{AuditFault, Finding, audit, finding_line};
use std::alloc::Global;

/// Why octets that aren't too many have no finding.
#[derive(Clone, Copy, Debug, PartialEq, Eq)]
enum NoFinding {
    /// Their input is longer than the longest.
    TooLong,
    /// They are no source of an audit, or its input or its output isn't frames.
    Refused,
    OutOfMemory,
}

/// Reads the source of an audit, and writes the line of what is found.
pub fn run_the_audit<S: Source, K: Sink>(alloc: Global, source: &mut S, sink: &mut K) -> Status
    ensures ends { IsOfAudit result }
    ensures audited { result ≡ Status.Good
        → HasAudited (S.left source.old) (S.left source.new)
        (K.written sink.old) (K.written sink.new) }
    ensures in_part { result ≡ Status.WriteFault
        → HasAuditedInPart (S.left source.old) (S.left source.new)
        (K.written sink.old) (K.written sink.new) }
    ensures upheld { result ≡ Status.Good
        → (before : List ℕ) (replies : ℕ) → K.written sink.old ≡ Some before
        → K.written sink.new ≡ Some (before ++ finding_line (Yes replies))
        → IfSome (S.left source.old) AreUpheld }
    ensures no_fault { result ≡ Status.Good
        → (S.faults source.new ≡ S.faults source.old)
        × (K.faults sink.new ≡ K.faults sink.old) }
    ensures read_fault { result ≡ Status.ReadFault
        → Rose (S.faults source.old) (S.faults source.new) }
    ensures write_fault { result ≡ Status.WriteFault
        → Rose (K.faults sink.old) (K.faults sink.new) }
    ensures unwritten { (result ≡ Status.ReadFault) ⊎ (result ≡ Status.OutOfMemory)
        ⊎ IsRefused result → sink.new ≡ sink.old }
    ensures read { HasGiven (S.left source.old) (S.left source.new) }
    ensures refused { IsRefused result
        → IsReadTo MAX_SOURCE (S.left source.old) (S.left source.new) }
    ensures too_long { result ≡ Status.InputTooLong → IfSome (S.left source.old) IsTooLong }
    ensures longer { result ≡ Status.InputTooLong
        → IfSome (S.left source.old) (λ octets. MAX_INPUT < length octets) }
    ensures unaudited { result ≡ Status.BadFrame → IfSome (S.left source.old) IsUnaudited }
    ensures complete { (octets : List ℕ) → S.left source.old ≡ Some octets
        → (Rose (S.faults source.old) (S.faults source.new) → ⊥)
        → (Rose (K.faults sink.old) (K.faults sink.new) → ⊥)
        → IsAuditStatusOf octets result ⊎ (result ≡ Status.OutOfMemory) }
{
    let octets = match read_whole(alloc, source, MAX_SOURCE) {
        Ok(octets) => octets,
        Err(ReadError::Failed) => return Status::ReadFault,
        Err(ReadError::OutOfMemory) => return Status::OutOfMemory,
    };
    if octets.len() > MAX_SOURCE {
        return Status::InputTooLong;
    }
    let finding = match finding_of(alloc, &octets) {
        Ok(finding) => finding,
        Err(NoFinding::TooLong) => return Status::InputTooLong,
        Err(NoFinding::Refused) => return Status::BadFrame,
        Err(NoFinding::OutOfMemory) => return Status::OutOfMemory,
    };
    let Ok(line) = finding_line(alloc, finding) else {
        return Status::OutOfMemory;
    };
    match write_whole(sink, line.as_bytes()) {
        Ok(()) => Status::Good,
        Err(_) => Status::WriteFault,
    }
}

// What is found of the octets.
fn finding_of(alloc: Global, octets: &[u8]) -> Result<Finding, NoFinding>
    requires { length octets.now ≤ MAX_SOURCE }
    ensures found { IfOk result (HasFound octets.now) }
    ensures upheld { IfOk result (AreUpheldAtYes octets.now) }
    ensures too_long { IsErrOf result NoFinding.TooLong → IsTooLong octets.now }
    ensures longer { IsErrOf result NoFinding.TooLong → MAX_INPUT < length octets.now }
    ensures refused { IsErrOf result NoFinding.Refused → IsUnaudited octets.now }
{
    let source = match read_source(alloc, octets) {
        Ok(source) => source,
        Err(fault) => return Err(no_finding_of(fault)),
    };
    if source.input.len() > MAX_INPUT {
        return Err(NoFinding::TooLong);
    }
    match audit(alloc, &source.zone, source.input, source.output) {
        Ok(finding) => Ok(finding),
        Err(AuditFault::BadInput) => Err(NoFinding::Refused),
        Err(AuditFault::BadOutput) => Err(NoFinding::Refused),
        Err(AuditFault::OutOfMemory) => Err(NoFinding::OutOfMemory),
    }
}

fn no_finding_of(fault: SourceFault) -> NoFinding
    ensures refused { result ≡ NoFinding.Refused → fault ≡ SourceFault.OutOfMemory → ⊥ }
    ensures apart { result ≡ NoFinding.TooLong → ⊥ }
{
    if fault == SourceFault::OutOfMemory {
        return NoFinding::OutOfMemory;
    }
    NoFinding::Refused
}
