ghost use Rattle.std.specs.Prelude.{◌≡◌, ◌≤◌, ◌↔◌, ◌⊎◌, List, ℕ, [], length, IfOk, IfErr, IfSome, IsTrue};
ghost use Rattle.dnswire.specs.Expansions.{IsTableOf};
ghost use Rattle.dnswire.specs.MessageName.{NameAt};
ghost use Rattle.dnswire.specs.RrHead.{HasNoName};
ghost use Rattle.dnswire.specs.declared.wire_fault.WireFault.{WireFault};

use crate::WireFault;
use crate::name_labels::{NameLabels, NameStep};
use crate::name_read::{NotRead, pointed_place, whole_at, write_out};
use crate::name_table::NameTable;
use arrayvec::ArrayVec;
use dname::{Name, octets_between};
use std::alloc::Global;

/// The name at the offset and the offset after it, or the message's fault. Pointers are followed (RFC 1035, section 4.1.4).
pub(crate) fn name_or_fault(
    alloc: Global,
    message: &[u8],
    at: usize,
    table: &mut NameTable,
) -> Result<(Name, usize), WireFault>
    requires { IsTableOf message.now table.old }
    ensures read { IfOk result (λ read. NameAt message.now at read.0 read.1) }
    ensures within { IfOk result (λ read. read.1 ≤ length message.now) }
    ensures refused { IfErr result (λ fault. (fault ≡ WireFault.OutOfMemory)
        ⊎ (HasNoName message.now at × (fault ≡ WireFault.BadName at))) }
    ensures table { IsTableOf message.now table.new }
{
    if !table.is_open() {
        if let Some(read) = whole_name(message, at) {
            return Ok(read);
        }
    }
    far_name(alloc, message, at, table)
}

// The name where it stands in one piece, or near behind a pointer.
fn whole_name(message: &[u8], at: usize) -> Option<(Name, usize)>
    ensures { IfSome result (λ read. NameAt message.now at read.0 read.1) }
{
    let Some(whole) = whole_at(message, at) else {
        return None;
    };
    let octets = octets_between(message, whole.start, whole.start + whole.size);
    Some((Name::of_wire(octets), whole.end))
}

// The name where it isn't whole: at a place of the table, or written out run by run.
fn far_name(
    alloc: Global,
    message: &[u8],
    at: usize,
    table: &mut NameTable,
) -> Result<(Name, usize), WireFault>
    requires { IsTableOf message.now table.old }
    ensures read { IfOk result (λ read. NameAt message.now at read.0 read.1) }
    ensures refused { IfErr result (λ fault. (fault ≡ WireFault.OutOfMemory)
        ⊎ (HasNoName message.now at × (fault ≡ WireFault.BadName at))) }
    ensures table { IsTableOf message.now table.new }
{
    match pointed_place(message, at, table) {
        Ok(Some(place)) => return Ok((Name::of_wire(table.octets_of(place)), at + 2)),
        Ok(None) => {}
        Err(NotRead::Faulty) => return Err(WireFault::BadName { at }),
        Err(NotRead::OutOfMemory) => return Err(WireFault::OutOfMemory),
    }
    let mut octets = ArrayVec::new();
    match write_out(alloc, message, at, table, &mut octets) {
        Ok(end) => Ok((Name::of_wire(octets.as_slice()), end)),
        Err(NotRead::Faulty) => Err(WireFault::BadName { at }),
        Err(NotRead::OutOfMemory) => Err(WireFault::OutOfMemory),
    }
}

/// Whether the name at the offset is the root.
pub(crate) fn is_root_at(message: &[u8], at: usize) -> bool
    ensures { (name : List (List ℕ)) (end : ℕ) → NameAt message.now at name end
        → (IsTrue result ↔ (name ≡ [])) }
{
    match NameLabels::of(message, at).next() {
        Some(NameStep::End(_)) => true,
        Some(NameStep::Label(_)) => false,
        None => false,
    }
}
