ghost use Rattle.std.specs.Prelude.{◌≡◌, ◌≤◌, ◌⊎◌, length, IfOk, IfErr};
ghost use Rattle.dnswire.specs.Data.{layout_of, IsData, HasNoData};
ghost use Rattle.dnswire.specs.DataField.{Appends};
ghost use Rattle.dnswire.specs.Expansions.{IsTableOf};
ghost use Rattle.dnswire.specs.declared.field.Field.{Field};
ghost use Rattle.dnswire.specs.declared.wire_fault.WireFault.{WireFault};

use crate::WireFault;
use crate::field::{Field, layout_of};
use crate::name_read::{NotRead, pointed_place, whole_at, write_out};
use crate::name_table::NameTable;
use arrayvec::ArrayVec;
use dname::{Octets, OutOfMemory, octets_between};
use std::alloc::{AllocError, Global};

/// The data of a record of the type, from its offset to where it ends, with the names in it written out.
pub(crate) fn read_data(
    alloc: Global,
    message: &[u8],
    rtype: u16,
    at: usize,
    end: usize,
    table: &mut NameTable,
) -> Result<Octets, WireFault>
    requires within { (at ≤ end) × (end ≤ length message.now) }
    requires table { IsTableOf message.now table.old }
    ensures read { IfOk result (IsData message.now end (layout_of rtype) at) }
    ensures refused { IfErr result (λ fault. (fault ≡ WireFault.OutOfMemory)
        ⊎ (HasNoData message.now end (layout_of rtype) at × (fault ≡ WireFault.BadData at))) }
    ensures table { IsTableOf message.now table.new }
{
    read_fields(alloc, message, layout_of(rtype), at, end, table)
}

fn read_fields(
    alloc: Global,
    message: &[u8],
    fields: &[Field],
    at: usize,
    end: usize,
    table: &mut NameTable,
) -> Result<Octets, WireFault>
    requires within { (at ≤ end) × (end ≤ length message.now) }
    requires table { IsTableOf message.now table.old }
    ensures read { IfOk result (IsData message.now end fields.now at) }
    ensures refused { IfErr result (λ fault. (fault ≡ WireFault.OutOfMemory)
        ⊎ (HasNoData message.now end fields.now at × (fault ≡ WireFault.BadData at))) }
    ensures table { IsTableOf message.now table.new }
{
    let Ok(mut octets) = Octets::with_room(alloc, end - at) else {
        return Err(WireFault::OutOfMemory);
    };
    let mut here = at;
    for field in fields {
        match append_field(alloc, message, *field, here, end, table, &mut octets) {
            Ok(Some(after)) => here = after,
            Ok(None) => return Err(WireFault::BadData { at }),
            Err(_) => return Err(WireFault::OutOfMemory),
        }
    }
    if here != end {
        return Err(WireFault::BadData { at });
    }
    Ok(octets)
}

// Appends the field at the offset, in data that ends before `stop`, and gives the offset after the field; none where the
// field isn't there.
fn append_field(
    alloc: Global,
    message: &[u8],
    field: Field,
    at: usize,
    stop: usize,
    table: &mut NameTable,
    octets: &mut Octets,
) -> Result<Option<usize>, OutOfMemory>
    requires within { (at ≤ stop) × (stop ≤ length message.now) }
    requires table { IsTableOf message.now table.old }
    ensures ok { IfOk result (Appends message.now stop field at octets.old octets.new) }
    ensures table { IsTableOf message.now table.new }
{
    match field {
        Field::Numbers(count) => append_octets(message, count, at, stop, octets),
        Field::Name => append_name(alloc, message, at, stop, table, octets),
        Field::CharacterString => append_character_string(message, at, stop, octets),
        Field::Rest => append_octets(message, stop - at, at, stop, octets),
    }
}

// Its letters stay as they came.
fn append_name(
    alloc: Global,
    message: &[u8],
    at: usize,
    stop: usize,
    table: &mut NameTable,
    octets: &mut Octets,
) -> Result<Option<usize>, OutOfMemory>
    requires { IsTableOf message.now table.old }
    ensures ok { IfOk result (Appends message.now stop Field.Name at octets.old octets.new) }
    ensures table { IsTableOf message.now table.new }
{
    if table.is_open() {
        return append_far_name(alloc, message, at, stop, table, octets);
    }
    let Some(whole) = whole_at(message, at) else {
        return append_far_name(alloc, message, at, stop, table, octets);
    };
    if whole.end > stop {
        return Ok(None);
    }
    octets.append(octets_between(message, whole.start, whole.start + whole.size))?;
    Ok(Some(whole.end))
}

// Where it isn't whole: from a place of the table, or run by run.
fn append_far_name(
    alloc: Global,
    message: &[u8],
    at: usize,
    stop: usize,
    table: &mut NameTable,
    octets: &mut Octets,
) -> Result<Option<usize>, OutOfMemory>
    requires { IsTableOf message.now table.old }
    ensures ok { IfOk result (Appends message.now stop Field.Name at octets.old octets.new) }
    ensures table { IsTableOf message.now table.new }
{
    match pointed_place(message, at, table) {
        Ok(Some(_)) if at + 2 > stop => return Ok(None),
        Ok(Some(place)) => {
            octets.append(table.octets_of(place))?;
            return Ok(Some(at + 2));
        }
        Ok(None) => {}
        Err(NotRead::Faulty) => return Ok(None),
        Err(NotRead::OutOfMemory) => return Err(AllocError),
    }
    let mut name = ArrayVec::new();
    let end = match write_out(alloc, message, at, table, &mut name) {
        Ok(end) => end,
        Err(NotRead::Faulty) => return Ok(None),
        Err(NotRead::OutOfMemory) => return Err(AllocError),
    };
    if end > stop {
        return Ok(None);
    }
    octets.append(name.as_slice())?;
    Ok(Some(end))
}

fn append_character_string(
    message: &[u8],
    at: usize,
    stop: usize,
    octets: &mut Octets,
) -> Result<Option<usize>, OutOfMemory>
    requires { (at ≤ stop) × (stop ≤ length message.now) }
    ensures { IfOk result
        (Appends message.now stop Field.CharacterString at octets.old octets.new) }
{
    match message.get(at) {
        Some(size) => append_octets(message, 1 + usize::from(*size), at, stop, octets),
        None => Ok(None),
    }
}

fn append_octets(
    message: &[u8],
    count: usize,
    at: usize,
    stop: usize,
    octets: &mut Octets,
) -> Result<Option<usize>, OutOfMemory>
    requires { (at ≤ stop) × (stop ≤ length message.now) }
    ensures { IfOk result
        (Appends message.now stop (Field.Numbers count) at octets.old octets.new) }
{
    if count > stop - at {
        return Ok(None);
    }
    octets.append(octets_between(message, at, at + count))?;
    Ok(Some(at + count))
}
