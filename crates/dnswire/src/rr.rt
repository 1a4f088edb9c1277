ghost use Rattle.std.specs.Prelude.{◌≡◌, ◌⊎◌, IfOk, IfErr};
ghost use Rattle.dnswire.specs.Expansions.{IsTableOf};
ghost use Rattle.dnswire.specs.Message.{IsRr, HasRrFault};
ghost use Rattle.dnswire.specs.declared.wire_fault.WireFault.{WireFault};

use crate::WireFault;
use crate::data::read_data;
use crate::message_name::name_or_fault;
use crate::name_table::NameTable;
use crate::rr_fields::RrFields;
use dname::{BoxedName, ItemList, Name, Octets};
use std::alloc::Global;

/// A list of records, such as a section of a message, seen as such.
pub type RrList = ItemList<Rr>;

/// A resource record (RFC 1035, section 4.1.3).
#[derive(Debug, Drop)]
pub struct Rr {
    pub owner: BoxedName,
    pub rtype: u16,
    pub class: u16,
    /// In seconds.
    pub ttl: u32,
    /// The record's data, with its names written out.
    pub octets: Octets,
}

impl Rr {
    /// The record at the offset, and the offset after it.
    pub(crate) fn read(
        alloc: Global,
        message: &[u8],
        at: usize,
        table: &mut NameTable,
    ) -> Result<(Rr, usize), WireFault>
        requires { IsTableOf message.now table.old }
        ensures read { IfOk result (λ read. IsRr message.now at read.0 read.1) }
        ensures refused { IfErr result (λ fault. (fault ≡ WireFault.OutOfMemory)
            ⊎ HasRrFault message.now at fault) }
        ensures table { IsTableOf message.now table.new }
    {
        let (owner, fields_at) = name_or_fault(alloc, message, at, table)?;
        let Some(fields) = RrFields::read(message, fields_at) else {
            return Err(WireFault::Short);
        };
        let octets = read_data(
            alloc,
            message,
            fields.rtype,
            fields.data_at,
            fields.end,
            table,
        )?;
        let rr = Rr {
            owner: boxed(alloc, owner)?,
            rtype: fields.rtype,
            class: fields.class,
            ttl: fields.ttl,
            octets,
        };
        Ok((rr, fields.end))
    }
}

fn boxed(alloc: Global, owner: Name) -> Result<BoxedName, WireFault>
    ensures ok { IfOk result (λ boxed. boxed ≡ owner) }
    ensures refused { IfErr result (λ fault. fault ≡ WireFault.OutOfMemory) }
{
    match BoxedName::of(alloc, owner) {
        Ok(boxed) => Ok(boxed),
        Err(_) => Err(WireFault::OutOfMemory),
    }
}
