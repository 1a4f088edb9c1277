ghost use Rattle.std.specs.Prelude.{◌≡◌, ◌⊎◌, length, IfOk, IfErr};
ghost use Rattle.dnswire.specs.Expansions.{IsTableOf};
ghost use Rattle.dnswire.specs.InTurn.{StandInTurn};
ghost use Rattle.dnswire.specs.Message.{IsRr, HasFaultAmong};
ghost use Rattle.dnswire.specs.declared.wire_fault.WireFault.{WireFault};

use crate::name_table::NameTable;
use crate::{Rr, RrList, WireFault};
use std::alloc::Global;

/// So many records from the offset on, and the offset after them.
pub(crate) fn read_section(
    alloc: Global,
    message: &[u8],
    at: usize,
    count: u16,
    table: &mut NameTable,
) -> Result<(RrList, usize), WireFault>
    requires { IsTableOf message.now table.old }
    ensures read { IfOk result (λ read. StandInTurn (IsRr message.now) at read.0 read.1) }
    ensures size { IfOk result (λ read. length read.0 ≡ count) }
    ensures refused { IfErr result (λ fault. (fault ≡ WireFault.OutOfMemory)
        ⊎ HasFaultAmong message.now at count fault) }
    ensures table { IsTableOf message.now table.new }
{
    let mut rrs = RrList::empty(alloc);
    let mut here = at;
    for _ in 0..count {
        let (rr, after) = Rr::read(alloc, message, here, table)?;
        match rrs.push(rr) {
            Ok(()) => here = after,
            Err(_) => return Err(WireFault::OutOfMemory),
        }
    }
    Ok((rrs, here))
}
