ghost use Rattle.std.specs.Prelude.{◌≡◌, ◌≤◌, IfOk};
ghost use Rattle.std.specs.List.Sorted.{IsPermutation};
ghost use Rattle.zone_maker.specs.Made.{made_example, made_zone};
ghost use Rattle.zone_maker.specs.Messages.{messages_of};

use crate::message::messages;
use crate::zone::zone;
use dname::{OctetsList, OutOfMemory};
use std::alloc::Global;
use zone_meaning::ZoneTable;

/// A made zone, and the messages of a validating resolver that are about it.
#[derive(Drop)]
pub struct Made {
    pub zone: ZoneTable,
    /// One for each owner, in canonical order.
    pub messages: OctetsList,
}

/// Makes the zone of the seed and so many names, and its messages. In which order the zone has its records is left open.
pub fn make(alloc: Global, seed: u32, names: u32) -> Result<Made, OutOfMemory>
    requires some { 1 ≤ names }
    requires few { names ≤ 10000 }
    ensures apex { IfOk result (λ made. made.zone.apex ≡ made_example) }
    ensures records { IfOk result (λ made.
        IsPermutation (made_zone seed names).records made.zone.records) }
    ensures messages { IfOk result (λ made. made.messages ≡ messages_of seed names) }
{
    Ok(Made {
        zone: zone(alloc, seed, names)?,
        messages: messages(alloc, seed, names)?,
    })
}
