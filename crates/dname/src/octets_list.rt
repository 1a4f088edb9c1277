ghost use Rattle.std.specs.Prelude.{◌≡◌, IfOk};

use crate::{ItemList, Octets, OutOfMemory};
use std::alloc::Global;

/// A list of octets, such as the data of an RRset, seen as the list of their lists.
pub type OctetsList = ItemList<Octets>;

impl ItemList<Octets> {
    /// An equal list.
    pub fn copy(&self, alloc: Global) -> Result<OctetsList, OutOfMemory>
        ensures { IfOk result (λ copy. copy ≡ self.now) }
    {
        let mut copy = OctetsList::empty(alloc);
        for item in self.as_slice() {
            copy.push(item.copy(alloc)?)?;
        }
        Ok(copy)
    }
}
