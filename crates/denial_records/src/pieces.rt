ghost use Rattle.std.specs.Prelude.{◌≡◌, ◌++◌, OnOk, IfOk};

use dname::{OctetsList, OutOfMemory, Pack};
use std::alloc::Global;

/// Puts the items last, in order.
pub(crate) fn push_all(pack: &mut Pack, items: &OctetsList) -> Result<(), OutOfMemory>
    ensures { OnOk result (pack.new ≡ pack.old ++ items.now) }
{
    for item in items.as_slice() {
        pack.push(item.as_slice())?;
    }
    Ok(())
}

/// The items in order.
pub(crate) fn pack_of(alloc: Global, items: &OctetsList) -> Result<Pack, OutOfMemory>
    ensures { IfOk result (λ pack. pack ≡ items.now) }
{
    let mut pack = Pack::empty(alloc);
    push_all(&mut pack, items)?;
    Ok(pack)
}
