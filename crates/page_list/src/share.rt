//! More owners of what is shared.
ghost use Rattle.std.specs.Prelude.{◌≡◌, ◌++◌, map, IfOk, OnOk};
ghost use Rattle.std.specs.Arc.{arc_value};
ghost use Rattle.page_list.specs.Rows.{block_of};

use crate::OutOfMemory;
use crate::slot::Slot;
use std::alloc::Global;
use std::sync::Arc;

/// New owners of the blocks in `before`, then `between`, then new owners of the blocks in `after`.
pub(crate) fn shared_round<X: Drop>(
    alloc: Global,
    before: &[Slot<X>],
    between: Vec<Arc<X>>,
    after: &[Slot<X>],
) -> Result<Vec<Arc<X>>, OutOfMemory>
    ensures { IfOk result (λ all. map arc_value all.items
        ≡ map block_of before.now ++ map arc_value between.items ++ map block_of after.now) }
{
    let mut between = between;
    let count = before
        .len()
        .saturating_add(between.len())
        .saturating_add(after.len());
    let mut all = Vec::with_capacity(alloc, count)?;
    share_onto(&mut all, before)?;
    all.append(&mut between)?;
    share_onto(&mut all, after)?;
    Ok(all)
}

// Puts another owner of each block behind `onto`.
fn share_onto<X: Drop>(onto: &mut Vec<Arc<X>>, from: &[Slot<X>]) -> Result<(), OutOfMemory>
    ensures { OnOk result
        (map arc_value onto.new.items ≡ map arc_value onto.old.items ++ map block_of from.now) }
{
    for slot in from {
        onto.push(Arc::try_clone(slot.share())?)?;
    }
    Ok(())
}
