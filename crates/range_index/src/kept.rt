//! What stays of a list by a test.
ghost use Rattle.std.specs.Prelude.{◌≡◌, map, filter, IfOk, Bool};
ghost use Rattle.std.specs.Fn.{FnReturnsAt};
ghost use Rattle.std.specs.Arc.{arc_value};
ghost use Rattle.range_index.specs.Arcs.{IsArcs};

use crate::ring_span::SpanList;
use crate::{OutOfMemory, RingSpan};
use std::alloc::Global;
use std::sync::Arc;

// New owners of the spans that `keep` holds of.
pub(crate) fn kept_shares<T: Drop, R: RingSpan<T>, F: Fn(&T) -> bool>(
    alloc: Global,
    list: &SpanList<T, R>,
    keep: F,
) -> Result<Vec<Arc<T>>, OutOfMemory>
    requires callable { F.IsAlwaysCallable keep }
    requires arcs { IsArcs R.Key.Ord.cmp R.start R.end list.now }
    ensures arcs { IfOk result
        (λ made. IsArcs R.Key.Ord.cmp R.start R.end (map arc_value made.items)) }
    ensures exact { IfOk result (λ made. (p : T → Bool)
        → ((x : T) (r : Bool) → FnReturnsAt F.Fn keep x r → r ≡ p x)
        → map arc_value made.items ≡ filter p list.now) }
{
    let mut made = Vec::new(alloc);
    for share in list.iter() {
        if keep(share) {
            made.push(Arc::try_clone(share)?)?;
        }
    }
    Ok(made)
}
