//! Parts of a long list.
ghost use Rattle.std.specs.Prelude.{◌≡◌, IfOk, ◌<◌, ◌≤◌};
ghost use Rattle.std.specs.List.{flat_map};
ghost use Rattle.page_list.specs.declared.short.TheConstants.{MOST};

use crate::OutOfMemory;
use crate::short::{MOST, Short};
use std::alloc::Global;

/// Where a list is thought to grow further.
#[derive(Clone, Copy)]
pub(crate) enum Growth {
    Anywhere,
    AtEnd,
}

impl Growth {
    /// Of a list that has just got something, at its end or elsewhere.
    pub(crate) fn after(at_end: bool) -> Growth {
        if at_end {
            Growth::AtEnd
        } else {
            Growth::Anywhere
        }
    }
}

/// The values in parts of a quarter of what a part may have to all of it, or in one part where there are fewer: even ones, of half
/// of it at least, or in a list that grows at its end three quarters of it in each part but the last.
pub(crate) fn cut<X: Drop>(
    alloc: Global,
    values: Vec<X>,
    growth: Growth,
) -> Result<Vec<Short<X>>, OutOfMemory>
    ensures { IfOk result (λ parts. flat_map (λ part. part) parts.items ≡ values.items) }
{
    let mut rest = values;
    let mut parts = Vec::new(alloc);
    while rest.len() > MOST {
        let at = rest.len() - last_size(rest.len(), growth);
        let part = rest.split_off(at)?;
        parts.push(Short::of(part))?;
    }
    // what the long list has beside its first part would fit no other page: that too gets a block of memory of its own size
    let first = rest.split_off(0)?;
    if !first.is_empty() {
        parts.push(Short::of(first))?;
    }
    parts.reverse();
    Ok(parts)
}

// How many of so many values, too many for one part, the last part has.
// Full blocks would be fewer, but each entry that comes into their midst would cut one again; halves would stay half
// empty for good in a list that is filled in order.
fn last_size(count: usize, growth: Growth) -> usize
    requires { MOST < count }
    ensures some { 0 < result }
    ensures few { result ≤ MOST }
{
    let least = MOST / 4;
    let size = match growth {
        Growth::Anywhere => count / ((count - 1) / MOST + 1),
        // as good as done, with some room for what still comes between
        Growth::AtEnd => (count - least) % (least * 3) + least,
    };
    size.clamp(1, MOST)
}
