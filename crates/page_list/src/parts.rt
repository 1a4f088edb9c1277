//! Parts of what lies in a row.
ghost use Rattle.std.specs.Prelude.{◌≡◌, ◌≤◌, length, take, drop, IfSome};
ghost use Rattle.page_list.specs.Search.{IsLastOf};

/// The first `n` items, or all.
pub(crate) fn items_before<X>(items: &[X], n: usize) -> &[X]
    ensures { result.now ≡ take n items.now }
{
    if n < items.len() { &items[..n] } else { items }
}

/// The items from the item `n` on.
pub(crate) fn items_from<X>(items: &[X], n: usize) -> &[X]
    ensures { result.now ≡ drop n items.now }
{
    if n < items.len() {
        &items[n..]
    } else {
        &items[items.len()..]
    }
}

/// The last of the first `count` items, if there is one.
pub(crate) fn last_of<X>(items: &[X], count: usize) -> Option<&X>
    requires { count ≤ length items.now }
    ensures { IfSome result (λ last. IsLastOf items.now count last.now) }
{
    if count == 0 {
        None
    } else {
        Some(&items[count - 1])
    }
}
