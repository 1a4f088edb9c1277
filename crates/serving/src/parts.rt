//! Parts of what lies in a row.
ghost use Rattle.std.specs.Prelude.{◌≡◌, ◌≤◌, length, take};

/// The first `count` items.
pub(crate) fn first<X>(items: &[X], count: usize) -> &[X]
    requires { count ≤ length items.now }
    ensures { result.now ≡ take count items.now }
{
    &items[..count]
}
