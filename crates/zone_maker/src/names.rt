ghost use Rattle.std.specs.Prelude.{◌≡◌, ◌≤◌, ◌∷◌, ◌++◌, length, codes};
ghost use Rattle.dname.specs.Name.{HasLabelLength, lowered, wire_of};
ghost use Rattle.zone_maker.specs.Made.{made_example, name_server, digit, six_digits, name_at, kind_at, owner_in, made_owner, next_owner};
ghost use Rattle.zone_maker.specs.NameKinds.{kind_of};

use crate::name_kind::{NameKind, kind_at};
use dname::Name;

/// The name at the zone's top.
pub(crate) fn apex() -> Name
    ensures { result ≡ made_example }
{
    below(b"made", &below(b"example", &Name::root()))
}

/// The name server of the zone and of its cuts.
pub(crate) fn name_server() -> Name
    ensures { result ≡ name_server }
{
    below(b"ns", &below(b"example", &Name::root()))
}

/// Name number i.
pub(crate) fn name_at(i: u32) -> Name
    ensures { result ≡ name_at i }
{
    below(&label_at(i), &apex())
}

/// The owner that name number i gives.
pub(crate) fn owner_at(i: u32) -> Name
    ensures { result ≡ owner_in (kind_at i) (name_at i) }
{
    owner_in(kind_at(i), i)
}

/// Owner number k in canonical order, the apex being number 0.
pub(crate) fn made_owner(k: u32) -> Name
    ensures { result ≡ made_owner k }
{
    if k == 0 { apex() } else { owner_at(k - 1) }
}

/// The owner behind owner number k, and the apex behind the last.
pub(crate) fn next_owner(names: u32, k: u32) -> Name
    ensures { result ≡ next_owner names k }
{
    if k == names { apex() } else { owner_at(k) }
}

/// The name with this label in front.
pub(crate) fn below(label: &[u8], name: &Name) -> Name
    requires size { HasLabelLength label.now }
    requires lower { lowered label.now ≡ label.now }
    requires room { length (wire_of (label.now ∷ name.now)) ≤ 255 }
    ensures { result ≡ label.now ∷ name.now }
{
    match name.child(label) {
        Some(child) => child,
        None => unreachable!(),
    }
}

fn owner_in(kind: NameKind, i: u32) -> Name
    ensures { result ≡ owner_in (kind_of kind) (name_at i) }
{
    let name = name_at(i);
    match kind {
        NameKind::Host | NameKind::Cut => name,
        NameKind::Above => below(b"x", &name),
        NameKind::Wild => below(b"*", &name),
    }
}

fn label_at(i: u32) -> [u8; 7]
    ensures { result ≡ codes "n" ++ six_digits i }
{
    [
        b'n',
        digit(i / 100_000),
        digit(i / 10_000),
        digit(i / 1000),
        digit(i / 100),
        digit(i / 10),
        digit(i),
    ]
}

// The last decimal digit, in ASCII.
fn digit(n: u32) -> u8
    ensures { result ≡ digit n }
{
    b'0' + (n % 10) as u8
}
