ghost use Rattle.std.specs.Prelude.{◌≡◌, ◌↔◌, ℕ, List, length, Some};
ghost use Rattle.dname.specs.Name.{Label};
ghost use Rattle.dname.specs.Read.{Spells};
ghost use Rattle.dname.specs.NameData.{name_in, one_name_in};

use crate::{Name, Packed};

/// The name that the octets are, in whatever case; none where they are no name, or more than one. It takes no memory.
pub fn name_in(octets: &[u8]) -> Option<Name>
    ensures { result ≡ name_in octets.now }
{
    match Name::read(octets) {
        Ok((name, taken)) => {
            if taken == octets.len() {
                Some(name)
            } else {
                None
            }
        }
        Err(_) => None,
    }
}

/// The name that the one item is; none where there are several, or it is no name. It takes no memory.
pub fn one_name_in(items: Packed<'_>) -> Option<Name>
    ensures { result ≡ one_name_in items.entry }
{
    let mut rest = items;
    let first = rest.next()?;
    if rest.is_empty() {
        name_in(first)
    } else {
        None
    }
}

/// Octets are a name just where `Name::read` takes all of them for that name.
pub fn a_name_is_read_whole()
    ensures { (octets : List ℕ) (name : List Label)
        → (name_in octets ≡ Some name) ↔ Spells octets name (length octets) }
{}
