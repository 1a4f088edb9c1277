ghost use Rattle.std.specs.Prelude.{◌≡◌};
ghost use Rattle.std.specs.Iterator.{YieldsFirst, item_count};
ghost use Rattle.dname.specs.Name.{IsUnder};
ghost use Rattle.encloser.specs.Encloser.{ancestors};

use dname::Name;
use std::marker::Model;

/// The names above a name that are at or below an apex, the longest first, seen as the list of those that are left.
/// No step takes memory.
///
/// The next closer name of each is the one before it, and of the first the name itself. So a search for the closest
/// encloser by hashes (RFC 5155, section 8.3) hashes each name once.
#[derive(Drop)]
pub struct Ancestors<'a> {
    name: &'a Name,
    // How many labels the one given last has, at first the name.
    labels: usize,
    apex_labels: usize,
}

impl<'a> Model for Ancestors<'a> {
    ghost use Rattle.std.specs.Prelude.{ℕ, ◌≤◌, List, length};
    ghost use Rattle.encloser.specs.Encloser.{ancestors, last_labels};

    ghost Value = { List (List (List ℕ)) };

    ghost view = { λ a.
        ancestors (last_labels a.name.now a.labels) (last_labels a.name.now a.apex_labels) };

    ghost invariant = { λ a. (a.apex_labels ≤ a.labels) × (a.labels ≤ length a.name.now) };
}

impl<'a> Ancestors<'a> {
    /// The names above `name`, down to `apex` and with it; none where the two are one name.
    pub fn of(name: &'a Name, apex: &Name) -> Ancestors<'a>
        requires { IsUnder name.now apex.now }
        ensures { result ≡ ancestors name.now apex.now }
    {
        Ancestors {
            name,
            labels: name.labels(),
            apex_labels: apex.labels(),
        }
    }
}

impl<'a> Iterator for Ancestors<'a> {
    type Item = Name;

    ghost next_gives = { YieldsFirst (λ rest. rest) };

    ghost remaining = { item_count (λ rest. rest) };

    fn next(&mut self) -> Option<Name> {
        if self.labels == self.apex_labels {
            return None;
        }
        self.labels -= 1;
        Some(self.name.last(self.labels))
    }
}
