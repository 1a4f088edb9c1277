ghost use Rattle.std.specs.Prelude.{◌≡◌};

use dname::Name;
use std::marker::Model;

/// What the records of a group have in common.
#[derive(PartialEq, Eq, PartialOrd, Ord, Drop)]
pub(crate) struct Key {
    pub(crate) owner: Name,
    pub(crate) class: u16,
    pub(crate) rtype: u16,
}

impl Key {
    pub(crate) fn lent(&self) -> LentKey<'_>
        ensures { result ≡ self.now }
    {
        LentKey {
            owner: &self.owner,
            class: self.class,
            rtype: self.rtype,
        }
    }
}

/// A key whose owner name is lent, seen as the key.
#[derive(Drop)]
pub(crate) struct LentKey<'a> {
    pub(crate) owner: &'a Name,
    pub(crate) class: u16,
    pub(crate) rtype: u16,
}

impl<'a> Model for LentKey<'a> {
    ghost use Rattle.intake.specs.declared.key.Key.{Key};

    ghost Value = { Key };

    ghost view = { λ k. record { owner = k.owner.now; class = k.class; rtype = k.rtype } };
}

impl<'a> LentKey<'a> {
    pub(crate) fn owned(&self) -> Key
        ensures { result ≡ self.now }
    {
        Key {
            owner: self.owner.copy(),
            class: self.class,
            rtype: self.rtype,
        }
    }
}
