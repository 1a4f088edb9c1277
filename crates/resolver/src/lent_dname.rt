use denial_records::KeptSet;
use dname::Name;
use std::marker::Model;

/// A DNAME RRset, and the name that its data is, seen as the two.
#[derive(Drop)]
pub(crate) struct LentDname<'a> {
    pub(crate) set: &'a KeptSet,
    pub(crate) suffix: Name,
}

impl<'a> Model for LentDname<'a> {
    ghost use Rattle.resolver.specs.Dname.{Dname};

    ghost Value = { Dname };

    ghost view = { λ d. record { set = d.set.now; suffix = d.suffix } };
}
