ghost use Rattle.std.specs.Prelude.{◌≡◌};
ghost use Rattle.cache_meaning.specs.Held.{displaces, set_displaces, nsec_displaces, nsec3_displaces};

use denial_records::{KeptNsec, KeptNsec3, KeptSet, Record};
use dname::arcs_meet;

/// Whether the new record takes the place of the old one.
pub(crate) fn displaces(new: &Record, old: &Record) -> bool
    ensures { result ≡ displaces new.now old.now }
{
    match (new, old) {
        (Record::Set(new), Record::Set(old)) => set_displaces(new, old),
        (Record::Nsec(new), Record::Nsec(old)) => nsec_displaces(new, old),
        (Record::Nsec3(new), Record::Nsec3(old)) => nsec3_displaces(new, old),
        _ => false,
    }
}

fn set_displaces(new: &KeptSet, old: &KeptSet) -> bool
    ensures { result ≡ set_displaces new.now old.now }
{
    new.zone() == old.zone() && new.owner() == old.owner() && new.rtype() == old.rtype()
}

fn nsec_displaces(new: &KeptNsec, old: &KeptNsec) -> bool
    ensures { result ≡ nsec_displaces new.now old.now }
{
    new.zone() == old.zone() && arcs_meet(&new.owner(), &new.next(), &old.owner(), &old.next())
}

fn nsec3_displaces(new: &KeptNsec3, old: &KeptNsec3) -> bool
    ensures { result ≡ nsec3_displaces new.now old.now }
{
    new.zone() == old.zone()
        && (new.salt() == old.salt() && new.iterations() == old.iterations())
        && arcs_meet(new.hash(), new.next(), old.hash(), old.next())
}
