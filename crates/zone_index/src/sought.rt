ghost use Rattle.std.specs.Prelude.{◌≡◌};
ghost use Rattle.zone_index.specs.Entries.{record_of, versus};

use crate::entry::Entry;
use dname::LentName;
use std::cmp::Ordering;

/// The records that are looked for: those of an owner; of one owner's, those of a type, or the one with these octets.
#[derive(Debug, Drop)]
pub(crate) enum Sought<'a> {
    AtOwner(&'a LentName<'a>),
    OfType(u16),
    WithData(u16, &'a [u8]),
}

/// Where the entry stands to the records that are looked for: before them, one of them, or behind them.
pub(crate) fn versus(sought: &Sought<'_>, entry: &Entry) -> Ordering
    ensures { result ≡ versus sought.now (record_of entry.now) }
{
    match sought {
        Sought::AtOwner(owner) => entry.owner.name().lent().cmp(owner),
        Sought::OfType(rtype) => entry.rtype.cmp(rtype),
        Sought::WithData(rtype, octets) => {
            let data = entry.octets.as_slice().cmp(octets);
            entry.rtype.cmp(rtype).then(data)
        }
    }
}
