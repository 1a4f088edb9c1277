//! Denial records of the zone `example`, and what its records are with them.
ghost use Rattle.std.specs.Prelude.{IsTrue};
ghost use Rattle.zone_chains.specs.Zone.{IsDenialOf};

use cache_meaning::Chain;
use denial_records::{KeptNsec, KeptNsec3, Nsec3Rec, NsecRec, Record, TypeSet};
use dname::{Name, NameFault, Octets, OctetsList};
use std::alloc::Global;
use std::sync::Arc;
use std::test::Fail;
use zone_chains::ZoneRecords;

/// A record: the salt of its chain, which is one octet, and where its arc starts and ends.
pub(crate) type New = (u8, u8, u8);

/// In place of a salt: the record is an NSEC record.
pub(crate) const NSEC: u8 = 0;

/// From one place in a chain up to another, from a third on, and the number of its records.
pub(crate) type Places = Option<(usize, usize, usize, usize)>;

/// A name of one label in front of `example`.
pub(crate) fn name(octet: u8) -> Result<Name, NameFault> {
    let (name, _) = Name::read(&[1, octet, 7, b'e', b'x', b'a', b'm', b'p', b'l', b'e', 0])?;
    Ok(name)
}

pub(crate) fn example() -> Result<Name, NameFault> {
    let (name, _) = Name::read(b"\x07example\x00")?;
    Ok(name)
}

fn nsec(alloc: Global, owner: u8, next: u8, life: u32) -> Result<Record, Fail> {
    let nsec = NsecRec {
        zone: example()?,
        owner: name(owner)?,
        next: name(next)?,
        types: TypeSet::read(alloc, b"\x00\x01\x40")?,
        life,
        expiry: 1045762263,
        image: Octets::of(alloc, b"")?,
        signatures: OctetsList::empty(alloc),
    };
    Ok(Record::Nsec(KeptNsec::of(alloc, &nsec)?))
}

fn nsec3(alloc: Global, salt: u8, hash: u8, next: u8, life: u32) -> Result<Record, Fail> {
    let nsec3 = Nsec3Rec {
        zone: example()?,
        hash: [hash; 20],
        next: [next; 20],
        salt: Octets::of(alloc, &[salt])?,
        iterations: 12,
        opt_out: false,
        types: TypeSet::read(alloc, b"\x00\x01\x40")?,
        life,
        expiry: 1045762263,
        image: Octets::of(alloc, b"")?,
        signatures: OctetsList::empty(alloc),
    };
    Ok(Record::Nsec3(KeptNsec3::of(alloc, &nsec3)?))
}

/// The record; `life` tells it from others.
pub(crate) fn record(alloc: Global, new: New, life: u32) -> Result<Arc<Record>, Fail> {
    let (salt, from, to) = new;
    let record = if salt == NSEC {
        nsec(alloc, from, to, life)?
    } else {
        nsec3(alloc, salt, from, to, life)?
    };
    Ok(Arc::new(alloc, record)?)
}

/// Whether it is a denial record of the zone.
pub(crate) fn is_denial_of(apex: &Name, item: &Record) -> bool
    ensures { IsTrue result → IsDenialOf apex.now item.now }
{
    match item {
        Record::Set(_) => false,
        Record::Nsec(nsec) => nsec.zone() == apex.lent(),
        Record::Nsec3(nsec3) => nsec3.zone() == apex.lent(),
    }
}

/// With the record, and where in its chain those stood that it displaces, if the zone had the chain.
pub(crate) fn put(
    alloc: Global,
    zone: &ZoneRecords,
    item: Arc<Record>,
) -> Result<(ZoneRecords, Places), Fail> {
    if !is_denial_of(zone.apex(), &item) {
        return Err(Fail::from("a record of another zone"));
    }
    let (made, met) = zone.with(alloc, item)?;
    match met {
        Some((chain, met)) => Ok((made, Some((met.from, met.to, met.last, chain.len())))),
        None => Ok((made, None)),
    }
}

/// The zone after the records came one by one; the life of each is its number, from 1 on.
pub(crate) fn zone_of(alloc: Global, news: &[New]) -> Result<ZoneRecords, Fail> {
    let mut zone = ZoneRecords::of(example()?);
    let mut life = 0u32;
    for new in news {
        life = life.saturating_add(1);
        let (made, _) = put(alloc, &zone, record(alloc, *new, life)?)?;
        zone = made;
    }
    Ok(zone)
}

/// Where those stand that a record would displace.
pub(crate) fn places(alloc: Global, zone: &ZoneRecords, new: New) -> Result<Places, Fail> {
    let (_, places) = put(alloc, zone, record(alloc, new, 9)?)?;
    Ok(places)
}

/// How many those are.
pub(crate) fn gone(places: Places) -> usize {
    match places {
        Some((from, to, last, len)) => to
            .saturating_sub(from)
            .saturating_add(len.saturating_sub(last)),
        None => 0,
    }
}

/// Whether the newer chain is the NSEC chain, and whether the older is.
pub(crate) fn are_nsec(zone: &ZoneRecords) -> (bool, bool) {
    let [newer, older] = zone.chains();
    (is_nsec(newer), is_nsec(older))
}

fn is_nsec(chain: Chain<'_>) -> bool {
    match chain {
        Chain::Nsec => true,
        _ => false,
    }
}
