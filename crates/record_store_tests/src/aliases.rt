//! A set and the owner name's CNAME set by one search.

use super::records::{name, set};
use denial_records::{Batch, RecordList};
use dname::types::CNAME_TYPE;
use record_store::{SetAndAlias, Store};
use std::alloc::Global;
use std::test::Fail;

const THEN: u32 = 1_000_000_000;

const LATER: u64 = 1_000_003_600;

const ZONE: &[u8] = b"\x07example\x00";

// Of the names of one letter the one whose sets stand next before those of the owner name, that, and the one with the next.
const BEFORE: &[u8] = b"\x01z\x07example\x00";

const OWNER: &[u8] = b"\x01s\x07example\x00";

const BEHIND: &[u8] = b"\x01j\x07example\x00";

// The types of the owner name's sets, the type that is asked for, whether there is such a set, and whether there is a CNAME set,
// where the search tells.
struct Row {
    held: &'static [u16],
    asked: u16,
    set: bool,
    alias: Option<bool>,
}

const ROWS: &[Row] = &[
    // Nothing but the sets of other names: that is seen at once, whatever is asked for.
    Row {
        held: &[],
        asked: 0,
        set: false,
        alias: Some(false),
    },
    Row {
        held: &[],
        asked: 1,
        set: false,
        alias: Some(false),
    },
    Row {
        held: &[],
        asked: 5,
        set: false,
        alias: Some(false),
    },
    Row {
        held: &[],
        asked: 6,
        set: false,
        alias: Some(false),
    },
    Row {
        held: &[],
        asked: 65_535,
        set: false,
        alias: Some(false),
    },
    // A CNAME set alone is found with each type.
    Row {
        held: &[5],
        asked: 0,
        set: false,
        alias: Some(true),
    },
    Row {
        held: &[5],
        asked: 1,
        set: false,
        alias: Some(true),
    },
    Row {
        held: &[5],
        asked: 4,
        set: false,
        alias: Some(true),
    },
    Row {
        held: &[5],
        asked: 6,
        set: false,
        alias: Some(true),
    },
    Row {
        held: &[5],
        asked: 28,
        set: false,
        alias: Some(true),
    },
    Row {
        held: &[5],
        asked: 65_535,
        set: false,
        alias: Some(true),
    },
    Row {
        held: &[5],
        asked: 5,
        set: true,
        alias: None,
    },
    // Other sets that stand behind.
    Row {
        held: &[1],
        asked: 28,
        set: false,
        alias: Some(false),
    },
    Row {
        held: &[1],
        asked: 5,
        set: false,
        alias: Some(false),
    },
    Row {
        held: &[28],
        asked: 6,
        set: false,
        alias: Some(false),
    },
    Row {
        held: &[5, 28],
        asked: 6,
        set: false,
        alias: Some(true),
    },
    // And before, which hide whether there is one.
    Row {
        held: &[28],
        asked: 1,
        set: false,
        alias: None,
    },
    Row {
        held: &[6],
        asked: 28,
        set: false,
        alias: None,
    },
    Row {
        held: &[5, 28],
        asked: 1,
        set: false,
        alias: None,
    },
    // What is asked for is found among all.
    Row {
        held: &[1, 5, 6, 28, 65_535],
        asked: 1,
        set: true,
        alias: None,
    },
    Row {
        held: &[1, 5, 6, 28, 65_535],
        asked: 5,
        set: true,
        alias: None,
    },
    Row {
        held: &[1, 5, 6, 28, 65_535],
        asked: 6,
        set: true,
        alias: None,
    },
    Row {
        held: &[1, 5, 6, 28, 65_535],
        asked: 28,
        set: true,
        alias: None,
    },
    Row {
        held: &[1, 5, 6, 28, 65_535],
        asked: 65_535,
        set: true,
        alias: None,
    },
    Row {
        held: &[1, 5, 6, 28, 65_535],
        asked: 0,
        set: false,
        alias: None,
    },
    Row {
        held: &[1, 5, 6, 28, 65_535],
        asked: 15,
        set: false,
        alias: None,
    },
];

// The owner name's sets between those of two others, each with a CNAME set.
fn filled(alloc: Global, held: &[u16]) -> Result<Store, Fail> {
    let mut records = RecordList::empty(alloc);
    for rtype in held {
        records.push(set(alloc, ZONE, OWNER, *rtype, LATER)?)?;
    }
    records.push(set(alloc, ZONE, BEFORE, 1, LATER)?)?;
    records.push(set(alloc, ZONE, BEFORE, 5, LATER)?)?;
    records.push(set(alloc, ZONE, BEHIND, 5, LATER)?)?;
    let batch = Batch { now: THEN, records };
    Ok(Store::empty(alloc)?.with_batch(alloc, &batch)?)
}

// Whether the set that was asked for was found, and whether a CNAME set was, each of the owner name.
fn told(found: &SetAndAlias<'_>, asked: u16) -> Result<(bool, Option<bool>), Fail> {
    let owner = name(OWNER)?;
    let set = match found.set {
        Some(set) => set.owner() == owner.lent() && set.rtype() == asked,
        None => false,
    };
    let alias = match found.alias {
        Some(Some(alias)) => Some(alias.owner() == owner.lent() && alias.rtype() == CNAME_TYPE),
        Some(None) => Some(false),
        None => None,
    };
    Ok((set, alias))
}

fn is_right(alloc: Global, row: &Row) -> Result<bool, Fail> {
    let store = filled(alloc, row.held)?;
    let Some(zone) = store.zone_for(&name(OWNER)?, 1) else {
        return Ok(false);
    };
    let found = zone.set_and_alias_at(&name(OWNER)?, row.asked);
    Ok(told(&found, row.asked)? == (row.set, row.alias))
}

// The place of the first row that is wrong.
fn first_wrong(alloc: Global) -> Result<Option<usize>, Fail> {
    for place in 0..ROWS.len() {
        if !is_right(alloc, &ROWS[place])? {
            return Ok(Some(place));
        }
    }
    Ok(None)
}

#[test]
fn a_set_or_its_alias_is_found_by_one_search(rt: HostRuntime) -> Result<(), Fail> {
    let wrong = first_wrong(rt.alloc())?;
    assert!(rt; wrong.is_none(), "{wrong:?}");
    Ok(())
}

// What has expired is lent until a batch comes.
#[test]
fn an_alias_that_has_expired_is_lent(rt: HostRuntime) -> Result<(), Fail> {
    let store = filled(rt.alloc(), &[5])?;
    let late = RecordList::empty(rt.alloc());
    let batch = Batch {
        now: 1_000_003_600,
        records: late,
    };
    let kept = is_held(&store)?;
    let gone = is_held(&store.with_batch(rt.alloc(), &batch)?)?;
    assert!(rt; (kept, gone) == (true, false), "{kept} {gone}");
    Ok(())
}

// Whether the owner name's CNAME set is lent.
fn is_held(store: &Store) -> Result<bool, Fail> {
    let Some(zone) = store.zone_for(&name(OWNER)?, 1) else {
        return Ok(false);
    };
    let found = zone.set_and_alias_at(&name(OWNER)?, 1);
    Ok(told(&found, 1)?.1 == Some(true))
}
