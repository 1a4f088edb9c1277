//! What the store finds after random batches is what the plain store finds.
ghost use Rattle.std.specs.Prelude.{◌≤◌, ◌<◌};

use super::records::{hash_of, name, nsec, nsec3, set};
use cache_meaning::{Chain, HeldZone, Place, PlainStore, PlainZone};
use denial_records::{Batch, HASH_OCTETS, KeptNsec, KeptNsec3, KeptSet, Record, RecordList};
use dname::{Name, OutOfMemory};
use record_store::{Store, ZoneRef};
use std::alloc::Global;
use std::test::Fail;

const THEN: u32 = 1_000_000_000;

const NAMES: u64 = 12;

// Numbers that look random (Knuth, MMIX).
#[derive(Drop)]
struct Random {
    state: u64,
}

impl Random {
    fn below(&mut self, n: u64) -> u64
        requires { 1 ≤ n }
        ensures { result < n }
    {
        self.state = self
            .state
            .wrapping_mul(6_364_136_223_846_793_005)
            .wrapping_add(1_442_695_040_888_963_407);
        (self.state >> 33) % n
    }
}

// The names in canonical order. The second, fifth and ninth are apexes.
fn in_order(place: u64) -> &'static [u8] {
    match place % NAMES {
        0 => b"\x00",
        1 => b"\x07example\x00",
        2 => b"\x01*\x07example\x00",
        3 => b"\x01a\x07example\x00",
        4 => b"\x01b\x07example\x00",
        5 => b"\x01*\x01b\x07example\x00",
        6 => b"\x01c\x01b\x07example\x00",
        7 => b"\x01x\x01c\x01b\x07example\x00",
        8 => b"\x03sub\x01b\x07example\x00",
        9 => b"\x01z\x03sub\x01b\x07example\x00",
        10 => b"\x02bb\x07example\x00",
        _ => b"\x02zz\x07example\x00",
    }
}

// A zone, and which names from which on are in it.
fn any_zone(random: &mut Random) -> (&'static [u8], u64, u64) {
    match random.below(4) {
        0 => (in_order(8), 8, 2),
        1 => (in_order(4), 4, 6),
        _ => (in_order(1), 1, 11),
    }
}

fn any_chain(random: &mut Random) -> (&'static [u8], u16) {
    match random.below(3) {
        0 => (b"".as_slice(), 0),
        1 => (b"\xAA".as_slice(), 0),
        _ => (b"\xAA".as_slice(), 1),
    }
}

// A record that expires in so many seconds at most.
fn any_record(alloc: Global, random: &mut Random, now: u32, longest: u64) -> Result<Record, Fail> {
    let expiry = u64::from(now).saturating_add(1 + random.below(longest.max(1)));
    let (zone, from, count) = any_zone(random);
    let count = count.max(1);
    let owner = in_order(from.saturating_add(random.below(count)));
    let next = in_order(from.saturating_add(random.below(count)));
    match random.below(5) {
        0 => set(alloc, zone, owner, 1 + random.below(2) as u16, expiry),
        1 | 2 => nsec(alloc, zone, owner, next, expiry),
        _ => {
            let chain = any_chain(random);
            let (hash, next) = (random.below(16) as u8, random.below(16) as u8);
            nsec3(alloc, zone, chain, hash, next, expiry)
        }
    }
}

fn any_batch(alloc: Global, random: &mut Random, now: u32) -> Result<Batch, Fail> {
    let mut records = RecordList::empty(alloc);
    let longest = if random.below(4) == 0 { 20 } else { 400 };
    for _ in 0..random.below(5) {
        records.push(any_record(alloc, random, now, longest)?)?;
    }
    Ok(Batch { now, records })
}

fn same_chain(one: Chain<'_>, other: Chain<'_>) -> bool {
    match (one, other) {
        (Chain::Bare, Chain::Bare) => true,
        (Chain::Nsec, Chain::Nsec) => true,
        (
            Chain::Nsec3 { salt, iterations },
            Chain::Nsec3 {
                salt: other_salt,
                iterations: other_iterations,
            },
        ) => salt == other_salt && iterations == other_iterations,
        _ => false,
    }
}

fn same_set(one: Option<&KeptSet>, other: Option<&KeptSet>) -> bool {
    match (one, other) {
        (None, None) => true,
        (Some(one), Some(other)) => {
            one.owner() == other.owner()
                && one.rtype() == other.rtype()
                && one.expiry() == other.expiry()
        }
        _ => false,
    }
}

fn same_nsec(one: Option<(&KeptNsec, Place)>, other: Option<(&KeptNsec, Place)>) -> bool {
    match (one, other) {
        (None, None) => true,
        (Some((one, place)), Some((other, other_place))) => {
            one.owner() == other.owner() && one.expiry() == other.expiry() && place == other_place
        }
        _ => false,
    }
}

fn same_nsec3(one: Option<(&KeptNsec3, Place)>, other: Option<(&KeptNsec3, Place)>) -> bool {
    match (one, other) {
        (None, None) => true,
        (Some((one, place)), Some((other, other_place))) => {
            *one.hash() == *other.hash() && one.expiry() == other.expiry() && place == other_place
        }
        _ => false,
    }
}

fn same_sets(fast: &ZoneRef<'_>, slow: &PlainZone<'_>, asked: &Name) -> bool {
    same_set(fast.set_at(asked, 1), slow.set_at(asked, 1))
        && same_set(fast.set_at(asked, 2), slow.set_at(asked, 2))
}

fn same_by_hash(
    fast: &ZoneRef<'_>,
    slow: &PlainZone<'_>,
    salt: &[u8],
    iterations: u16,
    hash: &[u8; HASH_OCTETS],
) -> bool {
    same_nsec3(
        fast.nsec3_at(salt, iterations, hash),
        slow.nsec3_at(salt, iterations, hash),
    )
}

fn same_chains(fast: &ZoneRef<'_>, slow: &PlainZone<'_>) -> bool {
    let [newer, older] = fast.chains();
    let [slow_newer, slow_older] = slow.chains();
    same_chain(newer, slow_newer) && same_chain(older, slow_older)
}

fn same_in_zone(fast: &ZoneRef<'_>, slow: &PlainZone<'_>, asked: &Name, number: u8) -> bool {
    let hash = hash_of(number);
    fast.apex() == slow.apex()
        && same_chains(fast, slow)
        && same_sets(fast, slow, asked)
        && same_nsec(fast.nsec_at(asked), slow.nsec_at(asked))
        && same_by_hash(fast, slow, b"", 0, &hash)
        && same_by_hash(fast, slow, b"\xAA", 0, &hash)
        && same_by_hash(fast, slow, b"\xAA", 1, &hash)
}

fn same_answers(store: &Store, plain: &PlainStore, asked: &Name, qtype: u16, hash: u8) -> bool {
    match (store.zone_for(asked, qtype), plain.zone_for(asked, qtype)) {
        (None, None) => true,
        (Some(fast), Some(slow)) => same_in_zone(&fast, &slow, asked, hash),
        _ => false,
    }
}

fn all_the_same(store: &Store, plain: &PlainStore) -> Result<bool, Fail> {
    let mut same = store.len() == plain.len();
    for place in 0..NAMES {
        let asked = name(in_order(place))?;
        let hash = place as u8;
        same = same
            && same_answers(store, plain, &asked, 1, hash)
            && same_answers(store, plain, &asked, 43, hash);
    }
    Ok(same)
}

// The two after the same batches.
#[derive(Drop)]
struct Both {
    store: Store,
    plain: PlainStore,
}

impl Both {
    fn after(&self, alloc: Global, batch: &Batch) -> Result<Both, OutOfMemory> {
        Ok(Both {
            store: self.store.with_batch(alloc, batch)?,
            plain: self.plain.with_batch(alloc, batch)?,
        })
    }
}

// The first turn after which the two don't answer alike, and the most records that were held.
fn play(alloc: Global, turns: u32) -> Result<(Option<u32>, usize), Fail> {
    let mut random = Random { state: 7 };
    let mut both = Both {
        store: Store::empty(alloc)?,
        plain: PlainStore::empty(alloc),
    };
    let mut most = 0;
    for turn in 0..turns {
        let batch = any_batch(alloc, &mut random, THEN.saturating_add(turn))?;
        both = both.after(alloc, &batch)?;
        if !all_the_same(&both.store, &both.plain)? {
            return Ok((Some(turn), most));
        }
        most = most.max(both.store.len());
    }
    Ok((None, most))
}

#[test]
fn random_batches_are_found_alike(rt: HostRuntime) -> Result<(), Fail> {
    let (wrong, most) = play(rt.alloc(), 2000)?;
    assert!(rt; wrong.is_none(), "{wrong:?}");
    // Enough stay to displace one another, and enough expire.
    assert!(rt; 20 <= most && most <= 200, "{most}");
    Ok(())
}
