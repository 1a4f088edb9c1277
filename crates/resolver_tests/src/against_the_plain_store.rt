//! What `prove` says of random states and questions is what the same steps say over the plain store.
ghost use Rattle.std.specs.Prelude.{◌≤◌, ◌<◌};

use crate::records::{Hashing, ZONE, name, nsec, nsec3, set};
use cache_meaning::{Chain, HeldZone, PlainStore, Proven};
use denial_records::{Batch, Denial, KeptSet, Kind, Record, RecordList, Verdict};
use dname::{Name, NameFault};
use record_store::Store;
use std::alloc::Global;
use std::test::Fail;

const THEN: u32 = 1_000_000_000;

const NAMES: u64 = 14;

// Numbers that look random (Knuth, MMIX).
#[derive(Drop)]
struct Random {
    state: u64,
}

impl Random {
    fn below(&mut self, n: u64) -> u64
        requires { 1 ≤ n }
        ensures { result < n }
    {
        self.state = self
            .state
            .wrapping_mul(6_364_136_223_846_793_005)
            .wrapping_add(1_442_695_040_888_963_407);
        (self.state >> 33) % n
    }
}

// The names in canonical order.
fn in_order(place: u64) -> &'static [u8] {
    match place % NAMES {
        0 => ZONE,
        1 => b"\x01*\x07example\x00",
        2 => b"\x01y\x01*\x07example\x00",
        3 => b"\x01a\x07example\x00",
        4 => b"\x01*\x01a\x07example\x00",
        5 => b"\x01x\x01a\x07example\x00",
        6 => b"\x01w\x01x\x01a\x07example\x00",
        7 => b"\x01b\x07example\x00",
        8 => b"\x01z\x01b\x07example\x00",
        9 => b"\x01m\x07example\x00",
        10 => b"\x01n\x01m\x07example\x00",
        11 => b"\x03sub\x07example\x00",
        12 => b"\x01x\x03sub\x07example\x00",
        _ => b"\x02zz\x07example\x00",
    }
}

// The same names in the order of their hashes without salt and iterations.
fn by_hash(place: u64) -> &'static [u8] {
    match place % NAMES {
        0 => in_order(11),
        1 => in_order(0),
        2 => in_order(12),
        3 => in_order(3),
        4 => in_order(1),
        5 => in_order(7),
        6 => in_order(5),
        7 => in_order(4),
        8 => in_order(10),
        9 => in_order(9),
        10 => in_order(6),
        11 => in_order(8),
        12 => in_order(2),
        _ => in_order(13),
    }
}

// And with a salt of four octets and one iteration.
fn by_salted_hash(place: u64) -> &'static [u8] {
    match place % NAMES {
        0 => in_order(7),
        1 => in_order(10),
        2 => in_order(2),
        3 => in_order(3),
        4 => in_order(4),
        5 => in_order(9),
        6 => in_order(5),
        7 => in_order(11),
        8 => in_order(1),
        9 => in_order(12),
        10 => in_order(6),
        11 => in_order(13),
        12 => in_order(8),
        _ => in_order(0),
    }
}

fn any_types(random: &mut Random) -> &'static [u8] {
    match random.below(8) {
        // None, NS, NS with DS, CNAME, DNAME.
        0 => b"",
        1 => b"\x00\x01\x20",
        2 => b"\x00\x06\x20\x00\x00\x00\x00\x10",
        3 => b"\x00\x01\x04",
        4 => b"\x00\x05\x00\x00\x00\x00\x01",
        // A, otherwise.
        _ => b"\x00\x01\x40",
    }
}

fn any_type(random: &mut Random) -> u16 {
    match random.below(4) {
        0 => 16,
        1 => 43,
        _ => 1,
    }
}

// A record whose expiry no other of a state has, since its last digits are the serial.
fn any_record(
    alloc: Global,
    random: &mut Random,
    serial: u32,
    hashed: bool,
) -> Result<Record, Fail> {
    let expiry = u64::from(THEN) + 1000 * random.below(9) + u64::from(serial);
    let life = 2000;
    let place = random.below(NAMES);
    let next = place + 1 + random.below(3);
    let types = any_types(random);
    let opt_out = random.below(4) == 0;
    let form = if hashed { 6 } else { random.below(8) };
    match form {
        0 => set(alloc, ZONE, 6, life, expiry),
        1 => set(alloc, in_order(place), any_type(random), life, expiry),
        2 | 3 | 4 => nsec(alloc, in_order(place), in_order(next), types, life, expiry),
        5 => {
            let hashing = Hashing {
                salt: b"\xAA\xBB\xCC\xDD",
                iterations: 1,
                opt_out,
            };
            nsec3(
                alloc,
                by_salted_hash(place),
                by_salted_hash(next),
                types,
                hashing,
                life,
                expiry,
            )
        }
        _ => {
            let hashing = Hashing {
                salt: b"",
                iterations: 0,
                opt_out,
            };
            nsec3(
                alloc,
                by_hash(place),
                by_hash(next),
                types,
                hashing,
                life,
                expiry,
            )
        }
    }
}

fn any_batch(alloc: Global, random: &mut Random) -> Result<Batch, Fail> {
    let mut records = RecordList::empty(alloc);
    records.push(set(alloc, ZONE, 6, 2000, u64::from(THEN) + 8999)?)?;
    // A state of one hashed chain, or of all kinds of records.
    let hashed = random.below(3) == 0;
    for serial in 0..24 {
        records.push(any_record(alloc, random, serial, hashed)?)?;
    }
    Ok(Batch { now: THEN, records })
}

// What a verdict says, its records by their expiry.
#[derive(Clone, Copy, Debug, PartialEq, Eq)]
struct Said {
    kind: Kind,
    ttl: u32,
    answer: u64,
    soa: u64,
    first: u64,
    second: u64,
    third: u64,
}

fn expiry_of_set(set: &Option<&KeptSet>) -> u64 {
    match set {
        Some(set) => set.expiry(),
        None => 0,
    }
}

fn expiry_of(denial: &Option<Denial<'_>>) -> u64 {
    match denial {
        Some(Denial::Nsec(nsec)) => nsec.expiry(),
        Some(Denial::Nsec3(nsec3)) => nsec3.expiry(),
        None => 0,
    }
}

fn told(verdict: &Option<Verdict<'_>>) -> Option<Said> {
    match verdict {
        Some(verdict) => Some(Said {
            kind: verdict.kind,
            ttl: verdict.ttl,
            answer: expiry_of_set(&verdict.answer_set),
            soa: expiry_of_set(&verdict.soa),
            first: expiry_of(&verdict.first),
            second: expiry_of(&verdict.second),
            third: expiry_of(&verdict.third),
        }),
        None => None,
    }
}

// How often each kind was said, and by three records.
#[derive(Debug, Drop)]
struct Tally {
    answers: u64,
    no_data: u64,
    name_errors: u64,
    by_three: u64,
}

impl Tally {
    fn add(&mut self, said: &Option<Said>) {
        let Some(said) = said else {
            return;
        };
        match said.kind {
            Kind::Answer => self.answers = self.answers.saturating_add(1),
            Kind::NoData => self.no_data = self.no_data.saturating_add(1),
            Kind::NxDomain => self.name_errors = self.name_errors.saturating_add(1),
        }
        if said.third != 0 {
            self.by_three = self.by_three.saturating_add(1);
        }
    }

    // Whether all kinds came, and often.
    fn is_often(&self) -> bool {
        self.answers >= 10 && self.no_data >= 10 && self.name_errors >= 10 && self.by_three >= 10
    }
}

// A question on which the two stores differ, and what the fast one and the plain one say.
#[derive(Debug, Drop)]
struct Difference {
    place: u64,
    qtype: u16,
    now: u32,
    fast: Option<Said>,
    plain: Option<Said>,
}

fn by_chain<'a, Z: HeldZone<'a>>(
    zone: &Z,
    chain: Chain<'_>,
    name: &Name,
    qtype: u16,
    now: u32,
) -> Option<Proven<'a>> {
    match chain {
        Chain::Bare => None,
        Chain::Nsec => synth_nsec::judge(zone, name, qtype, now),
        Chain::Nsec3 { salt, iterations } => {
            synth_nsec3::judge(zone, salt, iterations, name, qtype, now)
        }
    }
}

// What the steps say over the plain store: by the set, and then by each chain.
fn plain_proof<'a>(
    plain: &'a PlainStore,
    name: &Name,
    qtype: u16,
    now: u32,
) -> Option<Verdict<'a>> {
    let zone = plain.zone_for(name, qtype)?;
    if let Some(proof) = synth_nsec::exact(&zone, name, qtype, now) {
        return Some(proof.verdict(now));
    }
    for chain in zone.chains() {
        if let Some(proof) = by_chain(&zone, chain, name, qtype, now) {
            return Some(proof.verdict(now));
        }
    }
    None
}

// Asks both stores for the name of that place at that moment, by three types.
fn asked_of_both(
    store: &Store,
    plain: &PlainStore,
    place: u64,
    now: u32,
    tally: &mut Tally,
) -> Result<Option<Difference>, NameFault> {
    let asked = name(in_order(place))?;
    for qtype in [1, 16, 43] {
        let fast = told(&resolver::prove(store, &asked, qtype, now));
        let slow = told(&plain_proof(plain, &asked, qtype, now));
        if fast != slow {
            return Ok(Some(Difference {
                place,
                qtype,
                now,
                fast,
                plain: slow,
            }));
        }
        tally.add(&fast);
    }
    Ok(None)
}

// The first difference of one random state, all names asked at a random moment each.
fn difference_of_a_state(
    alloc: Global,
    random: &mut Random,
    tally: &mut Tally,
) -> Result<Option<Difference>, Fail> {
    let batch = any_batch(alloc, random)?;
    let store = Store::empty(alloc)?.with_batch(alloc, &batch)?;
    let plain = PlainStore::empty(alloc).with_batch(alloc, &batch)?;
    if store.len() != plain.len() {
        return Err("not as many records")?;
    }
    for place in 0..NAMES {
        let now = THEN + random.below(4000) as u32;
        let difference = asked_of_both(&store, &plain, place, now, tally)?;
        if difference.is_some() {
            return Ok(difference);
        }
    }
    Ok(None)
}

#[test]
fn random_states_prove_the_same(rt: HostRuntime) -> Result<(), Fail> {
    let mut random = Random { state: 1 };
    let mut tally = Tally {
        answers: 0,
        no_data: 0,
        name_errors: 0,
        by_three: 0,
    };
    for round in 0..400 {
        let difference = difference_of_a_state(rt.alloc(), &mut random, &mut tally)?;
        assert!(rt; difference.is_none(), "{round} {difference:?}");
    }
    let often = tally.is_often();
    assert!(rt; often, "{tally:?}");
    Ok(())
}
