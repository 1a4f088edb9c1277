ghost use Rattle.std.specs.Prelude.{◌≡◌};
ghost use Rattle.std.proofs.Common.{sym, ap};
ghost use Rattle.std.specs.Cmp.{nat_cmp_is};
ghost use Rattle.std.specs.declared.cmp.Ordering.TheVariants.{Less, Equal, Greater};

use dname::Name;
use range_index::{Arcs, Met, OutOfMemory, Place, RingSpan};
use std::alloc::Global;
use std::cmp::Ordering;
use std::sync::Arc;
use std::test::Fail;

// Keys of which a further one can be had.
trait Again {
    fn again(&self) -> Self
        ensures { result ≡ self.now };
}

impl Again for Name {
    fn again(&self) -> Name {
        self.copy()
    }
}

impl Again for [u8; 20] {
    fn again(&self) -> [u8; 20] {
        *self
    }
}

#[derive(Drop)]
struct Span<K: Drop> {
    start: K,
    end: K,
    mark: u32,
}

// Spans whose keys have one mark.
struct Unmarked;

impl<K: Ord + Drop + Again> RingSpan<Span<K>> for Unmarked {
    type Key = K;

    ghost start = { λ span. span.start };

    ghost end = { λ span. span.end };

    ghost origin = { λ span. span.start };

    ghost mark = { λ _ _. 0 };

    fn start_key(span: &Span<K>) -> K {
        span.start.again()
    }

    fn end_key(span: &Span<K>) -> K {
        span.end.again()
    }

    fn origin(span: &Span<K>) -> K {
        span.start.again()
    }

    fn compare_start(span: &Span<K>, key: &K) -> Ordering {
        span.start.cmp(key)
    }

    fn compare_end(span: &Span<K>, key: &K) -> Ordering {
        span.end.cmp(key)
    }

    fn compare_ends(span: &Span<K>) -> Ordering {
        span.start.cmp(&span.end)
    }

    fn mark(_within: &K, _key: &K) -> u64 {
        0
    }

    ghost marks_rise = { λ _ one other less.
        sym (ap (elim [ Less ↦ Less | Equal ↦ K.Ord.cmp one other | Greater ↦ Less ])
        (nat_cmp_is 0 0 Less less)) };
}

// Spans of numbers, whose marks are these numbers.
struct Marked;

impl RingSpan<Span<u8>> for Marked {
    type Key = u8;

    ghost start = { λ span. span.start };

    ghost end = { λ span. span.end };

    ghost origin = { λ span. span.end };

    ghost mark = { λ _ key. key };

    fn start_key(span: &Span<u8>) -> u8 {
        span.start
    }

    fn end_key(span: &Span<u8>) -> u8 {
        span.end
    }

    fn origin(span: &Span<u8>) -> u8 {
        span.end
    }

    fn compare_start(span: &Span<u8>, key: &u8) -> Ordering {
        span.start.cmp(key)
    }

    fn compare_end(span: &Span<u8>, key: &u8) -> Ordering {
        span.end.cmp(key)
    }

    fn compare_ends(span: &Span<u8>) -> Ordering {
        span.start.cmp(&span.end)
    }

    fn mark(_within: &u8, key: &u8) -> u64 {
        u64::from(*key)
    }

    ghost marks_rise = { λ _ one other less. sym (nat_cmp_is one other Less less) };
}

type Unmarkeds<K> = Arcs<Span<K>, Unmarked>;

type Numbers = Arcs<Span<u8>, Marked>;

fn with_span<K: Ord + Drop + Again>(
    alloc: Global,
    arcs: &Unmarkeds<K>,
    start: K,
    end: K,
    mark: u32,
) -> Result<Unmarkeds<K>, OutOfMemory> {
    arcs.with(alloc, Arc::new(alloc, Span { start, end, mark })?)
}

fn mark_at<K: Ord + Drop + Again>(arcs: &Unmarkeds<K>, key: &K) -> Option<(u32, Place)> {
    let (span, place) = arcs.at(key, key)?;
    Some((span.mark, place))
}

fn with_number(
    alloc: Global,
    arcs: &Numbers,
    start: u8,
    end: u8,
    mark: u32,
) -> Result<Numbers, OutOfMemory> {
    arcs.with(alloc, Arc::new(alloc, Span { start, end, mark })?)
}

fn with_number_met(
    alloc: Global,
    arcs: &Numbers,
    start: u8,
    end: u8,
) -> Result<(Numbers, Met), OutOfMemory> {
    let span = Arc::new(
        alloc,
        Span {
            start,
            end,
            mark: 0,
        },
    )?;
    arcs.with_met(alloc, span)
}

fn without_number(alloc: Global, arcs: &Numbers, start: u8) -> Result<Numbers, OutOfMemory> {
    arcs.without(alloc, &start, &start)
}

fn number_at(arcs: &Numbers, key: &u8) -> Option<(u32, Place)> {
    let (span, place) = arcs.at(key, key)?;
    Some((span.mark, place))
}

fn name(octet: u8) -> Result<Name, Fail> {
    let (name, _) = Name::read(&[1, octet, 0])?;
    Ok(name)
}

fn hash(octet: u8) -> Result<[u8; 20], Fail> {
    Ok([octet; 20])
}

fn with_keys<K: Ord + Drop + Again, F: Fn(u8) -> Result<K, Fail>>(
    alloc: Global,
    spans: &[(u8, u8, u32)],
    key: &F,
) -> Result<Unmarkeds<K>, Fail>
    requires { F.IsAlwaysCallable key.now }
{
    let mut arcs = Arcs::empty(alloc);
    for (start, end, mark) in spans {
        let (start, end) = (key(*start)?, key(*end)?);
        arcs = with_span(alloc, &arcs, start, end, *mark)?;
    }
    Ok(arcs)
}

// The first of those keys that isn't found so in the spans, and what is.
fn first_wrong<K: Ord + Drop + Again, F: Fn(u8) -> Result<K, Fail>>(
    alloc: Global,
    spans: &[(u8, u8, u32)],
    wanted: &[(u8, Option<(u32, Place)>)],
    key: &F,
) -> Result<Option<(u8, Option<(u32, Place)>)>, Fail>
    requires { F.IsAlwaysCallable key.now }
{
    let arcs = with_keys(alloc, spans, key)?;
    for (octet, found) in wanted {
        let at = mark_at(&arcs, &key(*octet)?);
        if at != *found {
            return Ok(Some((*octet, at)));
        }
    }
    Ok(None)
}

// Each octet stands for a name and for a hash.
const CHAIN: [(u8, u8, u32); 3] = [(b'b', b'd', 1), (b'd', b'f', 2), (b'h', b'a', 3)];

const FOUND: [(u8, Option<(u32, Place)>); 9] = [
    (b'b', Some((1, Place::Start))),
    (b'c', Some((1, Place::Inside))),
    // An arc ends before its end.
    (b'd', Some((2, Place::Start))),
    (b'f', None),
    (b'g', None),
    (b'h', Some((3, Place::Start))),
    // Over the end of the order.
    (b'z', Some((3, Place::Inside))),
    (b'0', Some((3, Place::Inside))),
    (b'a', None),
];

// The last arc is the whole ring.
const RING_ALONE: [(u8, u8, u32); 3] = [(b'b', b'd', 1), (b'h', b'a', 2), (b'c', b'c', 3)];

const ALL_FOUND: [(u8, Option<(u32, Place)>); 3] = [
    (b'b', Some((3, Place::Inside))),
    (b'c', Some((3, Place::Start))),
    (b'z', Some((3, Place::Inside))),
];

#[test]
fn names_are_found(rt: HostRuntime) -> Result<(), Fail> {
    let wrong = first_wrong(rt.alloc(), &CHAIN, &FOUND, &name)?;
    assert!(rt; wrong.is_none(), "in a chain, {wrong:?}");
    let wrong = first_wrong(rt.alloc(), &RING_ALONE, &ALL_FOUND, &name)?;
    assert!(rt; wrong.is_none(), "in the whole ring, {wrong:?}");
    Ok(())
}

#[test]
fn hashes_are_found(rt: HostRuntime) -> Result<(), Fail> {
    let wrong = first_wrong(rt.alloc(), &CHAIN, &FOUND, &hash)?;
    assert!(rt; wrong.is_none(), "in a chain, {wrong:?}");
    let wrong = first_wrong(rt.alloc(), &RING_ALONE, &ALL_FOUND, &hash)?;
    assert!(rt; wrong.is_none(), "in the whole ring, {wrong:?}");
    Ok(())
}

// How many spans stay of those where the last is the whole ring.
fn count_alone<K: Ord + Drop + Again, F: Fn(u8) -> Result<K, Fail>>(
    alloc: Global,
    key: &F,
) -> Result<usize, Fail>
    requires { F.IsAlwaysCallable key.now }
{
    Ok(with_keys(alloc, &RING_ALONE, key)?.len())
}

#[test]
fn the_whole_ring_stays_alone(rt: HostRuntime) -> Result<(), Fail> {
    let names = count_alone(rt.alloc(), &name)?;
    let hashes = count_alone(rt.alloc(), &hash)?;
    assert!(rt;
        names == 1 && hashes == 1,
        "{names} spans of names, {hashes} of hashes"
    );
    Ok(())
}

fn with_all(alloc: Global, spans: &[(u8, u8)]) -> Result<Numbers, OutOfMemory> {
    let mut arcs = Arcs::empty(alloc);
    for (start, end) in spans {
        arcs = with_number(alloc, &arcs, *start, *end, 0)?;
    }
    Ok(arcs)
}

// Whether the arcs are those spans.
fn are(arcs: &Numbers, spans: &[(u8, u8)]) -> bool {
    let mut wanted = spans.iter();
    for span in arcs.iter() {
        if wanted.next() != Some(&(span.start, span.end)) {
            return false;
        }
    }
    wanted.next().is_none()
}

// Whether the place is one of those.
fn has(met: Met, place: usize) -> bool {
    met.from <= place && place < met.to || met.last <= place
}

// Whether these are the places of the spans that go.
fn goes_as(met: Met, stay: [u8; 4]) -> bool {
    let mut place = 0usize;
    for stays in stay {
        if has(met, place) != (stays == b'0') {
            return false;
        }
        place = place.saturating_add(1);
    }
    true
}

fn expected(
    alloc: Global,
    old: &[(u8, u8)],
    new: (u8, u8),
    before: usize,
    stay: [u8; 4],
) -> Result<Vec<(u8, u8)>, OutOfMemory> {
    let mut wanted = Vec::new(alloc);
    for (pair, stays) in old.iter().zip(stay) {
        if wanted.len() == before {
            wanted.push(new)?;
        }
        if stays == b'1' {
            wanted.push(*pair)?;
        }
    }
    if wanted.len() == before {
        wanted.push(new)?;
    }
    Ok(wanted)
}

const OLD: [(u8, u8); 4] = [(10, 20), (20, 30), (30, 40), (50, 5)];

// The new one; how many stand before it, and which of the old ones stay.
type Row = (u8, u8, usize, [u8; 4]);

const NEW: [Row; 19] = [
    // It fits between two.
    (40u8, 50u8, 3, *b"1111"),
    (5, 10, 0, *b"1111"),
    // It is in one, from its start or not.
    (10, 15, 0, *b"0111"),
    (12, 15, 0, *b"0111"),
    // It has the start of the next.
    (12, 20, 0, *b"0111"),
    (12, 21, 0, *b"0011"),
    (40, 51, 3, *b"1110"),
    // It is in the one that goes over the end.
    (52, 60, 3, *b"1110"),
    (2, 3, 0, *b"1110"),
    (2, 10, 0, *b"1110"),
    (2, 11, 0, *b"0110"),
    // It goes over the end itself.
    (40, 5, 3, *b"1110"),
    (40, 10, 3, *b"1110"),
    (40, 11, 2, *b"0110"),
    (60, 1, 3, *b"1110"),
    (22, 10, 1, *b"1000"),
    (12, 11, 0, *b"0000"),
    // The whole ring.
    (40, 40, 0, *b"0000"),
    (0, 0, 0, *b"0000"),
];

// Whether the old arcs with the new one, and the places of those that go, are as the row says, and the old ones stay.
fn is_right(alloc: Global, row: Row) -> Result<bool, OutOfMemory> {
    let (start, end, before, stay) = row;
    let arcs = with_all(alloc, &OLD)?;
    let wanted = expected(alloc, &OLD, (start, end), before, stay)?;
    let made = with_number(alloc, &arcs, start, end, 0)?;
    let (again, met) = with_number_met(alloc, &arcs, start, end)?;
    Ok(
        are(&made, wanted.as_slice())
            && are(&again, wanted.as_slice())
            && goes_as(met, stay)
            && are(&arcs, &OLD),
    )
}

fn first_wrong_row(alloc: Global, rows: &[Row]) -> Result<Option<Row>, OutOfMemory> {
    for row in rows {
        if !is_right(alloc, *row)? {
            return Ok(Some(*row));
        }
    }
    Ok(None)
}

#[test]
fn a_new_arc_takes_the_place_of_those_that_it_meets(rt: HostRuntime) -> Result<(), Fail> {
    let wrong = first_wrong_row(rt.alloc(), &NEW)?;
    assert!(rt; wrong.is_none(), "{wrong:?}");
    Ok(())
}

fn is_without(alloc: Global, start: u8, spans: &[(u8, u8)]) -> Result<bool, OutOfMemory> {
    let arcs = with_all(alloc, &OLD)?;
    Ok(are(&without_number(alloc, &arcs, start)?, spans))
}

#[test]
fn the_arc_that_starts_at_a_key_goes(rt: HostRuntime) -> Result<(), Fail> {
    let one = is_without(rt.alloc(), 30, &[(10, 20), (20, 30), (50, 5)])?;
    // No arc starts there.
    let none = is_without(rt.alloc(), 31, &OLD)?;
    assert!(rt; one && none, "without one {one}, without none {none}");
    Ok(())
}

fn are_kept(alloc: Global) -> Result<bool, OutOfMemory> {
    let arcs = with_all(alloc, &OLD)?;
    let kept = arcs.kept(alloc, |span| span.start != 20 && span.end != 5)?;
    Ok(are(&kept, &[(10, 20), (30, 40)]))
}

#[test]
fn some_go(rt: HostRuntime) -> Result<(), Fail> {
    let kept = are_kept(rt.alloc())?;
    assert!(rt; kept);
    Ok(())
}

// The start of the last of the old arcs, by its place.
fn last_start(alloc: Global) -> Result<u8, OutOfMemory> {
    let arcs = with_all(alloc, &OLD)?;
    if arcs.len() > 3 {
        Ok(arcs.get(3).start)
    } else {
        Ok(0)
    }
}

#[test]
fn an_arc_stands_at_its_place(rt: HostRuntime) -> Result<(), Fail> {
    let start = last_start(rt.alloc())?;
    assert!(rt; start == 50, "{start}");
    Ok(())
}

// A ring of 32 keys.
const RING: u8 = 32;

// Whether the arc has the key, by how far each is from its start.
fn reaches(start: u8, end: u8, key: u8) -> bool {
    let far = |to: u8| to.wrapping_sub(start) % RING;
    start == end || far(key) < far(end)
}

// A key, the mark of the span that has it or 0, and whether that starts there.
type Entry = (u8, u32, bool);

// The marks of the spans that have one of those keys.
fn met(alloc: Global, plain: &[Entry], start: u8, end: u8) -> Result<Vec<u32>, OutOfMemory> {
    let mut marks = Vec::new(alloc);
    for (key, mark, _) in plain {
        if *mark != 0 && reaches(start, end, *key) {
            marks.push(*mark)?;
        }
    }
    Ok(marks)
}

fn plain_with(
    alloc: Global,
    plain: &[Entry],
    start: u8,
    end: u8,
    mark: u32,
) -> Result<Vec<Entry>, OutOfMemory> {
    let gone = met(alloc, plain, start, end)?;
    let mut made = Vec::new(alloc);
    for (key, old, starts) in plain {
        let entry = if reaches(start, end, *key) {
            (*key, mark, *key == start)
        } else if gone.contains(old) {
            (*key, 0, false)
        } else {
            (*key, *old, *starts)
        };
        made.push(entry)?;
    }
    Ok(made)
}

fn plain_without(alloc: Global, plain: &[Entry], start: u8) -> Result<Vec<Entry>, OutOfMemory> {
    let mut gone = 0u32;
    for (key, mark, starts) in plain {
        if *key == start && *starts {
            gone = *mark;
        }
    }
    let mut made = Vec::new(alloc);
    for (key, old, starts) in plain {
        let goes = *old == gone;
        made.push(if goes {
            (*key, 0, false)
        } else {
            (*key, *old, *starts)
        })?;
    }
    Ok(made)
}

// Whether each key is found where the plain entries have it.
fn agree(arcs: &Numbers, plain: &[Entry]) -> bool {
    for (key, mark, starts) in plain {
        let place = if *starts { Place::Start } else { Place::Inside };
        let wanted = if *mark == 0 {
            None
        } else {
            Some((*mark, place))
        };
        if number_at(arcs, key) != wanted {
            return false;
        }
    }
    true
}

fn next(seed: &mut u64) -> u8 {
    *seed = seed
        .wrapping_mul(6_364_136_223_846_793_005)
        .wrapping_add(1_442_695_040_888_963_407);
    let high = *seed >> 40;
    u8::try_from(high % u64::from(RING)).unwrap_or(0)
}

// Arcs, and the table that they should be.
#[derive(Drop)]
struct Both {
    arcs: Numbers,
    plain: Vec<Entry>,
}

fn both_with(
    alloc: Global,
    both: &Both,
    start: u8,
    end: u8,
    mark: u32,
) -> Result<Both, OutOfMemory> {
    let plain = plain_with(alloc, both.plain.as_slice(), start, end, mark)?;
    let arcs = with_number(alloc, &both.arcs, start, end, mark)?;
    Ok(Both { arcs, plain })
}

fn both_without(alloc: Global, both: &Both, start: u8) -> Result<Both, OutOfMemory> {
    let plain = plain_without(alloc, both.plain.as_slice(), start)?;
    let arcs = without_number(alloc, &both.arcs, start)?;
    Ok(Both { arcs, plain })
}

// How many spans there are with a new one that meets some of so many.
fn count_with(count: usize, met: Met) -> usize {
    let dropped = met
        .to
        .saturating_sub(met.from)
        .saturating_add(count.saturating_sub(met.last));
    count.saturating_sub(dropped).saturating_add(1)
}

// Whether these are the places of the spans with the marks.
fn are_of(met: Met, arcs: &Numbers, marks: &[u32]) -> bool {
    let mut place = 0usize;
    for span in arcs.iter() {
        if has(met, place) != marks.contains(&span.mark) {
            return false;
        }
        place = place.saturating_add(1);
    }
    true
}

// Whether `with_met` gives the places of the spans that the table has at a key of the new one, and drops as many.
fn meets_as(alloc: Global, both: &Both, start: u8, end: u8) -> Result<bool, OutOfMemory> {
    let marks = met(alloc, both.plain.as_slice(), start, end)?;
    let (made, met) = with_number_met(alloc, &both.arcs, start, end)?;
    Ok(are_of(met, &both.arcs, marks.as_slice()) && made.len() == count_with(both.arcs.len(), met))
}

fn empty_table(alloc: Global) -> Result<Vec<Entry>, OutOfMemory> {
    let mut plain = Vec::new(alloc);
    for key in 0..RING {
        plain.push((key, 0, false))?;
    }
    Ok(plain)
}

// Most arcs are short, so that many stand side by side.
fn end_of(start: u8, far: u8, mark: u32) -> u8 {
    let far = if mark % 16 == 1 { far } else { far % 4 + 1 };
    start.wrapping_add(far) % RING
}

// Arcs and table with a random arc, or without one; none where they don't agree.
fn changed(
    alloc: Global,
    both: Both,
    seed: &mut u64,
    mark: u32,
) -> Result<Option<Both>, OutOfMemory> {
    let start = next(seed);
    let new = if mark % 4 == 0 {
        both_without(alloc, &both, start)?
    } else {
        let end = end_of(start, next(seed), mark);
        if !meets_as(alloc, &both, start, end)? {
            return Ok(None);
        }
        both_with(alloc, &both, start, end, mark)?
    };
    if agree(&new.arcs, new.plain.as_slice()) {
        Ok(Some(new))
    } else {
        Ok(None)
    }
}

// The first of so many changes after which arcs and table don't agree.
fn differs_at(alloc: Global, turns: u32) -> Result<Option<u32>, OutOfMemory> {
    let (arcs, plain) = (Arcs::empty(alloc), empty_table(alloc)?);
    let mut both = Both { arcs, plain };
    let mut seed = 1u64;
    for mark in 1..=turns {
        match changed(alloc, both, &mut seed, mark)? {
            Some(new) => both = new,
            None => return Ok(Some(mark)),
        }
    }
    Ok(None)
}

#[test]
fn arcs_agree_with_a_table_of_keys(rt: HostRuntime) -> Result<(), Fail> {
    let wrong = differs_at(rt.alloc(), 10_000)?;
    assert!(rt; wrong.is_none(), "call {wrong:?}");
    Ok(())
}
