ghost use Rattle.std.specs.Prelude.{◌≡◌, ◌/◌, nat_lt};
ghost use Rattle.std.specs.List.{prefix_len};
ghost use Rattle.std.specs.Ordering.{nat_cmp};
ghost use Rattle.std.proofs.lemmas.Cmp.{nat_cmp_total, on_total};
ghost use Rattle.std.specs.Cmp.{nat_cmp_is};
ghost use Rattle.std.specs.declared.cmp.Ordering.TheVariants.{Less, Equal, Greater};
ghost use Rattle.std.proofs.Common.{sym, ap};

use super::*;
use page_list::Marking;
use std::cell::Cell;
use std::cmp::Ordering;
use std::test::Fail;

// Numbers by their tens, so that those of one ten rank equal; their tens are their marks.
struct ByTens;

impl Marking<u64> for ByTens {
    ghost mark = { λ x. x / 10 };

    ghost note = { λ _. 0 };

    fn mark(entry: &u64) -> u64 {
        *entry / 10
    }

    fn note(_entry: &u64) -> u64 {
        0
    }
}

impl Ranking<u64> for ByTens {
    ghost cmp = { λ x y. nat_cmp (x / 10) (y / 10) };

    fn compare(one: &u64, other: &u64) -> Ordering {
        (*one / 10).cmp(&(*other / 10))
    }

    ghost total = { on_total (λ x. x / 10) nat_cmp_total };

    ghost marks_rise = { λ one other less. sym (nat_cmp_is (one / 10) (other / 10) Less less) };
}

type Tens = OrderedList<u64, ByTens>;

fn next(seed: &mut u64) -> u64 {
    *seed = seed
        .wrapping_mul(6_364_136_223_846_793_005)
        .wrapping_add(1_442_695_040_888_963_407);
    *seed >> 33
}

// By `get`, by the iterator and by a search for each entry.
fn same(list: &Tens, plain: &[u64]) -> bool {
    if list.len() != plain.len() {
        return false;
    }
    for (i, x) in plain.iter().enumerate() {
        if i < list.len() && **list.get(i) != *x {
            return false;
        }
        match list.at(x) {
            Some(entry) if **entry == *x => {}
            _ => return false,
        }
    }
    let mut rest = plain.iter();
    for entry in list {
        if rest.next() != Some(&**entry) {
            return false;
        }
    }
    rest.next().is_none()
}

#[derive(Clone, Copy)]
enum Change {
    With(u64),
    Without(u64),
    WithoutFirst(usize),
}

fn changed(alloc: Global, list: &Tens, change: Change) -> Result<Tens, OutOfMemory> {
    match change {
        Change::With(n) => list.with(alloc, Arc::new(alloc, n)?),
        Change::Without(n) => list.without(alloc, &n),
        Change::WithoutFirst(n) => list.without_first(alloc, n.min(list.len())),
    }
}

// The same by a list that is used up.
fn into_changed(alloc: Global, list: Tens, change: Change) -> Result<Tens, OutOfMemory> {
    match change {
        Change::With(n) => list.into_with(alloc, Arc::new(alloc, n)?),
        Change::Without(n) => list.into_without(alloc, &n),
        Change::WithoutFirst(n) => {
            let count = n.min(list.len());
            list.into_without_first(alloc, count)
        }
    }
}

// The same of a plain list that is sorted anew.
fn change_plain(plain: &mut Vec<u64>, change: Change) -> Result<(), OutOfMemory> {
    match change {
        Change::With(n) => {
            plain.retain(|x| *x / 10 != n / 10);
            plain.push(n)?;
            plain.sort()?;
        }
        Change::Without(n) => plain.retain(|x| *x / 10 != n / 10),
        Change::WithoutFirst(n) => drop(plain.drain(..n.min(plain.len()))),
    }
    Ok(())
}

#[test]
fn an_entry_takes_the_place_of_its_equal(rt: HostRuntime) -> Result<(), Fail> {
    let alloc = rt.alloc();
    let mut list: Tens = OrderedList::empty(alloc);
    assert!(rt; list.is_empty());
    // what is done, and what the list then is
    let rows = [
        (Change::With(42), "42"),
        // before it and behind it
        (Change::With(17), "17 42"),
        (Change::With(60), "17 42 60"),
        // of the same ten, one more and one less
        (Change::With(45), "17 45 60"),
        (Change::With(40), "17 40 60"),
        // no number of that ten
        (Change::Without(59), "17 40 60"),
        (Change::Without(30), "17 40 60"),
        // another number of that ten
        (Change::Without(49), "17 60"),
        (Change::With(9), "9 17 60"),
        (Change::WithoutFirst(0), "9 17 60"),
        (Change::WithoutFirst(2), "60"),
        (Change::Without(60), ""),
    ];
    for (change, wanted) in rows {
        list = changed(alloc, &list, change)?;
        let mut written = String::new(alloc);
        for entry in &list {
            if !written.is_empty() {
                written.push(' ')?;
            }
            write!(written, "{}", **entry)?;
        }
        assert_eq!(rt; written.as_str(), wanted);
    }
    Ok(())
}

#[test]
fn changes_as_a_sorted_vector_does(rt: HostRuntime) -> Result<(), Fail> {
    let alloc = rt.alloc();
    let mut seed = 5;
    let mut list: Tens = OrderedList::empty(alloc);
    let mut plain: Vec<u64> = Vec::new(alloc);
    for turn in 0..1000u64 {
        let n = next(&mut seed) % 4000;
        let change = match next(&mut seed) % 20 {
            0 => Change::WithoutFirst((n % 8) as usize),
            1..7 => Change::Without(n),
            _ => Change::With(n),
        };
        let new = if turn % 2 == 0 {
            changed(alloc, &list, change)?
        } else {
            into_changed(alloc, list.try_clone(alloc)?, change)?
        };
        assert!(rt;
            same(&list, plain.as_slice()),
            "the old list, at turn {turn}"
        );
        change_plain(&mut plain, change)?;
        assert!(rt; same(&new, plain.as_slice()), "at turn {turn}");
        list = new;
    }
    Ok(())
}

// What has the rank of a number, and the list with the number there.
fn at_rank(alloc: Global, list: &Tens, n: u64) -> Result<(Option<u64>, Tens), OutOfMemory> {
    let rank = list.rank(&n);
    let old = list.ranked(rank).map(|entry| **entry);
    let made = list.with_at(alloc, rank, Arc::new(alloc, n)?)?;
    Ok((old, made))
}

#[test]
fn a_rank_shows_its_entry_and_takes_another(rt: HostRuntime) -> Result<(), Fail> {
    let alloc = rt.alloc();
    let mut list: Tens = OrderedList::empty(alloc);
    for n in [33, 5, 71] {
        list = list.with(alloc, Arc::new(alloc, n)?)?;
    }
    // of a ten that is there
    let (old, made) = at_rank(alloc, &list, 38)?;
    assert_eq!(rt; old, Some(33));
    assert!(rt; same(&made, &[5, 38, 71]));
    // of a ten that isn't
    let (old, made) = at_rank(alloc, &list, 40)?;
    assert_eq!(rt; old, None);
    assert!(rt; same(&made, &[5, 33, 40, 71]));
    Ok(())
}

// How many entries stand before a ten.
fn count_before(list: &Tens, ten: u64) -> usize
    ensures { result ≡ prefix_len (λ x. nat_lt (x / 10) ten) list.now }
{
    list.find(|x| *x / 10 < ten)
}

#[test]
fn finds_where_a_test_ends(rt: HostRuntime) -> Result<(), Fail> {
    let alloc = rt.alloc();
    let mut list: Tens = OrderedList::empty(alloc);
    for n in [33, 5, 71, 38] {
        list = list.with(alloc, Arc::new(alloc, n)?)?;
    }
    // of 5, 38 and 71
    for (ten, wanted) in [(0, 0), (1, 1), (3, 1), (4, 2), (7, 2), (8, 3)] {
        assert_eq!(rt; count_before(&list, ten), wanted, "at {ten}");
    }
    Ok(())
}

// A number that counts how often it is compared.
#[derive(Drop)]
struct Counted {
    number: u64,
    calls: Arc<Cell<u64>>,
}

impl Counted {
    fn of(number: u64, calls: &Arc<Cell<u64>>) -> Result<Counted, OutOfMemory> {
        Ok(Counted {
            number,
            calls: Arc::try_clone(calls)?,
        })
    }
}

struct ByNumber;

impl Marking<Counted> for ByNumber {
    ghost mark = { λ _. 0 };

    ghost note = { λ _. 0 };

    fn mark(_entry: &Counted) -> u64 {
        0
    }

    fn note(_entry: &Counted) -> u64 {
        0
    }
}

impl Ranking<Counted> for ByNumber {
    ghost cmp = { λ x y. nat_cmp x.number y.number };

    fn compare(one: &Counted, other: &Counted) -> Ordering {
        one.calls.set(one.calls.get().wrapping_add(1));
        one.number.cmp(&other.number)
    }

    ghost total = { on_total (λ x. x.number) nat_cmp_total };

    ghost marks_rise = { λ one other less.
        sym (ap (elim [ Less ↦ Less | Equal ↦ nat_cmp one.number other.number | Greater ↦ Less ])
        (nat_cmp_is 0 0 Less less)) };
}

// The most comparisons of a search, in a list that was made one number after another; none where one misses.
fn most_comparisons(alloc: Global, count: u64) -> Result<Option<u64>, OutOfMemory> {
    let calls = Arc::new(alloc, Cell::new(0u64))?;
    let mut list: OrderedList<Counted, ByNumber> = OrderedList::empty(alloc);
    for number in 0..count {
        list = list.with(alloc, Arc::new(alloc, Counted::of(number, &calls)?)?)?;
    }
    let mut most = 0;
    for number in 0..count {
        let sought = Counted::of(number, &calls)?;
        calls.set(0);
        if list.at(&sought).is_none() {
            return Ok(None);
        }
        most = most.max(calls.get());
    }
    Ok(Some(most))
}

#[test]
fn a_search_compares_few_times(rt: HostRuntime) -> Result<(), Fail> {
    // how many entries, and how many comparisons are enough: one by one, 8192 come to 32 shelves at most, each
    // with 32 pages at most, each with 32 entries at most; and the entry at the place is compared once more
    for (count, enough) in [(1, 2), (16, 6), (1000, 14), (8192, 17)] {
        let most = most_comparisons(rt.alloc(), count)?.ok_or("a search misses")?;
        println!(rt; "{count}: {most}")?;
        assert!(rt; most <= enough, "{most} comparisons at {count} entries");
    }
    Ok(())
}
