ghost use Rattle.std.specs.Prelude.{◌≡◌, ◌<◌, ◌^◌, ℕ, slice_index};
ghost use Rattle.counters.specs.Counts.{count_of, no_counts, times, with_tally};
ghost use Rattle.counters.specs.declared.counter.Counter.{Counter as ACounter};

use crate::{COUNTERS, Counter};
use std::marker::Model;

/// How often each was counted, since the start. A count begins anew behind 2^64 - 1. Seen as their list, in the order of
/// `Counter::ALL`.
#[derive(Drop)]
pub struct Counts {
    numbers: [u64; COUNTERS],
}

impl Model for Counts {
    ghost use Rattle.std.specs.Prelude.{List, ℕ};

    ghost Value = { List ℕ };

    ghost view = { λ c. c.numbers };
}

impl Counts {
    /// Nothing was counted.
    pub fn new() -> Counts
        ensures { result ≡ no_counts }
    {
        Counts {
            numbers: [0; COUNTERS],
        }
    }

    /// So many more.
    pub fn add(&mut self, counter: Counter, number: u64)
        ensures { self.new ≡ with_tally self.old (times number counter) }
    {
        let at = counter.index();
        self.numbers[at] = self.numbers[at].wrapping_add(number);
    }

    /// The same counts.
    pub fn copy(&self) -> Counts
        ensures { result ≡ self.now }
    {
        Counts {
            numbers: self.numbers,
        }
    }

    /// Each count is below 2^64. It does nothing: a caller's proof learns so.
    pub fn each_is_small(&self)
        ensures { (counter : ACounter) → count_of self.now counter < 2 ^ 64 }
    {
        are_small(&self.numbers);
    }

    /// How often it was counted.
    pub fn of(&self, counter: Counter) -> u64
        ensures { result ≡ count_of self.now counter }
    {
        self.numbers[counter.index()]
    }
}

fn are_small(numbers: &[u64])
    ensures { (k : ℕ) → slice_index numbers.now k < 2 ^ 64 }
{
    let _numbers = numbers;
}
