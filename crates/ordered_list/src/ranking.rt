//! An order of entries.
ghost use Rattle.std.specs.Prelude.{◌≡◌, ◌<◌};
ghost use Rattle.std.specs.Cmp.{IsTotalOrder};
ghost use Rattle.std.specs.declared.cmp.Ordering.{Ordering};
ghost use Rattle.std.specs.declared.cmp.Ordering.TheVariants.{Less};

use page_list::Marking;
use std::cmp::Ordering;

/// A total order of entries, as a type of its own, so that one type of entries may have several. Entries that rank
/// equal need not be equal. An entry with a lesser mark ranks below one with a greater mark.
pub trait Ranking<T>: Marking<T> {
    ghost cmp: { T → T → Ordering };

    fn compare(one: &T, other: &T) -> Ordering
        ensures { result ≡ cmp one.now other.now };

    ghost total: { IsTotalOrder cmp };

    ghost marks_rise: { (one other : T) → Self.mark one < Self.mark other → cmp one other ≡ Less };
}
