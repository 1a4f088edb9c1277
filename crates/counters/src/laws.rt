//! What the counts say.
ghost use Rattle.counters.specs.Counts.{EachCountIsASum, EachHasItsPlace};

/// A count is how often its counter was counted.
pub fn each_count_is_a_sum()
    ensures { EachCountIsASum }
{}

/// No two counters have one place.
pub fn each_has_its_place()
    ensures { EachHasItsPlace }
{}
