//! What an operator can rely on.
ghost use Rattle.std.specs.Prelude.{◌≡◌};
ghost use Rattle.forward_report.specs.Laws.{EachCounterIsShownOnce, LinesAreMinutesApart, LinesCountWhatIsNew, NoTwoCountersAreAlike, SilenceAndReturnTakeTurns};

use crate::heard::SILENCE;
use crate::told::MINUTE;

/// Each counter of a worker stands in the status once.
pub fn each_counter_is_shown_once()
    ensures { EachCounterIsShownOnce }
{}

/// No two counters of a worker have one name and one label.
pub fn no_two_counters_are_alike()
    ensures { NoTwoCountersAreAlike }
{}

/// Between two lines on one call lies a minute, however often one looks.
pub fn lines_are_minutes_apart()
    ensures { LinesAreMinutesApart }
{}

/// A line on a call counts what has failed since the line before.
pub fn lines_count_what_is_new()
    ensures { LinesCountWhatIsNew }
{}

/// The upstream is said to be silent, then to be back, and so on.
pub fn silence_and_return_take_turns()
    ensures { SilenceAndReturnTakeTurns }
{}

/// There are 60 seconds between two lines on one call at least, and the upstream is silent once 5 seconds have passed.
pub fn lines_come_by_these_times()
    ensures minute { MINUTE ≡ 60000 }
    ensures silence { SILENCE ≡ 5000 }
{}
