//! What holds of every run of events.
ghost use Rattle.std.specs.Prelude.{◌≡◌};
ghost use Rattle.waiting_table.specs.Laws.{EachCountsFromItsComing, EachIsAskedByStreamOnce, EachIsAskedOnce, EachIsRepliedToOnce, IsDueAfter, NoneWaitsForLong, NoneWaitsForLongSinceItsComing};

use crate::waiting_table::{ASKINGS, CLIENTS, PATIENCE, SLOTS};

/// Each client is replied to once for each of its queries that the cache doesn't answer, or waits for it.
pub fn once()
    ensures { EachIsRepliedToOnce }
{}

/// No two questions wait that are one, unless one of them has 16 clients.
pub fn asked_once()
    ensures { EachIsAskedOnce }
{}

/// A question that waits is asked by a stream once at most, between its coming and its going.
pub fn asked_by_stream_once()
    ensures { EachIsAskedByStreamOnce }
{}

/// After a tick no question has waited for 4.5 seconds or longer.
pub fn never_for_long()
    ensures { NoneWaitsForLong }
{}

/// A question waits from the moment at which its first client came, also when it has been asked again. After a tick 4.5 seconds haven't
/// passed since.
pub fn waits_from_its_coming()
    ensures since { EachCountsFromItsComing }
    ensures never_for_long { NoneWaitsForLongSinceItsComing }
{}

/// There are 256 slots, each for a question of up to 16 clients. It is asked by a datagram up to three times: again one second after the
/// first, and two seconds after the second. It is late after 4.5 seconds.
pub fn a_question_waits_by_these_times()
    ensures slots { SLOTS ≡ 256 }
    ensures clients { CLIENTS ≡ 16 }
    ensures askings { ASKINGS ≡ 3 }
    ensures second { IsDueAfter 1 1000 }
    ensures third { IsDueAfter 2 2000 }
    ensures late { PATIENCE ≡ 4500 }
{}
