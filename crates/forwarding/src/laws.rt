//! What holds of every turn, and of every run of turns.
ghost use Rattle.forwarding.specs.Lawful.{EachTurnIsLawful};
ghost use Rattle.forwarding.specs.Laws.{EachIsAskedByStreamOnce, EachQueryIsRepliedToOnce, EachTurnIsAStep, NoneIsAskedTwice, NoneWaitsForLong, WhatIsDropped};

use resolver::each_query_is_answered_soundly;

/// Whatever an event does may be sent, and its replies from the cache are sound.
pub fn each_turn_is_lawful()
    ensures { EachTurnIsLawful }
{
    each_query_is_answered_soundly();
}

/// What an event does is a step of the table, or leaves it.
pub fn each_turn_is_a_step()
    ensures { EachTurnIsAStep }
{}

/// A client's octets are dropped just where they have no header, or are a response (RFC 1035, section 4.1.1).
pub fn what_is_dropped()
    ensures { WhatIsDropped }
{}

/// Each client is replied to once for each of its queries that isn't dropped, or waits for it.
pub fn each_query_is_replied_to_once()
    ensures { EachQueryIsRepliedToOnce }
{}

/// No two questions wait that are one, unless one of them has 16 clients.
pub fn none_is_asked_twice()
    ensures { NoneIsAskedTwice }
{}

/// A question that waits is asked by a stream once at most.
pub fn each_is_asked_by_stream_once()
    ensures { EachIsAskedByStreamOnce }
{}

/// After a tick no question has waited for 4.5 seconds or longer.
pub fn none_waits_for_long()
    ensures { NoneWaitsForLong }
{}
