//! What holds of every run of calls.
ghost use Rattle.std.specs.Prelude.{◌≡◌, ◌+◌, ◌≤◌};
ghost use Rattle.stream_clients.specs.Laws.{AWholeMessageIsNext, EachGetsItsReplies, EachHasItsNumber, EachStreamIsSplit, FewAreUnanswered, OthersAreLeftAlone, TheGoneGetNothing, TheGoneStayGone};

use crate::{MOST_LEFT, MOST_OUTPUT, PATIENCE, PLACES, UNANSWERED};

/// No two connections have one number.
pub fn each_has_its_number()
    ensures { EachHasItsNumber }
{}

/// A client whose connection has gone has none again.
pub fn the_gone_stay_gone()
    ensures { TheGoneStayGone }
{}

/// What is for a client whose connection has gone is for nobody.
pub fn the_gone_get_nothing()
    ensures { TheGoneGetNothing }
{}

/// What is for one client is for no other.
pub fn others_are_left_alone()
    ensures { OthersAreLeftAlone }
{}

/// A client is written its replies, each behind its length, in order.
pub fn each_gets_its_replies()
    ensures { EachGetsItsReplies }
{}

/// The messages that are taken of a connection are those of its stream, whatever pieces it comes in.
pub fn each_stream_is_split()
    ensures { EachStreamIsSplit }
{}

/// A worker has 32 connections, each with 32 messages that have no reply yet, and is patient for ten seconds. What a connection keeps is
/// one message with its length. Where nothing waits to be written the longest reply may, with its length (RFC 1035, section 4.2.2).
pub fn a_stream_has_these_bounds()
    ensures connections { PLACES ≡ 32 }
    ensures unanswered { UNANSWERED ≡ 32 }
    ensures idle { PATIENCE ≡ 10000 }
    ensures kept { MOST_LEFT ≡ 2 + 65535 }
    ensures longest { 2 + 65535 ≤ MOST_OUTPUT }
    ensures written { MOST_OUTPUT ≡ 73729 }
{}

/// A whole message that stands first is taken as it is, without its length (RFC 1035, section 4.2.2), unless 32 have no reply.
pub fn a_whole_message_is_next()
    ensures { AWholeMessageIsNext }
{}

/// No connection has more than 32 messages without a reply: of those that were taken all but these have one, or get none.
pub fn few_are_unanswered()
    ensures { FewAreUnanswered }
{}
