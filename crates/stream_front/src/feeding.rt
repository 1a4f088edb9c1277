//! A stream in pieces.
ghost use Rattle.std.specs.Prelude.{◌≡◌, List, ℕ, IfOk, ◌++◌};
ghost use Rattle.stream_front.specs.Split.{Splits};
ghost use Rattle.stream_front.specs.Feed.{Feeds, GoesOn, IsWhole};

use crate::ahead::{Ahead, first};
use crate::{FeedFault, Front};
use dname::{Octets, OctetsList, OutOfMemory};
use std::alloc::Global;

/// Takes the next piece of the stream, and gives the messages that are whole now, in order. It answers `TooSmall` once a length has
/// come that no message has, with the messages before it; so does each later call, without messages. After want of memory the front
/// is as before.
pub fn feed(alloc: Global, front: &mut Front, piece: &[u8]) -> Result<OctetsList, FeedFault>
    ensures feeds { Feeds front.old piece.now front.new result }

    // Whatever came before in whatever pieces: the messages given are those of the whole stream.
    ensures stream { (fed : List ℕ) (given : List (List ℕ)) → Splits fed given front.old
        → GoesOn fed given piece.now front.new result }
{
    feed_piece(alloc, front, piece)
}

fn feed_piece(alloc: Global, front: &mut Front, piece: &[u8]) -> Result<OctetsList, FeedFault>
    ensures { Feeds front.old piece.now front.new result }
{
    if let Some(length) = front.too_small() {
        let before = OctetsList::empty(alloc);
        return Err(FeedFault::TooSmall { length, before });
    }
    front.add(piece)?;
    let Ok(whole) = whole_messages(alloc, front.rest()) else {
        front.take_back(piece.len());
        return Err(FeedFault::OutOfMemory);
    };
    let Whole {
        messages,
        rest,
        too_small,
    } = whole;
    match too_small {
        None => {
            front.keep(rest);
            Ok(messages)
        }
        Some(length) => {
            front.fail(length);
            Err(FeedFault::TooSmall {
                length,
                before: messages,
            })
        }
    }
}

// The whole messages, how many octets follow them, and the length that stands there where it is one that no message has.
#[derive(Drop)]
struct Whole {
    messages: OctetsList,
    rest: usize,
    too_small: Option<u16>,
}

fn whole_messages(alloc: Global, octets: &[u8]) -> Result<Whole, OutOfMemory>
    ensures { IfOk result (IsWhole octets.now) }
{
    let mut messages = OctetsList::empty(alloc);
    let mut rest = octets;
    loop {
        let too_small = match first(rest) {
            Ahead::Message { message, after } => {
                messages.push(Octets::of(alloc, message)?)?;
                rest = after;
                continue;
            }
            Ahead::Part => None,
            Ahead::TooSmall { length } => Some(length),
        };
        let rest = rest.len();
        return Ok(Whole {
            messages,
            rest,
            too_small,
        });
    }
}
