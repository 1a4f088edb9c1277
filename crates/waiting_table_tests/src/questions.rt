//! Questions, and a client that asks them.
ghost use Rattle.std.specs.Prelude.{◌<◌};
ghost use Rattle.waiting_table.specs.Steps.{place_slot};
ghost use Rattle.waiting_table.specs.declared.waiting_table.TheConstants.{SLOTS};

use arrivals::Carrier;
use dnswire::{QueryRead, Question, read_query};
use std::test::Fail;
use waiting_table::{Place, WaitingTable};

/// `a.example` TXT IN, ID 0x1234, with RD.
pub(crate) const QUERY: &[u8] =
    b"\x12\x34\x01\x00\x00\x01\x00\x00\x00\x00\x00\x00\x01a\x07example\x00\x00\x10\x00\x01";

/// The same with another ID, in other letters.
pub(crate) const OTHER_LETTERS: &[u8] =
    b"\x56\x78\x00\x00\x00\x01\x00\x00\x00\x00\x00\x00\x01A\x07eXample\x00\x00\x10\x00\x01";

pub(crate) const OTHER_NAME: &[u8] =
    b"\x12\x34\x01\x00\x00\x01\x00\x00\x00\x00\x00\x00\x01b\x07example\x00\x00\x10\x00\x01";

pub(crate) const OTHER_TYPE: &[u8] =
    b"\x12\x34\x01\x00\x00\x01\x00\x00\x00\x00\x00\x00\x01a\x07example\x00\x00\x01\x00\x01";

pub(crate) const OTHER_CLASS: &[u8] =
    b"\x12\x34\x01\x00\x00\x01\x00\x00\x00\x00\x00\x00\x01a\x07example\x00\x00\x10\x00\x03";

/// With CD.
pub(crate) const OTHER_CHECKING: &[u8] =
    b"\x12\x34\x01\x10\x00\x01\x00\x00\x00\x00\x00\x00\x01a\x07example\x00\x00\x10\x00\x01";

pub(crate) fn question(query: &[u8]) -> Result<Question, Fail> {
    match read_query(query) {
        QueryRead::Query(question) => Ok(question),
        _ => Err("not a query")?,
    }
}

/// A question of the root's name and of the type 256 and this number.
pub(crate) fn numbered(number: u8) -> Result<Question, Fail> {
    question(&[0x12, 0x34, 1, 0, 0, 1, 0, 0, 0, 0, 0, 0, 0, 1, number, 0, 1])
}

/// The client asks by a datagram, and waits there.
pub(crate) fn ask(
    table: &mut WaitingTable,
    client: u64,
    question: &Question,
    id: u16,
    now: u64,
) -> Place
    ensures { place_slot result < SLOTS }
{
    ask_by(table, Carrier::Datagram, client, question, id, now)
}

/// The client asks by the carrier, and waits there.
pub(crate) fn ask_by(
    table: &mut WaitingTable,
    carrier: Carrier,
    client: u64,
    question: &Question,
    id: u16,
    now: u64,
) -> Place
    ensures { place_slot result < SLOTS }
{
    let place = table.place_for(question);
    table.enter(place, client, carrier, question, id, now);
    place
}
