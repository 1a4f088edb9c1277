ghost use Rattle.std.specs.Prelude.{◌≡◌, ◌≤◌, ◌+◌, ◌++◌, length};
ghost use Rattle.arrayvec.specs.ArrayVec.{array_vec_len};
ghost use Rattle.zone_maker.specs.Made.{kind_at, name_at};
ghost use Rattle.zone_maker.specs.Questions.{asked_first, asked_second, asked_number, asked_at, query_at};
ghost use Rattle.zone_maker.specs.NameKinds.{kind_of};
ghost use Rattle.zone_maker.specs.declared.query.TheConstants.{MAX_QUERY};

use crate::name_kind::{NameKind, kind_at};
use crate::names::{below, name_at};
use crate::pieces::{header, opt, question_tail};
use arrayvec::ArrayVec;
use dname::types::{A_TYPE, DS_TYPE, TXT_TYPE};
use dname::{MAX_WIRE, Name};
use reply_core::ReplyBuffer;

// A header, a question and an OPT record.
const MAX_QUERY: usize = 12 + MAX_WIRE + 4 + 11;

// RD.
const QUERY_FLAGS: u16 = 0x0100;

#[derive(Drop)]
struct Asked {
    name: Name,
    qtype: u16,
}

/// Fills the buffer with query number j to the made zone of the seed and so many names. It takes no memory.
pub fn question(seed: u32, names: u32, j: u32, out: &mut ReplyBuffer)
    requires { 1 ≤ names }
    ensures { out.new ≡ query_at seed names j }
{
    let asked = asked_at(seed, names, j);
    let mut octets = ArrayVec::new();
    put(&mut octets, &header(j, QUERY_FLAGS, 0, 0, 1));
    put(&mut octets, asked.name.wire());
    put(&mut octets, &question_tail(asked.qtype));
    put(&mut octets, &opt());
    out.fill(octets.as_slice());
}

fn put(octets: &mut ArrayVec<u8, MAX_QUERY>, piece: &[u8])
    requires { array_vec_len octets.old + length piece.now ≤ MAX_QUERY }
    ensures { octets.new.items ≡ octets.old.items ++ piece.now }
{
    let fitted = octets.try_extend_from_slice(piece).is_ok();
    prove!(fitted);
}

fn asked_at(seed: u32, names: u32, j: u32) -> Asked
    requires { 1 ≤ names }
    ensures name { result.name ≡ (asked_at seed names j).name }
    ensures qtype { result.qtype ≡ (asked_at seed names j).qtype }
{
    let i = asked_number(seed, names, j);
    if (j / 4) % 2 == 0 {
        asked_first(kind_at(i), i)
    } else {
        asked_second(kind_at(i), i)
    }
}

// The number of the name that query j asks of.
fn asked_number(seed: u32, names: u32, j: u32) -> u32
    requires { 1 ≤ names }
    ensures { result ≡ asked_number seed names j }
{
    ((u64::from(seed) + 7921 * u64::from(j)) % u64::from(names)) as u32
}

// What is asked of a name the first time.
fn asked_first(kind: NameKind, i: u32) -> Asked
    ensures name { result.name ≡ (asked_first (kind_of kind) (name_at i)).name }
    ensures qtype { result.qtype ≡ (asked_first (kind_of kind) (name_at i)).qtype }
{
    let name = name_at(i);
    let (name, qtype) = match kind {
        NameKind::Host => (name, TXT_TYPE),
        NameKind::Above => (name, A_TYPE),
        NameKind::Cut => (name, DS_TYPE),
        NameKind::Wild => (below(b"w", &name), A_TYPE),
    };
    Asked { name, qtype }
}

// What is asked of a name the second time.
fn asked_second(kind: NameKind, i: u32) -> Asked
    ensures name { result.name ≡ (asked_second (kind_of kind) (name_at i)).name }
    ensures qtype { result.qtype ≡ (asked_second (kind_of kind) (name_at i)).qtype }
{
    let name = name_at(i);
    let (name, qtype) = match kind {
        NameKind::Host => (below(b"z", &name), A_TYPE),
        NameKind::Above => (below(b"y", &name), A_TYPE),
        NameKind::Cut => (name, A_TYPE),
        NameKind::Wild => (below(b"w", &name), TXT_TYPE),
    };
    Asked { name, qtype }
}
