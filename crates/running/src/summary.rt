ghost use Rattle.std.specs.Prelude.{◌≡◌, ◌<◌, ℕ, List, ◌++◌, All, length, get_or, IfOk, OnOk, IfSome, IsSomeAnd};
ghost use Rattle.std.specs.String.{string_bytes};
ghost use Rattle.replay_meaning.specs.OutFrame.{Output, IsOutput, out_number, output_spelling, outputs_spelling};
ghost use Rattle.running.specs.Summary.{counts_as, count_of, line, summary, rcode_of, answers_in};

use dname::{OutOfMemory, octets_from, u16_at};
use replay_meaning::{FRAME_HEAD, OutKind};
use std::alloc::Global;

/// What a line of the summary counts.
#[derive(Clone, Copy, Debug, PartialEq, Eq)]
pub enum Counted {
    /// Upstream answers whose records were stored.
    Batches,
    /// Replies with RCODE 0 and an answer record.
    Answers,
    /// Replies with RCODE 0 and none.
    NoData,
    /// Replies with RCODE 3.
    NameErrors,
    Forwards,
}

/// The seven lines for so many names and queries, of the output's frames.
pub fn summary(
    alloc: Global,
    names: u32,
    queries: u32,
    output: &[u8],
) -> Result<String, OutOfMemory>
    ensures { IfOk result (λ text. (outputs : List Output)
        → All IsOutput outputs → output.now ≡ outputs_spelling outputs
        → string_bytes text ≡ summary names queries outputs) }
{
    let mut text = String::new(alloc);
    put_line(&mut text, "names", names as usize)?;
    put_line(&mut text, "batches", count(Counted::Batches, output))?;
    put_line(&mut text, "queries", queries as usize)?;
    put_line(&mut text, "answers", count(Counted::Answers, output))?;
    put_line(&mut text, "no-data", count(Counted::NoData, output))?;
    put_line(&mut text, "name-errors", count(Counted::NameErrors, output))?;
    put_line(&mut text, "forwards", count(Counted::Forwards, output))?;
    Ok(text)
}

fn put_line(text: &mut String, word: &str, number: usize) -> Result<(), OutOfMemory>
    ensures { OnOk result
        (string_bytes text.new ≡ string_bytes text.old ++ line word.now number) }
{
    writeln!(text, "{word} {number}")
}

// How many of the frames count.
fn count(counted: Counted, output: &[u8]) -> usize
    ensures { (outputs : List Output)
        → All IsOutput outputs → output.now ≡ outputs_spelling outputs
        → result ≡ count_of counted outputs }
{
    let mut number = 0;
    let mut rest = output;
    while let Some((kind, body, after)) = first_frame(rest) {
        if counts_as(counted, kind, body) {
            number += 1;
        }
        rest = after;
    }
    number
}

// The kind and the body of the frame at the front, and the octets after it.
fn first_frame(octets: &[u8]) -> Option<(u8, &[u8], &[u8])>
    ensures every { (output : Output) (rest : List ℕ) → IsOutput output
        → octets.now ≡ output_spelling output ++ rest → IsSomeAnd result
        (λ frame. (frame.0 ≡ out_number output.kind) × (frame.1.now ≡ output.body)
        × (frame.2.now ≡ rest)) }
    ensures shorter { IfSome result (λ frame. length frame.2.now < length octets.now) }
{
    if octets.len() < FRAME_HEAD {
        return None;
    }
    let size = usize::from(u16_at(octets, 6));
    let rest = octets_from(octets, FRAME_HEAD);
    if rest.len() < size {
        return None;
    }
    let (body, rest) = rest.split_at(size);
    Some((octets[0], body, rest))
}

fn counts_as(counted: Counted, kind: u8, body: &[u8]) -> bool
    ensures { result ≡ counts_as counted kind body.now }
{
    let is_reply = kind == OutKind::Reply.number();
    match counted {
        Counted::Batches => kind == OutKind::Stored.number(),
        Counted::Answers => is_reply && rcode_of(body) == 0 && answers_in(body) != 0,
        Counted::NoData => is_reply && rcode_of(body) == 0 && answers_in(body) == 0,
        Counted::NameErrors => is_reply && rcode_of(body) == 3,
        Counted::Forwards => kind == OutKind::Forward.number(),
    }
}

fn rcode_of(reply: &[u8]) -> u8
    ensures { result ≡ rcode_of reply.now }
{
    octet_at(reply, 3) % 16
}

fn answers_in(reply: &[u8]) -> u16
    ensures { result ≡ answers_in reply.now }
{
    u16::from(octet_at(reply, 6)) * 256 + u16::from(octet_at(reply, 7))
}

// The octet at the place; 0 behind the end.
fn octet_at(octets: &[u8], place: usize) -> u8
    ensures { result ≡ get_or octets.now place 0 }
{
    if place < octets.len() {
        octets[place]
    } else {
        0
    }
}
