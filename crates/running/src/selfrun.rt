ghost use Rattle.std.specs.Prelude.{◌≡◌, ℕ, ◌<◌, ◌≤◌, ◌^◌, List, ◌++◌, All, length, map, slice_index_or, IfOk, OnOk};
ghost use Rattle.std.specs.String.{string_bytes};
ghost use Rattle.replay_meaning.specs.Frame.{input_spelling, inputs_spelling, kind_number};
ghost use Rattle.replay_meaning.specs.Replay.{IsReplay};
ghost use Rattle.worker_seats.specs.Cuts.{Part};
ghost use Rattle.running.specs.Made.{made_input, made_inputs, queries_of};
ghost use Rattle.running.specs.Summary.{IsMadeSummary};

use crate::replay::replay;
use crate::summary::summary;
use dname::{Octets, OctetsList, OutOfMemory};
use outside_core::Gate;
use replay_meaning::FrameKind;
use reply_core::ReplyBuffer;
use std::alloc::Global;
use std::sync::Wait;
use std::thread::Threads;
use worker_seats::{Answering, Frames, Outputs};
use zone_maker::{make, question};

/// When the messages come, in seconds.
const MESSAGES_AT: u32 = 1_000_000_000;

/// When the queries come, in seconds.
const QUERIES_AT: u32 = 1_000_000_100;

/// The summary of what becomes of a made zone's messages and of so many queries, for one worker.
pub fn selfrun<R: Threads + Wait + Sync, G: Gate>(
    rt: &R,
    alloc: Global,
    seed: u32,
    names: u32,
    queries: u32,
    gate: &G,
) -> Result<String, OutOfMemory>
    requires names { (1 ≤ names) × (names ≤ 10000) }
    requires queries { queries ≤ 100000 }
    ensures { IfOk result (λ text. IsMadeSummary seed names queries (string_bytes text)) }
{
    let outputs = made_outputs(rt, alloc, seed, names, queries, gate)?;
    summary(alloc, names, queries, outputs.of_worker(0))
}

// What the one worker writes of the made frames.
fn made_outputs<R: Threads + Wait + Sync, G: Gate>(
    rt: &R,
    alloc: Global,
    seed: u32,
    names: u32,
    queries: u32,
    gate: &G,
) -> Result<Outputs, OutOfMemory>
    requires names { (1 ≤ names) × (names ≤ 10000) }
    requires queries { queries ≤ 100000 }
    ensures one { IfOk result (λ outputs. length outputs ≡ 1) }
    ensures replay { IfOk result (λ outputs. (d : Part) → IsReplay 1
        (inputs_spelling (made_inputs seed names queries)) (slice_index_or outputs 0 d).octets) }
{
    let made = make(alloc, seed, names)?;
    let asked = questions(alloc, seed, names, queries)?;
    let mut octets = Vec::new(alloc);
    put_frames(
        &mut octets,
        FrameKind::Upstream,
        MESSAGES_AT,
        &made.messages,
    )?;
    put_frames(&mut octets, FrameKind::Query, QUERIES_AT, &asked)?;
    let Some(frames) = Frames::of(&octets, 1) else {
        unreachable!()
    };
    let outputs = replay(rt, alloc, Answering::ByProof, 1, &frames, gate)?;
    Ok(outputs)
}

fn questions(alloc: Global, seed: u32, names: u32, queries: u32) -> Result<OctetsList, OutOfMemory>
    requires { 1 ≤ names }
    ensures { IfOk result (λ questions. questions ≡ queries_of seed names queries) }
{
    let mut questions = OctetsList::empty(alloc);
    let mut buffer = ReplyBuffer::new();
    for j in 0..queries {
        question(seed, names, j, &mut buffer);
        questions.push(Octets::of(alloc, buffer.as_slice())?)?;
    }
    Ok(questions)
}

// Puts the octets of a frame for each message last.
fn put_frames(
    octets: &mut Vec<u8>,
    kind: FrameKind,
    now: u32,
    messages: &OctetsList,
) -> Result<(), OutOfMemory>
    requires { All (λ message. length message < 2 ^ 16) messages.now }
    ensures { OnOk result (octets.new.items
        ≡ octets.old.items ++ inputs_spelling (map (made_input kind now) messages.now)) }
{
    for message in messages.as_slice() {
        put_frame(octets, kind, now, message.as_slice())?;
    }
    Ok(())
}

// For the one worker.
fn put_frame(
    octets: &mut Vec<u8>,
    kind: FrameKind,
    now: u32,
    message: &[u8],
) -> Result<(), OutOfMemory>
    requires { length message.now < 2 ^ 16 }
    ensures { OnOk result (octets.new.items
        ≡ octets.old.items ++ input_spelling (made_input kind now message.now)) }
{
    let size = message.len() as u16;
    octets.push(number_of(kind))?;
    octets.push(0)?;
    octets.extend_from_slice(&now.to_be_bytes())?;
    octets.extend_from_slice(&size.to_be_bytes())?;
    octets.extend_from_slice(message)
}

fn number_of(kind: FrameKind) -> u8
    ensures { result ≡ kind_number kind }
{
    match kind {
        FrameKind::Query => 1,
        FrameKind::Upstream => 2,
    }
}
