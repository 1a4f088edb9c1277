//! A hundred pairs of an answer and a query for each of four workers, each pair about a name of its own.
ghost use Rattle.std.specs.Prelude.{◌≡◌, ◌<◌, length};

use super::messages::THEN;
use super::running::{Written, written};
use dname::{OutOfMemory, octets_from, u16_at, u32_at};
use outside_core::OpenGate;
use replay_meaning::{Frame, FrameKind};
use std::alloc::Global;
use std::sync::Wait;
use std::test::Fail;
use std::thread::Threads;

const WORKERS: u8 = 4;

const PAIRS: u8 = 100;

/// As many batches are placed.
const PLACED: usize = 400;

const A: &[u8] = b"\x07example\x00\x00\x01\x00\x01";

// The signature of an A set of a name of two labels in the zone example, after the owner.
const SIGNATURE: &[u8] =
    b"\x07example\x00\x00.\x00\x01\x00\x00\x0e\x10\x00\x1f\x00\x01\x0d\x02\x00\x00\x0e\x10w5\x94\x005\xa4\xe9\x00\x00\x01\x07example\x00ZZZZ";

fn joined(alloc: Global, parts: &[&[u8]]) -> Result<Vec<u8>, OutOfMemory> {
    let mut octets = Vec::new(alloc);
    for part in parts {
        octets.extend_from_slice(part)?;
    }
    Ok(octets)
}

// The label of a pair, which is its address too. It has no letters that another pair has in capitals.
fn label_of(worker: u8, pair: u8) -> [u8; 4] {
    [3, b'a', b'a'.wrapping_add(worker), pair.wrapping_add(128)]
}

// An A set with its signature, which lives for an hour.
fn answer(alloc: Global, label: &[u8]) -> Result<Vec<u8>, OutOfMemory> {
    joined(
        alloc,
        &[
            b"\x00\x01\x81\xa0\x00\x01\x00\x02\x00\x00\x00\x00",
            label,
            A,
            label,
            A,
            b"\x00\x00\x0e\x10\x00\x04",
            label,
            label,
            SIGNATURE,
        ],
    )
}

fn query(alloc: Global, label: &[u8]) -> Result<Vec<u8>, OutOfMemory> {
    joined(
        alloc,
        &[b"\x124\x01\x00\x00\x01\x00\x00\x00\x00\x00\x00", label, A],
    )
}

// The set, with the 3,590 seconds that it has left.
fn reply(alloc: Global, label: &[u8]) -> Result<Vec<u8>, OutOfMemory> {
    joined(
        alloc,
        &[
            b"\x124\x81\x80\x00\x01\x00\x01\x00\x00\x00\x00",
            label,
            A,
            label,
            A,
            b"\x00\x00\x0e\x06\x00\x04",
            label,
        ],
    )
}

fn messages(alloc: Global) -> Result<Vec<Vec<u8>>, OutOfMemory> {
    let mut messages = Vec::new(alloc);
    for pair in 0..PAIRS {
        for worker in 0..WORKERS {
            let label = label_of(worker, pair);
            messages.push(answer(alloc, &label)?)?;
            messages.push(query(alloc, &label)?)?;
        }
    }
    Ok(messages)
}

// Answer and query in turn, for the workers in turn.
fn frames(alloc: Global, messages: &[Vec<u8>]) -> Result<Vec<Frame<'_>>, OutOfMemory> {
    let mut frames = Vec::new(alloc);
    let mut upstream = true;
    let mut worker = 0;
    for message in messages {
        frames.push(Frame {
            kind: if upstream {
                FrameKind::Upstream
            } else {
                FrameKind::Query
            },
            worker,
            now: if upstream { THEN } else { THEN + 10 },
            message: message.as_slice(),
        })?;
        if !upstream {
            worker = if worker == 3 {
                0
            } else {
                worker.wrapping_add(1)
            };
        }
        upstream = !upstream;
    }
    Ok(frames)
}

// The version and the octets after it, where an output frame of this kind, worker and body is at the front.
fn after_frame<'a>(octets: &'a [u8], kind: u8, worker: u8, body: &[u8]) -> Option<(u32, &'a [u8])> {
    if octets.len() < 8 || octets[0] != kind || octets[1] != worker {
        return None;
    }
    let version = u32_at(octets, 2);
    let size = usize::from(u16_at(octets, 6));
    let rest = octets_from(octets, 8);
    if size != body.len() || rest.len() < size {
        return None;
    }
    let (told, rest) = rest.split_at(size);
    if told == body {
        Some((version, rest))
    } else {
        None
    }
}

// Marks the version's place, and says whether it was free.
fn take(places: &mut [bool], version: u32) -> bool {
    let version = version as usize;
    if version >= places.len() || places[version] {
        return false;
    }
    places[version] = true;
    true
}

// Whether each pair is stored and answered, in the order of the frames, and each of its versions is placed once.
fn all_answered(alloc: Global, octets: &[u8]) -> Result<bool, OutOfMemory> {
    let mut places = [false; PLACED + 1];
    let mut rest = octets;
    for pair in 0..PAIRS {
        for worker in 0..WORKERS {
            let reply = reply(alloc, &label_of(worker, pair))?;
            let Some((placed, after)) = after_frame(rest, 3, worker, b"\x00\x01\x00\x00") else {
                return Ok(false);
            };
            let Some((read, after)) = after_frame(after, 1, worker, &reply) else {
                return Ok(false);
            };
            if placed == 0 || read < placed || read > 400 || !take(&mut places, placed) {
                return Ok(false);
            }
            rest = after;
        }
    }
    Ok(rest.is_empty())
}

// What the workers write of all pairs.
fn pairs_written<R: Threads + Wait + Sync>(rt: &R, alloc: Global) -> Result<Written, Fail> {
    let messages = messages(alloc)?;
    let frames = frames(alloc, &messages)?;
    written(rt, alloc, WORKERS, &frames, &OpenGate)
}

#[test]
fn each_pair_is_stored_and_answered(rt: HostRuntime) -> Result<(), Fail> {
    let (octets, placed) = pairs_written(&rt, rt.alloc())?;
    assert!(rt; placed == PLACED as u64, "{placed}");
    assert!(rt; all_answered(rt.alloc(), &octets)?);
    Ok(())
}
