//! More frames than two ranges have, each with an output of its own, for three workers.
use super::messages::THEN;
use super::running::{Written, written};
use dname::OutOfMemory;
use outside_core::OpenGate;
use replay_meaning::{Frame, FrameKind};
use std::alloc::Global;
use std::sync::Wait;
use std::test::Fail;
use std::thread::Threads;

/// Two ranges of 8,192 frames, and a part of a third.
const FRAMES: u16 = 20_000;

// The shares of the workers are unequal.
fn worker_of(number: u16) -> u8 {
    (number % 7 % 3) as u8
}

// Messages of another opcode, each with an identifier of its own.
fn messages(alloc: Global) -> Result<Vec<Vec<u8>>, OutOfMemory> {
    let mut messages = Vec::new(alloc);
    for number in 0..FRAMES {
        let mut message = Vec::from_slice(alloc, &number.to_be_bytes())?;
        message.extend_from_slice(b"\x08\x00\x00\x00\x00\x00\x00\x00\x00\x00")?;
        messages.push(message)?;
    }
    Ok(messages)
}

fn frames(alloc: Global, messages: &[Vec<u8>]) -> Result<Vec<Frame<'_>>, OutOfMemory> {
    let mut frames = Vec::new(alloc);
    let mut number: u16 = 0;
    for message in messages {
        frames.push(Frame {
            kind: FrameKind::Query,
            worker: worker_of(number),
            now: THEN,
            message: message.as_slice(),
        })?;
        number = number.wrapping_add(1);
    }
    Ok(frames)
}

// For each frame in order its worker's output: that the opcode is not implemented (RFC 1035).
fn expected(alloc: Global) -> Result<Vec<u8>, OutOfMemory> {
    let mut octets = Vec::new(alloc);
    for number in 0..FRAMES {
        octets.extend_from_slice(&[6, worker_of(number), 0, 0, 0, 0, 0, 12])?;
        octets.extend_from_slice(&number.to_be_bytes())?;
        octets.extend_from_slice(b"\x88\x84\x00\x00\x00\x00\x00\x00\x00\x00")?;
    }
    Ok(octets)
}

// What three workers write of all frames.
fn ranges_written<R: Threads + Wait + Sync>(rt: &R, alloc: Global) -> Result<Written, Fail> {
    let messages = messages(alloc)?;
    let frames = frames(alloc, messages.as_slice())?;
    written(rt, alloc, 3, frames.as_slice(), &OpenGate)
}

#[test]
fn ranges_are_written_in_the_order_of_the_frames(rt: HostRuntime) -> Result<(), Fail> {
    let (octets, placed) = ranges_written(&rt, rt.alloc())?;
    assert!(rt; placed == 0, "{placed}");
    let expected = expected(rt.alloc())?;
    assert!(rt; octets.as_slice() == expected.as_slice());
    Ok(())
}
