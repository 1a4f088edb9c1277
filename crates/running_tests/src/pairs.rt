//! A hundred pairs of an answer and a query for each of four workers. What is printed of them is what one store has, to which
//! the answers come in the order of the versions that are printed.

use super::replays::{Ended, joined, run_words, source_of, words_of};
use denial_records::Batch;
use dname::{OutOfMemory, octets_from, u16_at, u32_at};
use dnswire::{QueryRead, read_query};
use intake::batch_of;
use outside_core::{MemorySink, OpenGate};
use record_store::Store;
use replay_meaning::{Frame, FrameKind, read_frame};
use reply_core::{ReplyBuffer, write_reply};
use resolver::answer;
use running::Status;
use std::alloc::Global;
use std::sync::Wait;
use std::test::Fail;
use std::thread::Threads;

const WORKERS: u8 = 4;

const PAIRS: u8 = 100;

// As many answers come, and as many queries.
const PLACED: usize = 400;

// The moment of the first pair's answers, in seconds. Each pair's come a second after those of the pair before it, and each
// query ten seconds after its answer.
const THEN: u32 = 1_000_000_000;

// The label of a pair. It has no letters that another pair has in capitals, and the next pair's comes right behind it.
fn label_of(worker: u8, pair: u8) -> [u8; 4] {
    [3, b'a', b'a'.wrapping_add(worker), pair.wrapping_add(128)]
}

// A response without errors and with AD, of one question and four records.
const ANSWER_HEADER: &[u8] = b"\x00\x01\x81\xa0\x00\x01\x00\x00\x00\x04\x00\x00";

const TXT: &[u8] = b"\x07example\x00\x00\x10\x00\x01";

// The zone's SOA up to its serial number, and from there on, with its signature. MINIMUM is an hour.
const SOA: &[u8] = b"\x07example\x00\x00\x06\x00\x01\x00\x00\x0e\x10\x00\x16\x00\x00";

const AFTER_SERIAL: &[u8] = b"\
    \x00\x00\x0e\x10\x00\x00\x02X\x00\x01Q\x80\x00\x00\x0e\x10\
    \x07example\x00\x00.\x00\x01\x00\x00\x0e\x10\x00\x1f\x00\x06\x0d\x01\x00\x00\x0e\x10w5\x94\x005\xa4\xe9\x00\x00\x01\x07example\x00ZZZZ";

// An NSEC record between its owner's label and its next name's.
const NSEC: &[u8] = b"\x07example\x00\x00/\x00\x01\x00\x00\x0e\x10\x00\x15";

// What follows there: A, RRSIG and NSEC.
const NSEC_TYPES: &[u8] = b"\x07example\x00\x00\x06@\x00\x00\x00\x00\x03";

// The signature after the owner's label.
const NSEC_SIGNATURE: &[u8] =
    b"\x07example\x00\x00.\x00\x01\x00\x00\x0e\x10\x00\x1f\x00/\x0d\x02\x00\x00\x0e\x10w5\x94\x005\xa4\xe9\x00\x00\x01\x07example\x00ZZZZ";

// An answer with the SOA and the NSEC of a name that has A alone. The SOA's serial number is the label, so a denial shows which
// answer came last.
fn answer_message(alloc: Global, label: &[u8], next: &[u8]) -> Result<Vec<u8>, OutOfMemory> {
    joined(
        alloc,
        &[
            ANSWER_HEADER,
            label,
            TXT,
            SOA,
            label,
            AFTER_SERIAL,
            label,
            NSEC,
            next,
            NSEC_TYPES,
            label,
            NSEC_SIGNATURE,
        ],
    )
}

// A query for the name's TXT, with an OPT record of size 1232 and DO.
fn query_message(alloc: Global, label: &[u8]) -> Result<Vec<u8>, OutOfMemory> {
    joined(
        alloc,
        &[
            b"\x124\x01\x00\x00\x01\x00\x00\x00\x00\x00\x01",
            label,
            TXT,
            b"\x00\x00)\x04\xd0\x00\x00\x80\x00\x00\x00",
        ],
    )
}

fn put_frame(
    input: &mut Vec<u8>,
    kind: u8,
    worker: u8,
    now: u32,
    message: &[u8],
) -> Result<(), OutOfMemory> {
    input.push(kind)?;
    input.push(worker)?;
    input.extend_from_slice(&now.to_be_bytes())?;
    input.extend_from_slice(&((message.len() % 0x1_0000) as u16).to_be_bytes())?;
    input.extend_from_slice(message)
}

// A worker's answer, and its query for the name of the pair with this number that the other worker has.
fn put_pair(
    alloc: Global,
    input: &mut Vec<u8>,
    worker: u8,
    other: u8,
    pair: u8,
) -> Result<(), OutOfMemory> {
    let now = THEN + u32::from(pair);
    let label = label_of(worker, pair);
    let next = label_of(worker, pair.wrapping_add(1));
    let answer = answer_message(alloc, &label, &next)?;
    put_frame(input, 2, worker, now, &answer)?;
    let asked = label_of(other, pair);
    let query = query_message(alloc, &asked)?;
    put_frame(input, 1, worker, now + 10, &query)
}

// All pairs, for the workers in turn. Each asks for the names of the worker that is so many further on.
fn input_of(alloc: Global, further: u8) -> Result<Vec<u8>, OutOfMemory> {
    let mut input = Vec::new(alloc);
    for pair in 0..PAIRS {
        for worker in 0..WORKERS {
            let other = worker.wrapping_add(further) % WORKERS;
            put_pair(alloc, &mut input, worker, other, pair)?;
        }
    }
    Ok(input)
}

// A frame of the output.
#[derive(Clone, Copy)]
struct Printed<'a> {
    kind: u8,
    worker: u8,
    version: u32,
    body: &'a [u8],
}

// The frame at the front, and the octets after it.
fn printed_at(octets: &[u8]) -> Option<(Printed<'_>, &[u8])> {
    if octets.len() < 8 {
        return None;
    }
    let size = usize::from(u16_at(octets, 6));
    let rest = octets_from(octets, 8);
    if rest.len() < size {
        return None;
    }
    let (body, rest) = rest.split_at(size);
    Some((
        Printed {
            kind: octets[0],
            worker: octets[1],
            version: u32_at(octets, 2),
            body,
        },
        rest,
    ))
}

// Puts a batch at its version's place, of which the first is that of version 1. Whether the place was free.
fn put_batch(batches: &mut [Option<Batch>], version: u32, batch: Batch) -> bool {
    let Some(place) = batches.get_mut(version.wrapping_sub(1) as usize) else {
        return false;
    };
    let is_free = place.is_none();
    *place = Some(batch);
    is_free
}

// Whether an answer is stored with both its records, at a version that no other has. Its batch is put there.
fn is_placed(
    alloc: Global,
    frame: &Frame<'_>,
    printed: &Printed<'_>,
    batches: &mut [Option<Batch>],
) -> bool {
    if printed.kind != 3 || printed.body != b"\x00\x02\x00\x00".as_slice() {
        return false;
    }
    match batch_of(alloc, frame.message, frame.now) {
        Ok(taken) => put_batch(batches, printed.version, taken.batch),
        Err(_) => false,
    }
}

// The batches in the order of the versions that are printed of them.
fn batches_of(alloc: Global, input: &[u8], output: &[u8]) -> Result<Vec<Option<Batch>>, Fail> {
    let mut batches = Vec::new(alloc);
    for _ in 0..PLACED {
        batches.push(None)?;
    }
    let mut input = input;
    let mut output = output;
    for _ in 0..PLACED * 2 {
        let (Some((frame, more)), Some((printed, rest))) = (read_frame(input), printed_at(output))
        else {
            return Err("a frame is missing")?;
        };
        if frame.kind == FrameKind::Upstream && !is_placed(alloc, &frame, &printed, &mut batches) {
            return Err("an answer has no version of its own")?;
        }
        input = more;
        output = rest;
    }
    if !input.is_empty() || !output.is_empty() {
        return Err("a frame too many")?;
    }
    Ok(batches)
}

// What one store holds at each version, the first of which holds nothing.
fn stores_of(alloc: Global, batches: &[Option<Batch>]) -> Result<Vec<Store>, Fail> {
    let mut stores = Vec::new(alloc);
    let mut newest = Store::empty(alloc)?;
    for batch in batches {
        let Some(batch) = batch else {
            return Err("a version without an answer")?;
        };
        let next = newest.with_batch(alloc, batch)?;
        stores.push(newest)?;
        newest = next;
    }
    stores.push(newest)?;
    Ok(stores)
}

// Whether a query's frame has what the store has at the version that is printed: the reply, or a forward where it has none.
fn is_answered(stores: &[Store], frame: &Frame<'_>, printed: &Printed<'_>) -> bool {
    let Some(store) = stores.get(printed.version as usize) else {
        return false;
    };
    let QueryRead::Query(question) = read_query(frame.message) else {
        return false;
    };
    let verdict = answer(
        store,
        &question.name,
        question.qtype,
        question.qclass,
        frame.now,
    );
    let Some(verdict) = verdict else {
        return printed.kind == 2 && printed.body.is_empty();
    };
    let mut reply = ReplyBuffer::new();
    write_reply(&question, &verdict, &mut reply);
    printed.kind == 1 && printed.body == reply.as_slice()
}

// Whether a worker's version isn't older than its last, of which a list by workers is kept.
fn has_seen(seen: &mut [u32], printed: &Printed<'_>) -> bool {
    let Some(newest) = seen.get_mut(usize::from(printed.worker)) else {
        return false;
    };
    let is_newer = *newest <= printed.version;
    *newest = printed.version;
    is_newer
}

// How many queries have a reply, where each has what the stores have, at a version that isn't older than its worker's last.
fn replies_among(stores: &[Store], input: &[u8], output: &[u8]) -> Result<usize, Fail> {
    let mut seen = [0; WORKERS as usize];
    let mut replies: usize = 0;
    let mut input = input;
    let mut output = output;
    for _ in 0..PLACED * 2 {
        let (Some((frame, more)), Some((printed, rest))) = (read_frame(input), printed_at(output))
        else {
            return Err("a frame is missing")?;
        };
        if frame.worker != printed.worker || !has_seen(&mut seen, &printed) {
            return Err("a frame of another worker, or of an older version")?;
        }
        if frame.kind == FrameKind::Query && !is_answered(stores, &frame, &printed) {
            return Err("a query has something else than its version gives")?;
        }
        if printed.kind == 1 {
            replies = replies.wrapping_add(1);
        }
        input = more;
        output = rest;
    }
    Ok(replies)
}

// How a replay of the input by four workers ends, and what it writes.
fn replayed_by_four<R: Threads + Wait + Sync>(
    rt: &R,
    alloc: Global,
    input: &[u8],
) -> Result<Ended, OutOfMemory> {
    let words = words_of(alloc, "replay --workers 4")?;
    let mut source = source_of(alloc, input)?;
    let mut sink = MemorySink::with_room(alloc, 1 << 20, Vec::new(alloc))?;
    let status = run_words(rt, alloc, &words, &mut source, &mut sink, &OpenGate)?;
    Ok((status, Vec::from_slice(alloc, sink.written())?))
}

// How many queries have a reply, where the workers ask for the names of the worker that is so many further on.
fn replies_of_four<R: Threads + Wait + Sync>(
    rt: &R,
    alloc: Global,
    further: u8,
) -> Result<(Status, usize), Fail> {
    let input = input_of(alloc, further)?;
    let (status, output) = replayed_by_four(rt, alloc, &input)?;
    let batches = batches_of(alloc, &input, &output)?;
    let stores = stores_of(alloc, &batches)?;
    Ok((status, replies_among(&stores, &input, &output)?))
}

#[test]
fn each_worker_is_answered_by_its_own_answers(rt: HostRuntime) -> Result<(), Fail> {
    let found = replies_of_four(&rt, rt.alloc(), 0)?;
    assert!(rt; found == (Status::Good, PLACED), "{found:?}");
    Ok(())
}

// Whether the other worker's answer has come by then differs from run to run: so some queries have a reply, and some a forward.
#[test]
fn each_worker_is_answered_by_what_its_version_holds(rt: HostRuntime) -> Result<(), Fail> {
    let (status, _) = replies_of_four(&rt, rt.alloc(), 1)?;
    assert!(rt; status == Status::Good, "{status:?}");
    Ok(())
}
