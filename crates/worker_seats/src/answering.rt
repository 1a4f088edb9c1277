ghost use Rattle.std.specs.Prelude.{◌≡◌, ◌<◌, ◌^◌, [], ◌∷◌, length, OnOk, OnErr};
ghost use Rattle.dnswire.specs.Query.{IsReadAs};
ghost use Rattle.intake.specs.Batch.{IsTaken};
ghost use Rattle.cache_meaning.specs.Held.{nothing_held};
ghost use Rattle.cache_versions.specs.Lends.{seat_in};
ghost use Rattle.cache_versions.specs.Seats.{opening_by, seen_by};
ghost use Rattle.resolver.specs.Caches.{HasGoneOn, HasOnlyRead, IsSeatOf};
ghost use Rattle.replay_meaning.specs.Frame.{input_of};
ghost use Rattle.replay_meaning.specs.Outcome.{stored_octets, refusal_code};
ghost use Rattle.replay_meaning.specs.declared.frame.FrameKind.{FrameKind};
ghost use Rattle.replay_meaning.specs.declared.out_frame.OutKind.{OutKind};
ghost use Rattle.dnswire.specs.declared.query_read.QueryRead.{QueryRead};
ghost use Rattle.replay_meaning.specs.Fits.{Rule as AnyRule};
ghost use Rattle.worker_seats.specs.Answering.{IsOutcomeBy, rule_of};
ghost use Rattle.worker_seats.specs.OneFrame.{DoesOneFrame, HasPlacedAtMost, Writes, WritesCall, output_for};

use cache_versions::VersionRef;
use dname::OutOfMemory;
use dnswire::{Question, read_query};
use intake::{IntakeFault, Taken, batch_of};
use record_store::Store;
use replay_meaning::{Frame, FrameKind, OutFrame, OutKind};
use reply_core::ReplyBuffer;
use resolver::{
    Answering, CacheFault, CacheSeat, Counts, Outcome, QueryStep, SharedCache, query_step_of,
    reply_by,
};
use std::alloc::{AllocError, Global};
use std::sync::Wait;

/// The code of a call whose version has no number that an output frame can tell.
const NUMBERS_SPENT: u8 = 8;

/// Does what the frame asks of the cache, and writes the frame of the output at the end of `out`. The buffer serves replies.
/// After want of memory the call of the cache may have been made, and `out` is as it was.
pub fn one_frame<R: Wait>(
    rt: &R,
    alloc: Global,
    cache: &SharedCache,
    seat: &mut CacheSeat,
    answering: Answering,
    frame: &Frame<'_>,
    reply: &mut ReplyBuffer,
    out: &mut Vec<u8>,
) -> Result<(), OutOfMemory>
    requires { IsSeatOf cache.now seat.old }
    ensures on { HasGoneOn cache.now seat.old seat.new }
    ensures done { OnOk result (DoesOneFrame (rule_of answering)
        seat.old seat.new (input_of frame.entry.now) out.old.items out.new.items) }
    ensures kept { OnErr result (out.new.items ≡ out.old.items) }
    ensures placed { HasPlacedAtMost seat.old seat.new (input_of frame.entry.now) }
{
    match frame.kind {
        FrameKind::Query => query_frame(cache, seat, answering, frame, reply, out),
        FrameKind::Upstream => upstream_frame(rt, alloc, cache, seat, frame, out),
    }
}

fn query_frame(
    cache: &SharedCache,
    seat: &mut CacheSeat,
    answering: Answering,
    frame: &Frame<'_>,
    reply: &mut ReplyBuffer,
    out: &mut Vec<u8>,
) -> Result<(), OutOfMemory>
    requires kind { frame.now.kind ≡ FrameKind.Query }
    requires object { IsSeatOf cache.now seat.old }
    ensures read { HasOnlyRead cache.now seat.old seat.new }
    ensures done { OnOk result (DoesOneFrame (rule_of answering)
        seat.old seat.new (input_of frame.entry.now) out.old.items out.new.items) }
    ensures kept { OnErr result (out.new.items ≡ out.old.items) }
{
    match query_step_of(&read_query(frame.message), reply) {
        QueryStep::Dropped => write_output(frame, OutKind::Dropped, 0, &[], out),
        QueryStep::Error => write_output(frame, OutKind::Error, 0, reply.as_slice(), out),
        QueryStep::Query(question) => ask(cache, seat, answering, frame, question, reply, out),
    }
}

// Asks the question of the version that the seat reads, and writes what becomes of it.
fn ask(
    cache: &SharedCache,
    seat: &mut CacheSeat,
    answering: Answering,
    frame: &Frame<'_>,
    question: &Question,
    reply: &mut ReplyBuffer,
    out: &mut Vec<u8>,
) -> Result<(), OutOfMemory>
    requires kind { frame.now.kind ≡ FrameKind.Query }
    requires read { IsReadAs frame.now.message.now (QueryRead.Query question.now) }
    requires object { IsSeatOf cache.now seat.old }
    ensures read { HasOnlyRead cache.now seat.old seat.new }
    ensures done { OnOk result (DoesOneFrame (rule_of answering)
        seat.old seat.new (input_of frame.entry.now) out.old.items out.new.items) }
    ensures kept { OnErr result (out.new.items ≡ out.old.items) }
{
    match answer(cache, seat, answering, question, frame.now, reply) {
        Outcome::Answered { version } => {
            write_call(frame, OutKind::Reply, version, reply.as_slice(), out)
        }
        Outcome::Forward { version } => write_call(frame, OutKind::Forward, version, &[], out),
    }
}

fn answer(
    cache: &SharedCache,
    seat: &mut CacheSeat,
    answering: Answering,
    question: &Question,
    now: u32,
    reply: &mut ReplyBuffer,
) -> Outcome
    requires { IsSeatOf cache.now seat.old }
    ensures read { HasOnlyRead cache.now seat.old seat.new }
    ensures outcome { IsOutcomeBy
        (rule_of answering) (seen_by seat.new) question.now now result reply.new }
{
    let version = cache.read(seat);
    outcome_at(&version, answering, question, now, reply)
}

// What becomes of a query at a moment, in seconds, at a version.
fn outcome_at(
    version: &VersionRef<'_, Store>,
    answering: Answering,
    question: &Question,
    now: u32,
    out: &mut ReplyBuffer,
) -> Outcome
    requires { opening_by (seat_in version.now) ≡ nothing_held }
    ensures { IsOutcomeBy
        (rule_of answering) (seen_by (seat_in version.now)) question.now now result out.new }
{
    let number = version.number();
    if reply_by(version.state(), answering, question, now, out) {
        Outcome::Answered { version: number }
    } else {
        Outcome::Forward { version: number }
    }
}

fn upstream_frame<R: Wait>(
    rt: &R,
    alloc: Global,
    cache: &SharedCache,
    seat: &mut CacheSeat,
    frame: &Frame<'_>,
    out: &mut Vec<u8>,
) -> Result<(), OutOfMemory>
    requires kind { frame.now.kind ≡ FrameKind.Upstream }
    requires object { IsSeatOf cache.now seat.old }
    ensures on { HasGoneOn cache.now seat.old seat.new }
    ensures done { OnOk result ((rule : AnyRule) → DoesOneFrame rule
        seat.old seat.new (input_of frame.entry.now) out.old.items out.new.items) }
    ensures kept { OnErr result (out.new.items ≡ out.old.items) }
    ensures placed { HasPlacedAtMost seat.old seat.new (input_of frame.entry.now) }
{
    match batch_of(alloc, frame.message, frame.now) {
        Ok(taken) => insert(rt, alloc, cache, seat, frame, taken, out),
        Err(fault) => write_refused_output(frame, fault, out),
    }
}

// Inserts what intake has taken.
fn insert<R: Wait>(
    rt: &R,
    alloc: Global,
    cache: &SharedCache,
    seat: &mut CacheSeat,
    frame: &Frame<'_>,
    taken: Taken,
    out: &mut Vec<u8>,
) -> Result<(), OutOfMemory>
    requires kind { frame.now.kind ≡ FrameKind.Upstream }
    requires taken { IsTaken frame.now.message.now frame.now.now taken }
    requires object { IsSeatOf cache.now seat.old }
    ensures on { HasGoneOn cache.now seat.old seat.new }
    ensures done { OnOk result ((rule : AnyRule) → DoesOneFrame rule
        seat.old seat.new (input_of frame.entry.now) out.old.items out.new.items) }
    ensures kept { OnErr result (out.new.items ≡ out.old.items) }
    ensures placed { HasPlacedAtMost seat.old seat.new (input_of frame.entry.now) }
{
    let body = stored_body(&taken);
    match cache.insert(rt, alloc, seat, &taken.batch) {
        Ok(placed) => write_call(frame, OutKind::Stored, placed.version, &body, out),
        Err(CacheFault::NumbersSpent { .. }) => write_spent_output(frame, out),
        Err(CacheFault::OutOfMemory) => Err(AllocError),
    }
}

// Writes the output frame of a call at the end of `out`. Where it has no room for the version, it says so: that takes more
// batches than a run has frames.
fn write_call(
    frame: &Frame<'_>,
    kind: OutKind,
    version: u64,
    body: &[u8],
    out: &mut Vec<u8>,
) -> Result<(), OutOfMemory>
    requires { length body.now < 2 ^ 16 }
    ensures written { OnOk result
        (WritesCall (output_for frame.entry.now kind version body.now)
        out.old.items out.new.items) }
    ensures kept { OnErr result (out.new.items ≡ out.old.items) }
{
    match u32::try_from(version) {
        Ok(version) => write_output(frame, kind, version, body, out),
        Err(_) => write_spent_output(frame, out),
    }
}

// Writes the frame of a call whose version has no number that a frame can tell.
fn write_spent_output(frame: &Frame<'_>, out: &mut Vec<u8>) -> Result<(), OutOfMemory>
    ensures written { OnOk result
        (Writes (output_for frame.entry.now OutKind.Refused 4_294_967_295 (8 ∷ []))
        out.old.items out.new.items) }
    ensures kept { OnErr result (out.new.items ≡ out.old.items) }
{
    write_output(frame, OutKind::Refused, u32::MAX, &[NUMBERS_SPENT], out)
}

// Writes the output frame for this one at the end of `out`.
fn write_output(
    frame: &Frame<'_>,
    kind: OutKind,
    version: u32,
    body: &[u8],
    out: &mut Vec<u8>,
) -> Result<(), OutOfMemory>
    requires { length body.now < 2 ^ 16 }
    ensures written { OnOk result
        (Writes (output_for frame.entry.now kind version body.now) out.old.items out.new.items) }
    ensures kept { OnErr result (out.new.items ≡ out.old.items) }
{
    let output = OutFrame {
        kind,
        worker: frame.worker,
        version,
        body,
    };
    output.write(out)
}

// Writes the frame of an upstream answer that intake refuses.
fn write_refused_output(
    frame: &Frame<'_>,
    fault: IntakeFault,
    out: &mut Vec<u8>,
) -> Result<(), OutOfMemory>
    ensures written { OnOk result
        (Writes (output_for frame.entry.now OutKind.Refused 0 (refusal_code fault ∷ []))
        out.old.items out.new.items) }
    ensures kept { OnErr result (out.new.items ≡ out.old.items) }
    ensures fault { OnOk result (fault ≡ IntakeFault.OutOfMemory → ⊥) }
{
    let code = match fault {
        IntakeFault::Malformed(_) => 1,
        IntakeFault::NotResponse => 2,
        IntakeFault::Truncated => 3,
        IntakeFault::NotAuthentic => 4,
        IntakeFault::Nothing { .. } => 5,
        IntakeFault::Rcode(_) => 7,
        IntakeFault::OutOfMemory => return Err(AllocError),
    };
    write_output(frame, OutKind::Refused, 0, &[code], out)
}

fn stored_body(taken: &Taken) -> [u8; 4]
    ensures { result ≡ stored_octets taken.now }
{
    let counts = Counts::of(taken);
    let stored = (counts.stored % 0x1_0000) as u16;
    let skipped = (counts.skipped % 0x1_0000) as u16;
    let [a, b] = stored.to_be_bytes();
    let [c, d] = skipped.to_be_bytes();
    [a, b, c, d]
}
