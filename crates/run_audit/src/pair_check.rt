//! What one pair of frames says at a version.
ghost use Rattle.std.specs.Prelude.{◌≡◌, ◌<◌, ◌≤◌, ◌^◌, ◌↔◌, ℕ, List, ◌+◌, length, Some, IsTrue, IfOk, IsSome, MatchOption};
ghost use Rattle.denial_records.specs.declared.batch.Batch.{Batch};
ghost use Rattle.dnswire.specs.Query.{IsReadAs};
ghost use Rattle.dnswire.specs.declared.query_read.QueryRead.{QueryRead};
ghost use Rattle.intake.specs.declared.intake_fault.IntakeFault.{IntakeFault};
ghost use Rattle.held_laws.specs.KeyOrder.{kept_of};
ghost use Rattle.zone_meaning.specs.Zone.{Zone};
ghost use Rattle.reply_core.specs.Error.{error_octets, plain_octets};
ghost use Rattle.reply_core.specs.Reply.{reply_octets};
ghost use Rattle.reply_core.specs.Shown.{shown_by};
ghost use Rattle.replay_meaning.specs.Outcome.{stored_octets, refusal_code};
ghost use Rattle.replay_meaning.specs.Fits.{query_output, insert_output, told_output};
ghost use Rattle.replay_meaning.specs.declared.frame.FrameKind.{FrameKind};
ghost use Rattle.replay_meaning.specs.declared.out_frame.OutKind.{OutKind};
ghost use Rattle.run_audit.specs.Answering.{IsChecked, IsReplyChecked, IsStoredChecked};
ghost use Rattle.run_audit.specs.Pairs.{IsMatched, input_in, output_in};

use crate::checked::{Checked, checked_by, told};
use crate::fault::fault_of;
use crate::pair::FramePair;
use denial_records::Verdict;
use dname::OutOfMemory;
use dnswire::{Head, QueryRead, Question, read_query};
use intake::{IntakeFault, Taken, batch_of};
use record_store::Store;
use replay_meaning::{FrameKind, OutKind};
use reply_core::rcode::{BAD_VERSION, FORMAT_ERROR, NOT_IMPLEMENTED};
use reply_core::{ReplyBuffer, write_error, write_plain, write_reply};
use resolver::answer;
use std::alloc::{AllocError, Global};
use zone_index::ZoneSearch;

/// What the pair says at the version of this number.
pub(crate) fn check_pair(
    alloc: Global,
    search: &mut ZoneSearch<'_>,
    store: &Store,
    number: u64,
    pair: &FramePair<'_>,
    reply: &mut ReplyBuffer,
) -> Result<Checked, OutOfMemory>
    requires matched { IsMatched pair.now }
    requires few { number < 2 ^ 63 }
    ensures checked { IfOk result (λ checked. (placed : List Batch) → store.now ≡ kept_of placed
        → number ≡ length placed
        → IsChecked search.old placed (input_in pair.now) (output_in pair.now) checked) }
    ensures same { search.new ≡ search.old }
{
    match pair.frame.kind {
        FrameKind::Query => check_query(search, store, number, pair, reply),
        FrameKind::Upstream => check_upstream(alloc, number, pair),
    }
}

// What the pair of a query says.
fn check_query(
    search: &mut ZoneSearch<'_>,
    store: &Store,
    number: u64,
    pair: &FramePair<'_>,
    reply: &mut ReplyBuffer,
) -> Result<Checked, OutOfMemory>
    requires kind { pair.now.frame.kind ≡ FrameKind.Query }
    requires matched { IsMatched pair.now }
    ensures checked { IfOk result (λ checked. (placed : List Batch) → store.now ≡ kept_of placed
        → number ≡ length placed
        → IsChecked search.old placed (input_in pair.now) (output_in pair.now) checked) }
    ensures same { search.new ≡ search.old }
{
    match read_query(pair.frame.message) {
        QueryRead::Dropped => Ok(told(says(pair, OutKind::Dropped, 0, &[]))),
        QueryRead::NotImp(head) => Ok(told(says_error(pair, &head, NOT_IMPLEMENTED, reply))),
        QueryRead::FormErr(head) => Ok(told(says_error(pair, &head, FORMAT_ERROR, reply))),
        QueryRead::BadVers(question) => Ok(told(says_bad_version(pair, &question, reply))),
        QueryRead::Query(question) => check_asked(search, store, number, pair, &question, reply),
    }
}

fn says_error(pair: &FramePair<'_>, head: &Head, rcode: u16, reply: &mut ReplyBuffer) -> bool
    requires opcode { head.now.opcode ≤ 15 }
    requires rcode { rcode ≤ 15 }
    requires matched { IsMatched pair.now }
    ensures { IsTrue result ↔ (output_in pair.now
        ≡ told_output pair.now.frame.worker OutKind.Error (error_octets head.now rcode)) }
{
    write_error(head, rcode, reply);
    says(pair, OutKind::Error, 0, reply.as_slice())
}

fn says_bad_version(pair: &FramePair<'_>, question: &Question, reply: &mut ReplyBuffer) -> bool
    requires edns { IsSome question.now.edns }
    requires matched { IsMatched pair.now }
    ensures { IsTrue result ↔ (output_in pair.now
        ≡ told_output pair.now.frame.worker OutKind.Error
        (plain_octets question.now BAD_VERSION)) }
{
    write_plain(question, BAD_VERSION, reply);
    says(pair, OutKind::Error, 0, reply.as_slice())
}

// What the pair of a question says.
fn check_asked(
    search: &mut ZoneSearch<'_>,
    store: &Store,
    number: u64,
    pair: &FramePair<'_>,
    question: &Question,
    reply: &mut ReplyBuffer,
) -> Result<Checked, OutOfMemory>
    requires kind { pair.now.frame.kind ≡ FrameKind.Query }
    requires read { IsReadAs pair.now.frame.message.now (QueryRead.Query question.now) }
    requires matched { IsMatched pair.now }
    ensures checked { IfOk result (λ checked. (placed : List Batch) → store.now ≡ kept_of placed
        → number ≡ length placed
        → IsChecked search.old placed (input_in pair.now) (output_in pair.now) checked) }
    ensures same { search.new ≡ search.old }
{
    let now = pair.frame.now;
    match answer(store, &question.name, question.qtype, question.qclass, now) {
        None => Ok(told(says(pair, OutKind::Forward, number, &[]))),
        Some(verdict) => check_reply(search, number, pair, question, &verdict, reply),
    }
}

// What the pair of a question says to which the verdict answers.
fn check_reply(
    search: &mut ZoneSearch<'_>,
    number: u64,
    pair: &FramePair<'_>,
    question: &Question,
    verdict: &Verdict<'_>,
    reply: &mut ReplyBuffer,
) -> Result<Checked, OutOfMemory>
    requires { IsMatched pair.now }
    ensures checked { IfOk result (IsReplyChecked search.old question.now.name
        (shown_by verdict.now) (output_in pair.now) (query_output pair.now.frame.worker number
        (Some (reply_octets question.now (shown_by verdict.now) verdict.now.ttl)))) }
    ensures same { search.new ≡ search.old }
{
    write_reply(question, verdict, reply);
    if !says(pair, OutKind::Reply, number, reply.as_slice()) {
        return Ok(Checked::Wrong);
    }
    let fault = fault_of(search, verdict, &question.name)?;
    Ok(checked_by(fault))
}

// What the pair of an upstream answer says.
fn check_upstream(alloc: Global, number: u64, pair: &FramePair<'_>) -> Result<Checked, OutOfMemory>
    requires kind { pair.now.frame.kind ≡ FrameKind.Upstream }
    requires matched { IsMatched pair.now }
    requires few { number < 2 ^ 63 }
    ensures { IfOk result (λ checked. (zone : Zone) (placed : List Batch)
        → number ≡ length placed
        → IsChecked zone placed (input_in pair.now) (output_in pair.now) checked) }
{
    match batch_of(alloc, pair.frame.message, pair.frame.now) {
        Ok(taken) => Ok(check_stored(number, pair, taken)),
        Err(fault) => {
            let Some(code) = code_of(fault) else {
                return Err(AllocError);
            };
            Ok(told(says(pair, OutKind::Refused, 0, &[code])))
        }
    }
}

// Whether the output frame says that this is stored.
fn check_stored(number: u64, pair: &FramePair<'_>, taken: Taken) -> Checked
    requires matched { IsMatched pair.now }
    requires few { number < 2 ^ 63 }
    ensures { IsStoredChecked taken.batch (output_in pair.now)
        (insert_output pair.now.frame.worker (number + 1) taken) result }
{
    let body = stored_body(&taken);
    if says(pair, OutKind::Stored, number + 1, &body) {
        Checked::Placed(taken.batch)
    } else {
        Checked::Wrong
    }
}

// Whether the pair's output frame is this one, of its input frame's worker.
fn says(pair: &FramePair<'_>, kind: OutKind, version: u64, body: &[u8]) -> bool
    requires { IsMatched pair.now }
    ensures { IsTrue result ↔ (output_in pair.now ≡ record {
      kind = kind;
      worker = pair.now.frame.worker;
      version = version;
      body = body.now;
    }) }
{
    pair.output.kind == kind
        && u64::from(pair.output.version) == version
        && pair.output.body == body
}

// The code of a refusal; none for want of memory.
fn code_of(fault: IntakeFault) -> Option<u8>
    ensures { MatchOption result (fault ≡ IntakeFault.OutOfMemory) (λ code.
        (code ≡ refusal_code fault) × (fault ≡ IntakeFault.OutOfMemory → ⊥)) }
{
    match fault {
        IntakeFault::Malformed(_) => Some(1),
        IntakeFault::NotResponse => Some(2),
        IntakeFault::Truncated => Some(3),
        IntakeFault::NotAuthentic => Some(4),
        IntakeFault::Nothing { .. } => Some(5),
        IntakeFault::Rcode(_) => Some(7),
        IntakeFault::OutOfMemory => None,
    }
}

fn stored_body(taken: &Taken) -> [u8; 4]
    ensures { result ≡ stored_octets taken.now }
{
    let stored = (taken.batch.records.len() % 0x1_0000) as u16;
    let skipped = (taken.skipped % 0x1_0000) as u16;
    let [a, b] = stored.to_be_bytes();
    let [c, d] = skipped.to_be_bytes();
    [a, b, c, d]
}
