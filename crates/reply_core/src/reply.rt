ghost use Rattle.std.specs.Prelude.{◌≡◌, ◌≤◌, length, true, Some};
ghost use Rattle.reply_core.specs.Count.{HasPut};
ghost use Rattle.reply_core.specs.Draft.{put, blank};
ghost use Rattle.reply_core.specs.Reply.{reply_flags, answer_records, authority_records, whole_octets, truncated_octets, limited_octets, reply_octets, limit_of};
ghost use Rattle.reply_core.specs.Shown.{shown_by};
ghost use Rattle.dnswire.specs.declared.edns.TheConstants.{LEAST_PAYLOAD};
ghost use Rattle.reply_core.specs.declared.draft.TheConstants.{MAX_REPLY};

use crate::draft::{Draft, MAX_REPLY};
use crate::header::{
    opt_count, put_bare, put_header, put_opt, put_question, reply_flags, set_counts, wants_dnssec,
};
use crate::records::{put_answer, put_denial, put_soa};
use crate::{Reply, ReplyBuffer};
use denial_records::{Kind, Verdict};
use dnswire::{Edns, LEAST_PAYLOAD, Question};

/// Writes the reply that the verdict's proof gives to the question, with the verdict's TTL, in place of what the buffer
/// held. The question's octets come back as they were asked.
pub fn write_reply(question: &Question, verdict: &Verdict<'_>, out: &mut ReplyBuffer)
    ensures value { out.new ≡ reply_octets question.now (shown_by verdict.now) verdict.now.ttl }
    ensures within_limit { length out.new ≤ limit_of question.now.edns }
{
    write_reply_within(limit_of(question.edns), question, verdict, out);
}

/// The same within this limit: with all records where that is within it, else truncated.
pub fn write_reply_within<const N: usize>(
    limit: usize,
    question: &Question,
    verdict: &Verdict<'_>,
    out: &mut Reply<N>,
)
    requires room { limit ≤ N }
    requires least { LEAST_PAYLOAD ≤ limit }
    ensures value { out.new
        ≡ limited_octets limit question.now (shown_by verdict.now) verdict.now.ttl }
    ensures within_limit { length out.new ≤ limit }
{
    put_whole(&mut out.draft, limit, question, verdict);
    if out.draft.is_over() {
        out.draft.restart(limit);
        put_truncated(&mut out.draft, question, verdict.kind);
    }
}

// The reply with all its records, in place of what the draft held. They are counted as they are put, though their
// numbers stand in front of them: to count them first would be to go over each list of signatures twice.
fn put_whole<const N: usize>(
    draft: &mut Draft<N>,
    limit: usize,
    question: &Question,
    verdict: &Verdict<'_>,
)
    requires { limit ≤ N }
    ensures { draft.new
        ≡ put (blank limit) (whole_octets question.now (shown_by verdict.now) verdict.now.ttl) }
{
    let flags = reply_flags(question, verdict.kind, false);
    let opts = opt_count(question.edns);
    draft.restart(limit);
    put_header(draft, question.id, flags, 1, 0, 0, opts);
    put_question(draft, question);
    let answers = put_answers(draft, question, verdict);
    let authorities = put_authorities(draft, question, verdict, verdict.ttl);
    put_opt(draft, 0, question.edns);
    set_counts(draft, answers, authorities);
}

pub(crate) fn put_truncated<const N: usize>(draft: &mut Draft<N>, question: &Question, kind: Kind)
    ensures value { draft.new ≡ put draft.old (truncated_octets question.now kind) }
    ensures small { length (truncated_octets question.now kind) ≤ LEAST_PAYLOAD }
{
    let flags = reply_flags(question, kind, true);
    put_bare(draft, question, flags, 0);
}

// The records of the answer section, and their number modulo 2^16.
fn put_answers<const N: usize>(
    draft: &mut Draft<N>,
    question: &Question,
    verdict: &Verdict<'_>,
) -> u16
    ensures { HasPut verdict.now.ttl draft.old draft.new result
        (answer_records question.now (shown_by verdict.now)) }
{
    let dnssec = wants_dnssec(question);
    put_answer(
        draft,
        verdict.ttl,
        dnssec,
        &question.name,
        verdict.answer_set,
    )
}

/// The records of the authority section, with this TTL, and their number modulo 2^16.
pub(crate) fn put_authorities<const N: usize>(
    draft: &mut Draft<N>,
    question: &Question,
    verdict: &Verdict<'_>,
    ttl: u32,
) -> u16
    ensures { HasPut ttl draft.old draft.new result
        (authority_records question.now (shown_by verdict.now)) }
{
    let dnssec = wants_dnssec(question);
    put_soa(draft, ttl, dnssec, verdict.soa)
        .wrapping_add(put_denial(draft, ttl, dnssec, &verdict.first))
        .wrapping_add(put_denial(draft, ttl, dnssec, &verdict.second))
        .wrapping_add(put_denial(draft, ttl, dnssec, &verdict.third))
}

const LEAST: usize = LEAST_PAYLOAD as usize;

/// The octets that a reply in a datagram has at most.
pub fn limit_of(edns: Option<Edns>) -> usize
    ensures value { result ≡ limit_of edns }
    ensures low { LEAST_PAYLOAD ≤ result }
    ensures high { result ≤ MAX_REPLY }
{
    match edns {
        Some(edns) => usize::from(edns.size).clamp(LEAST, MAX_REPLY),
        None => LEAST,
    }
}
