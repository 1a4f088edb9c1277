//! The reply by way of the question's own alias.
ghost use Rattle.std.specs.Prelude.{◌≡◌, ◌≤◌, length};
ghost use Rattle.dnswire.specs.declared.edns.TheConstants.{LEAST_PAYLOAD};
ghost use Rattle.reply_core.specs.Count.{HasPut};
ghost use Rattle.reply_core.specs.Draft.{put, blank};
ghost use Rattle.reply_core.specs.Reply.{rcode_of, authority_records};
ghost use Rattle.reply_core.specs.Sections.{alias_answers, whole_with, sent_within, sent_octets};
ghost use Rattle.reply_core.specs.Shown.{shown_by};

use crate::draft::Draft;
use crate::header::{
    opt_count, put_header, put_opt, put_question, reply_flags, set_counts, wants_dnssec,
};
use crate::records::put_answer;
use crate::reply::{limit_of, put_authorities, put_truncated};
use crate::{Reply, ReplyBuffer};
use denial_records::{KeptSet, Verdict};
use dname::Name;
use dnswire::Question;

/// Writes the reply that the question's CNAME set and the verdict on its target give, with this TTL, in place of what the buffer
/// held. It is what `Sections` writes of them, put where it stays.
pub fn write_alias_reply(
    question: &Question,
    alias: &KeptSet,
    target: &Name,
    verdict: &Verdict<'_>,
    ttl: u32,
    out: &mut ReplyBuffer,
)
    ensures { out.new ≡ sent_octets question.now (rcode_of verdict.now.kind) ttl
        (alias_answers question.now alias.now target.now (shown_by verdict.now))
        (authority_records question.now (shown_by verdict.now)) }
{
    let limit = limit_of(question.edns);
    write_alias_reply_within(limit, question, alias, target, verdict, ttl, out);
}

/// The same within this limit.
pub fn write_alias_reply_within<const N: usize>(
    limit: usize,
    question: &Question,
    alias: &KeptSet,
    target: &Name,
    verdict: &Verdict<'_>,
    ttl: u32,
    out: &mut Reply<N>,
)
    requires room { limit ≤ N }
    requires least { LEAST_PAYLOAD ≤ limit }
    ensures value { out.new ≡ sent_within limit question.now (rcode_of verdict.now.kind) ttl
        (alias_answers question.now alias.now target.now (shown_by verdict.now))
        (authority_records question.now (shown_by verdict.now)) }
    ensures within_limit { length out.new ≤ limit }
{
    put_whole(&mut out.draft, limit, question, alias, target, verdict, ttl);
    if out.draft.is_over() {
        out.draft.restart(limit);
        put_truncated(&mut out.draft, question, verdict.kind);
    }
}

// The reply with all its records, in place of what the draft held.
fn put_whole<const N: usize>(
    draft: &mut Draft<N>,
    limit: usize,
    question: &Question,
    alias: &KeptSet,
    target: &Name,
    verdict: &Verdict<'_>,
    ttl: u32,
)
    requires { limit ≤ N }
    ensures { draft.new
        ≡ put (blank limit) (whole_with question.now (rcode_of verdict.now.kind) ttl
        (alias_answers question.now alias.now target.now (shown_by verdict.now))
        (authority_records question.now (shown_by verdict.now))) }
{
    let flags = reply_flags(question, verdict.kind, false);
    let opts = opt_count(question.edns);
    draft.restart(limit);
    put_header(draft, question.id, flags, 1, 0, 0, opts);
    put_question(draft, question);
    let answers = put_answers(draft, question, alias, target, verdict, ttl);
    let authorities = put_authorities(draft, question, verdict, ttl);
    put_opt(draft, 0, question.edns);
    set_counts(draft, answers, authorities);
}

// The alias and the set that answers for its target, and the number of their records modulo 2^16.
fn put_answers<const N: usize>(
    draft: &mut Draft<N>,
    question: &Question,
    alias: &KeptSet,
    target: &Name,
    verdict: &Verdict<'_>,
    ttl: u32,
) -> u16
    ensures { HasPut ttl draft.old draft.new result
        (alias_answers question.now alias.now target.now (shown_by verdict.now)) }
{
    let dnssec = wants_dnssec(question);
    put_answer(draft, ttl, dnssec, &question.name, Some(alias)).wrapping_add(put_answer(
        draft,
        ttl,
        dnssec,
        target,
        verdict.answer_set,
    ))
}
