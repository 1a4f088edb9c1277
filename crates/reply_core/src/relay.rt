ghost use Rattle.std.specs.Prelude.{◌≡◌, ◌<◌, ◌≤◌, ◌++◌, length, true, Some};
ghost use Rattle.std.specs.List.{flat_map};
ghost use Rattle.dnswire.specs.declared.edns.TheConstants.{LEAST_PAYLOAD};
ghost use Rattle.reply_core.specs.Count.{count16};
ghost use Rattle.reply_core.specs.Draft.{put};
ghost use Rattle.reply_core.specs.Reply.{limit_of};
ghost use Rattle.reply_core.specs.Relay.{relay_octets, relay_within, is_whole_within, whole_relay, truncated_relay, relay_rcode, relay_upper, relay_ad, relay_flags, relayed, rr_octets, is_relayed, is_proof_type, asks_for};
ghost use Rattle.reply_core.specs.declared.rcode.TheConstants.{MAX_RCODE};

use crate::draft::Draft;
use crate::header::{
    flag, flags_of, head_of, opt_count, put_bare, put_header, put_opt, put_question, wants_dnssec,
};
use crate::rcode::SERVER_FAILURE;
use crate::records::put_rest;
use crate::reply::limit_of;
use crate::{Reply, ReplyBuffer};
use dname::types::{ANY_TYPE, NSEC_TYPE, NSEC3_TYPE, OPT_TYPE, RRSIG_TYPE};
use dnswire::flags::{AD, TC};
use dnswire::{Message, Question, Rr, RrList};

/// Writes the reply by which an upstream server's message is relayed to the client that asked the question, in place of
/// what the buffer held. The question's octets come back as they were asked. Each message that is read has such an RCODE.
pub fn write_relay(question: &Question, message: &Message, out: &mut ReplyBuffer)
    requires { message.now.rcode ≤ MAX_RCODE }
    ensures value { out.new ≡ relay_octets question.now message.now }
    ensures within_limit { length out.new ≤ limit_of question.now.edns }
{
    write_relay_within(limit_of(question.edns), question, message, out);
}

/// The same within this limit.
pub fn write_relay_within<const N: usize>(
    limit: usize,
    question: &Question,
    message: &Message,
    out: &mut Reply<N>,
)
    requires room { limit ≤ N }
    requires least { LEAST_PAYLOAD ≤ limit }
    requires rcode { message.now.rcode ≤ MAX_RCODE }
    ensures value { out.new ≡ relay_within limit question.now message.now }
    ensures within_limit { length out.new ≤ limit }
{
    if put_within(&mut out.draft, limit, question, message) {
        return;
    }
    out.draft.restart(limit);
    put_truncated(&mut out.draft, question, message);
}

// Whether the whole reply can be sent; then it is put in place of what the draft held.
fn put_within<const N: usize>(
    draft: &mut Draft<N>,
    limit: usize,
    question: &Question,
    message: &Message,
) -> bool
    requires room { limit ≤ N }
    requires rcode { message.now.rcode ≤ MAX_RCODE }
    ensures exact { result ≡ is_whole_within limit question.now message.now }
    ensures value { result ≡ true
        → draft.new.written ≡ Some (whole_relay question.now message.now) }
{
    if message.flags.has_tc() {
        return false;
    }
    draft.restart(limit);
    put_whole(draft, question, message);
    !draft.is_over()
}

// The reply with all records that the client gets. They are counted before they are put: their types alone tell which
// they are, and no octet of them is looked at for that.
fn put_whole<const N: usize>(draft: &mut Draft<N>, question: &Question, message: &Message)
    requires { message.now.rcode ≤ MAX_RCODE }
    ensures { draft.new ≡ put draft.old (whole_relay question.now message.now) }
{
    let flags = relay_flags(question, message, false);
    let answers = count_section(question, &message.answer);
    let authorities = count_section(question, &message.authority);
    let additionals = count_section(question, &message.additional);
    let additionals = additionals.wrapping_add(opt_count(question.edns));
    put_header(
        draft,
        question.id,
        flags,
        1,
        answers,
        authorities,
        additionals,
    );
    put_question(draft, question);
    put_section(draft, question, &message.answer);
    put_section(draft, question, &message.authority);
    put_section(draft, question, &message.additional);
    put_opt(draft, relay_upper(question, message), question.edns);
}

fn put_truncated<const N: usize>(draft: &mut Draft<N>, question: &Question, message: &Message)
    requires { message.now.rcode ≤ MAX_RCODE }
    ensures value { draft.new ≡ put draft.old (truncated_relay question.now message.now) }
    ensures small { length (truncated_relay question.now message.now) ≤ LEAST_PAYLOAD }
{
    let flags = relay_flags(question, message, true);
    put_bare(draft, question, flags, relay_upper(question, message));
}

// The number of the section's records that the client gets, modulo 2^16.
fn count_section(question: &Question, section: &RrList) -> u16
    ensures { result ≡ count16 (relayed question.now section.now) }
{
    let mut count: u16 = 0;
    for rr in section.as_slice() {
        if is_relayed(question, rr) {
            count = count.wrapping_add(1);
        }
    }
    count
}

fn put_section<const N: usize>(draft: &mut Draft<N>, question: &Question, section: &RrList)
    ensures { draft.new
        ≡ put draft.old (flat_map rr_octets (relayed question.now section.now)) }
{
    for rr in section.as_slice() {
        if draft.is_over() {
            return;
        }
        if is_relayed(question, rr) {
            put_rr(draft, rr);
        }
    }
}

fn put_rr<const N: usize>(draft: &mut Draft<N>, rr: &Rr)
    ensures { draft.new ≡ put draft.old (rr_octets rr.now) }
{
    draft.put(rr.owner.name().wire());
    put_rest(draft, rr.rtype, rr.class, rr.ttl, rr.octets.as_slice());
}

fn is_relayed(question: &Question, rr: &Rr) -> bool
    ensures { result ≡ is_relayed question.now rr.now }
{
    rr.rtype != OPT_TYPE
        && (wants_dnssec(question) || !is_proof_type(rr.rtype) || asks_for(question, rr.rtype))
}

fn is_proof_type(rtype: u16) -> bool
    ensures { result ≡ is_proof_type rtype }
{
    rtype == RRSIG_TYPE || rtype == NSEC_TYPE || rtype == NSEC3_TYPE
}

fn asks_for(question: &Question, rtype: u16) -> bool
    ensures { result ≡ asks_for question.now rtype }
{
    question.qtype == rtype || question.qtype == ANY_TYPE
}

fn relay_flags(question: &Question, message: &Message, truncated: bool) -> u16
    ensures { result ≡ relay_flags question.now message.now truncated }
{
    let flags = flags_of(&head_of(question), relay_rcode(question, message) % 16);
    flags + flag(truncated, TC) + flag(relay_ad(question, message), AD)
}

fn relay_ad(question: &Question, message: &Message) -> bool
    ensures { result ≡ relay_ad question.now message.now }
{
    message.flags.has_ad() && (question.ad || wants_dnssec(question))
}

fn relay_upper(question: &Question, message: &Message) -> u8
    requires { message.now.rcode ≤ MAX_RCODE }
    ensures { result ≡ relay_upper question.now message.now }
{
    (relay_rcode(question, message) / 16) as u8
}

fn relay_rcode(question: &Question, message: &Message) -> u16
    ensures { result ≡ relay_rcode question.now message.now }
{
    if question.edns.is_none() && message.rcode > 15 {
        SERVER_FAILURE
    } else {
        message.rcode
    }
}
