ghost use Rattle.std.specs.Prelude.{◌≡◌, ◌≤◌, ◌++◌, ℕ, List, length, Some};
ghost use Rattle.reply_core.specs.Reply.{wants_dnssec, flag, rcode_of, head_of, flags_of, reply_flags, header_octets, opt_octets, opt_count, bare_octets};
ghost use Rattle.reply_core.specs.Draft.{put, blank};
ghost use Rattle.dnswire.specs.declared.edns.TheConstants.{LEAST_PAYLOAD};
ghost use Rattle.dnswire.specs.declared.question.TheConstants.{MAX_ASKED};

use crate::draft::{Draft, MAX_REPLY};
use crate::rcode::{NAME_ERROR, NO_ERROR};
use denial_records::Kind;
use dname::types::OPT_TYPE;
use dnswire::flags::{AD, CD, QR, RA, RD, TC};
use dnswire::{DO, Edns, Head, Question};

// The lowest bit of the opcode.
const OPCODE: u16 = 0x800;

// The version of an OPT record (RFC 6891, section 6.1.3).
const VERSION: u8 = 0;

/// Whether the query has the DO bit.
pub(crate) fn wants_dnssec(question: &Question) -> bool
    ensures { result ≡ wants_dnssec question.now }
{
    match question.edns {
        Some(edns) => edns.dnssec,
        None => false,
    }
}

/// What a reply takes over from the header of the question's query.
pub(crate) fn head_of(question: &Question) -> Head
    ensures { result ≡ head_of question.now }
{
    Head {
        id: question.id,
        opcode: 0,
        rd: question.rd,
        cd: question.cd,
    }
}

/// The flags of a reply to a query with this head.
pub(crate) fn flags_of(head: &Head, rcode: u16) -> u16
    requires opcode { head.now.opcode ≤ 15 }
    requires rcode { rcode ≤ 15 }
    ensures { result ≡ flags_of head.now rcode }
{
    QR + RA + u16::from(head.opcode) * OPCODE + flag(head.rd, RD) + flag(head.cd, CD) + rcode
}

/// The flags of a reply from a verdict.
pub(crate) fn reply_flags(question: &Question, kind: Kind, truncated: bool) -> u16
    ensures { result ≡ reply_flags question.now kind truncated }
{
    let ad = question.ad || wants_dnssec(question);
    flags_of(&head_of(question), rcode_of(kind)) + flag(truncated, TC) + flag(ad, AD)
}

/// The header, with these numbers of questions and of the records of the three sections.
pub(crate) fn put_header<const N: usize>(
    draft: &mut Draft<N>,
    id: u16,
    flags: u16,
    questions: u16,
    answers: u16,
    authorities: u16,
    additionals: u16,
)
    ensures { draft.new
        ≡ put draft.old (header_octets id flags questions answers authorities additionals) }
{
    draft.put(&header(id, flags, questions, answers, authorities, additionals));
}

/// Writes these numbers of answers and authorities over those of the header with which the draft begins.
pub(crate) fn set_counts<const N: usize>(draft: &mut Draft<N>, answers: u16, authorities: u16)
    ensures { (limit id flags questions additionals : ℕ) (rest : List ℕ)
        → draft.old ≡ put (blank limit) (header_octets id flags questions 0 0 additionals ++ rest)
        → draft.new ≡ put (blank limit)
        (header_octets id flags questions answers authorities additionals ++ rest) }
{
    let [answers_high, answers_low] = answers.to_be_bytes();
    let [authorities_high, authorities_low] = authorities.to_be_bytes();
    draft.set(6, answers_high);
    draft.set(7, answers_low);
    draft.set(8, authorities_high);
    draft.set(9, authorities_low);
}

fn header(
    id: u16,
    flags: u16,
    questions: u16,
    answers: u16,
    authorities: u16,
    additionals: u16,
) -> [u8; 12]
    ensures { result ≡ header_octets id flags questions answers authorities additionals }
{
    let [id_high, id_low] = id.to_be_bytes();
    let [flags_high, flags_low] = flags.to_be_bytes();
    let [questions_high, questions_low] = questions.to_be_bytes();
    let [answers_high, answers_low] = answers.to_be_bytes();
    let [authorities_high, authorities_low] = authorities.to_be_bytes();
    let [additionals_high, additionals_low] = additionals.to_be_bytes();
    [
        id_high,
        id_low,
        flags_high,
        flags_low,
        questions_high,
        questions_low,
        answers_high,
        answers_low,
        authorities_high,
        authorities_low,
        additionals_high,
        additionals_low,
    ]
}

/// The question, as it was asked.
pub(crate) fn put_question<const N: usize>(draft: &mut Draft<N>, question: &Question)
    ensures value { draft.new ≡ put draft.old question.now.asked.items }
    ensures small { length question.now.asked.items ≤ MAX_ASKED }
{
    draft.put(question.asked.as_slice());
}

/// The OPT record of a reply with these upper bits of the RCODE, where the query had one.
pub(crate) fn put_opt<const N: usize>(draft: &mut Draft<N>, upper: u8, edns: Option<Edns>)
    ensures { draft.new ≡ put draft.old (opt_octets upper edns) }
{
    match edns {
        Some(edns) => draft.put(&opt(upper, edns)),
        None => {}
    }
}

fn opt(upper: u8, edns: Edns) -> [u8; 11]
    ensures { result ≡ opt_octets upper (Some edns) }
{
    let [type_high, type_low] = OPT_TYPE.to_be_bytes();
    let [size_high, size_low] = (MAX_REPLY as u16).to_be_bytes();
    let [flags_high, flags_low] = flag(edns.dnssec, DO).to_be_bytes();
    [
        0, type_high, type_low, size_high, size_low, upper, VERSION, flags_high, flags_low, 0, 0,
    ]
}

/// A reply without records but OPT, with these flags and upper bits of the RCODE.
pub(crate) fn put_bare<const N: usize>(
    draft: &mut Draft<N>,
    question: &Question,
    flags: u16,
    upper: u8,
)
    ensures value { draft.new ≡ put draft.old (bare_octets question.now flags upper) }
    ensures small { length (bare_octets question.now flags upper) ≤ LEAST_PAYLOAD }
{
    let opts = opt_count(question.edns);
    put_header(draft, question.id, flags, 1, 0, 0, opts);
    put_question(draft, question);
    put_opt(draft, upper, question.edns);
}

/// The number of OPT records of a reply.
pub(crate) fn opt_count(edns: Option<Edns>) -> u16
    ensures { result ≡ opt_count edns }
{
    match edns {
        Some(_) => 1,
        None => 0,
    }
}

/// The flag's bit where it is set.
pub(crate) fn flag(set: bool, bit: u16) -> u16
    ensures { result ≡ flag set bit }
{
    if set { bit } else { 0 }
}

fn rcode_of(kind: Kind) -> u16
    ensures { result ≡ rcode_of kind }
{
    match kind {
        Kind::NxDomain => NAME_ERROR,
        Kind::NoData | Kind::Answer => NO_ERROR,
    }
}
