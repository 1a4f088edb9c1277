ghost use Rattle.std.specs.Prelude.{◌≡◌, ◌≤◌, ℕ, List, length, Option, IsSome, IfSome, IfNone, IfOk, Some, Err};
ghost use Rattle.dname.specs.Name.{Label};
ghost use Rattle.dnswire.specs.InTurn.{StandInTurn};
ghost use Rattle.dnswire.specs.RrHead.{RrHead, IsRrHead};
ghost use Rattle.dnswire.specs.Query.{AreOpts, HasQueryHeader, IsReadAs, edns_of, opts_of, version_of};
ghost use Rattle.dnswire.specs.RecordsPassed.{HasRecords};
ghost use Rattle.dnswire.specs.Runs.{AreSizes};
ghost use Rattle.dnswire.specs.declared.edns.Edns.{Edns};
ghost use Rattle.dnswire.specs.declared.name_skip.NotPassed.{NotPassed};
ghost use Rattle.dnswire.specs.declared.query_read.QueryRead.{QueryRead};
ghost use Rattle.dnswire.specs.declared.question.Question.{Question};
ghost use Rattle.dnswire.specs.declared.rr_fields.RrFields.{RrFields};

use crate::header::{HEADER_OCTETS, Header};
use crate::header_flags::STANDARD_QUERY;
use crate::message_name::is_root_at;
use crate::name_labels::POINTED_OFFSETS;
use crate::name_skip::{NotPassed, skip_name};
use crate::question::MAX_ASKED;
use crate::question_fields::QuestionFields;
use crate::rr_fields::RrFields;
use crate::{DO, Edns, Head, LEAST_PAYLOAD, Question};
use arrayvec::ArrayVec;
use dname::types::OPT_TYPE;
use dname::{Name, octets_between, octets_from};

/// What octets are as a query.
#[derive(Debug, Drop)]
pub enum QueryRead {
    /// They get no reply: fewer than 12 octets, or a response.
    Dropped,
    /// The opcode isn't that of a standard query; RCODE 4 answers it (RFC 1035, section 4.1.1).
    NotImp(Head),
    /// They can't be read as a query of one question with one OPT record of the root at most; RCODE 1 answers it.
    FormErr(Head),
    /// The OPT record has another version than 0; RCODE 16 answers it (RFC 6891, section 6.1.3).
    BadVers(Question),
    Query(Question),
}

/// Reads a query: what it asks, or why it is refused. A fault comes before a version, an opcode before both. The data of
/// records isn't read, but for what the OPT record says, and octets after the last record are passed over. It takes no
/// memory.
pub fn read_query(octets: &[u8]) -> QueryRead
    ensures read { IsReadAs octets.now result }
    ensures every { (read : QueryRead) → IsReadAs octets.now read → result ≡ read }
{
    let Some(header) = Header::read(octets) else {
        return QueryRead::Dropped;
    };
    let flags = header.flags();
    if flags.is_response() {
        return QueryRead::Dropped;
    }
    if flags.opcode() != STANDARD_QUERY {
        return QueryRead::NotImp(header.head());
    }
    read_question(octets, header)
}

// What the octets of a standard query, which have this header, are read as.
fn read_question(octets: &[u8], header: Header) -> QueryRead
    requires { HasQueryHeader octets.now header STANDARD_QUERY }
    ensures { IsReadAs octets.now result }
{
    if header.questions != 1 {
        return QueryRead::FormErr(header.head());
    }
    let Ok((name, taken)) = Name::read(octets_from(octets, HEADER_OCTETS)) else {
        return QueryRead::FormErr(header.head());
    };
    let Some(fields) = QuestionFields::read(octets, HEADER_OCTETS + taken) else {
        return QueryRead::FormErr(header.head());
    };
    let Some(opt) = read_records(octets, fields.end, header) else {
        return QueryRead::FormErr(header.head());
    };
    let flags = header.flags();
    let question = Question {
        id: header.id,
        rd: flags.has_rd(),
        ad: flags.has_ad(),
        cd: flags.has_cd(),
        name,
        asked: copy_of(octets_between(octets, HEADER_OCTETS, fields.end)),
        qtype: fields.qtype,
        qclass: fields.qclass,
        edns: opt.edns,
    };
    if opt.version != 0 {
        return QueryRead::BadVers(question);
    }
    QueryRead::Query(question)
}

fn copy_of(asked: &[u8]) -> ArrayVec<u8, MAX_ASKED>
    requires { length asked.now ≤ MAX_ASKED }
    ensures { result.items ≡ asked.now }
{
    let mut copy = ArrayVec::new();
    let fitted = copy.try_extend_from_slice(asked).is_ok();
    prove!(fitted);
    copy
}

/// What the OPT records of an additional section say.
#[derive(Clone, Copy, Debug)]
struct OptSaid {
    edns: Option<Edns>,
    version: u8,
}

// What the records after the question say; none where one can't be read, or there is a second OPT record in the additional
// section or one of another owner than the root.
fn read_records(octets: &[u8], at: usize, header: Header) -> Option<OptSaid>
    ensures read { IfSome result
        (λ said. HasRecords octets.now at header said.edns said.version) }
    ensures none { IfNone result ((edns : Option Edns) (version : ℕ)
        → HasRecords octets.now at header edns version → ⊥) }
{
    match pass_records(octets, at, header, &mut []) {
        Ok(said) => Some(said),
        Err(NotPassed::Faulty) => None,
        Err(NotPassed::Dear) => read_dear_records(octets, at, header),
    }
}

// The same, with what stands where pointers go remembered.
#[inline(never)]
fn read_dear_records(octets: &[u8], at: usize, header: Header) -> Option<OptSaid>
    ensures read { IfSome result
        (λ said. HasRecords octets.now at header said.edns said.version) }
    ensures none { IfNone result ((edns : Option Edns) (version : ℕ)
        → HasRecords octets.now at header edns version → ⊥) }
{
    let mut sizes = [0; POINTED_OFFSETS];
    match pass_records(octets, at, header, &mut sizes) {
        Ok(said) => Some(said),
        Err(NotPassed::Faulty) => None,
        Err(NotPassed::Dear) => None,
    }
}

fn pass_records(
    octets: &[u8],
    at: usize,
    header: Header,
    sizes: &mut [u8],
) -> Result<OptSaid, NotPassed>
    requires { AreSizes octets.now sizes.old }
    ensures read { IfOk result
        (λ said. HasRecords octets.now at header said.edns said.version) }
    ensures faulty { result ≡ Err NotPassed.Faulty → (edns : Option Edns) (version : ℕ)
        → HasRecords octets.now at header edns version → ⊥ }
    ensures dear { result ≡ Err NotPassed.Dear → length sizes.old ≡ 0 }
{
    let passed = usize::from(header.answers) + usize::from(header.authorities);
    let additional_at = skip_rrs(octets, at, passed, sizes)?;
    let said = read_opt(octets, additional_at, header.additionals, sizes)?;
    Ok(said)
}

// The offset after so many records.
fn skip_rrs(octets: &[u8], at: usize, count: usize, sizes: &mut [u8]) -> Result<usize, NotPassed>
    requires { AreSizes octets.now sizes.old }
    ensures read { IfOk result (λ end. (heads : List RrHead)
        × StandInTurn (IsRrHead octets.now) at heads end × (length heads ≡ count)) }
    ensures faulty { result ≡ Err NotPassed.Faulty → (heads : List RrHead) (end : ℕ)
        → StandInTurn (IsRrHead octets.now) at heads end → length heads ≡ count → ⊥ }
    ensures dear { result ≡ Err NotPassed.Dear → length sizes.old ≡ 0 }
    ensures sizes { AreSizes octets.now sizes.new }
    ensures room { length sizes.new ≡ length sizes.old }
{
    let mut here = at;
    for _ in 0..count {
        let fields = skip_rr(octets, here, sizes)?;
        here = fields.end;
    }
    Ok(here)
}

// What follows the owner name of the record at the offset.
fn skip_rr(octets: &[u8], at: usize, sizes: &mut [u8]) -> Result<RrFields, NotPassed>
    requires { AreSizes octets.now sizes.old }
    ensures read { IfOk result (λ fields. (owner : List Label)
        × IsRrHead octets.now at (record { owner = owner; fields = fields }) fields.end) }
    ensures faulty { result ≡ Err NotPassed.Faulty → (head : RrHead) (end : ℕ)
        → IsRrHead octets.now at head end → ⊥ }
    ensures dear { result ≡ Err NotPassed.Dear → length sizes.old ≡ 0 }
    ensures sizes { AreSizes octets.now sizes.new }
    ensures room { length sizes.new ≡ length sizes.old }
{
    let fields_at = skip_name(octets, at, sizes)?;
    match RrFields::read(octets, fields_at) {
        Some(fields) => Ok(fields),
        None => Err(NotPassed::Faulty),
    }
}

// What the OPT records among so many records say. There may be one, whose owner is the root.
fn read_opt(octets: &[u8], at: usize, count: u16, sizes: &mut [u8]) -> Result<OptSaid, NotPassed>
    requires { AreSizes octets.now sizes.old }
    ensures read { IfOk result (λ said. (heads : List RrHead) × (end : ℕ)
        × StandInTurn (IsRrHead octets.now) at heads end × (length heads ≡ count)
        × AreOpts (opts_of heads) said.edns said.version) }
    ensures faulty { result ≡ Err NotPassed.Faulty
        → (heads : List RrHead) (end : ℕ) (edns : Option Edns) (version : ℕ)
        → StandInTurn (IsRrHead octets.now) at heads end → length heads ≡ count
        → AreOpts (opts_of heads) edns version → ⊥ }
    ensures dear { result ≡ Err NotPassed.Dear → length sizes.old ≡ 0 }
{
    let mut said = OptSaid {
        edns: None,
        version: 0,
    };
    let mut here = at;
    for _ in 0..count {
        let fields = skip_rr(octets, here, sizes)?;
        if fields.rtype == OPT_TYPE {
            if said.edns.is_some() || !is_root_at(octets, here) {
                return Err(NotPassed::Faulty);
            }
            said = opt_said(fields);
        }
        here = fields.end;
    }
    Ok(said)
}

fn opt_said(opt: RrFields) -> OptSaid
    ensures edns { result.edns ≡ Some (edns_of opt) }
    ensures version { result.version ≡ version_of opt }
{
    OptSaid {
        edns: Some(Edns {
            size: opt.class.max(LEAST_PAYLOAD),
            dnssec: opt.ttl / u32::from(DO) % 2 == 1,
        }),
        version: (opt.ttl / 0x1_0000 % 0x100) as u8,
    }
}
