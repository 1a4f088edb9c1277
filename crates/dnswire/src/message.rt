ghost use Rattle.std.specs.Prelude.{◌≡◌, ◌≤◌, ◌⊎◌, Ok, Err, IfOk, IfErr};
ghost use Rattle.dnswire.specs.Message.{IsMessage, IsFaultOf, upper_rcode};
ghost use Rattle.dnswire.specs.declared.message.Message.{Message};
ghost use Rattle.dnswire.specs.declared.wire_fault.WireFault.{WireFault};

use crate::header::{HEADER_OCTETS, Header};
use crate::message_name::name_or_fault;
use crate::name_table::NameTable;
use crate::question_fields::QuestionFields;
use crate::section::read_section;
use crate::{HeaderFlags, RrList, WireFault};
use dname::Name;
use dname::types::OPT_TYPE;
use std::alloc::Global;

/// A message of one question (RFC 1035, section 4.1).
#[derive(Debug, Drop)]
pub struct Message {
    pub id: u16,
    pub flags: HeaderFlags,
    /// The extended RCODE (RFC 6891, section 6.1.3).
    pub rcode: u16,
    pub name: Name,
    pub qtype: u16,
    pub qclass: u16,
    pub answer: RrList,
    pub authority: RrList,
    pub additional: RrList,
}

/// Reads a message of one question, with the names of its records written out; or the first fault from the front on.
/// Octets after the last record are passed over.
pub fn read_message(alloc: Global, octets: &[u8]) -> Result<Message, WireFault>
    ensures read { IfOk result (IsMessage octets.now) }
    ensures refused { IfErr result (λ fault. (fault ≡ WireFault.OutOfMemory)
        ⊎ IsFaultOf octets.now fault) }

    // Octets that are a message are read, and the first fault is told, where there is memory.
    ensures every_message { (message : Message) → IsMessage octets.now message
        → (result ≡ Ok message) ⊎ (result ≡ Err WireFault.OutOfMemory) }
    ensures every_fault { (fault : WireFault) → IsFaultOf octets.now fault
        → (result ≡ Err fault) ⊎ (result ≡ Err WireFault.OutOfMemory) }
{
    message_of(alloc, octets)
}

fn message_of(alloc: Global, octets: &[u8]) -> Result<Message, WireFault>
    ensures read { IfOk result (IsMessage octets.now) }
    ensures refused { IfErr result (λ fault. (fault ≡ WireFault.OutOfMemory)
        ⊎ IsFaultOf octets.now fault) }
{
    let Some(header) = Header::read(octets) else {
        return Err(WireFault::Short);
    };
    if header.questions != 1 {
        return Err(WireFault::BadCount);
    }
    let mut table = NameTable::empty(alloc);
    let (name, fields_at) = name_or_fault(alloc, octets, HEADER_OCTETS, &mut table)?;
    let Some(question) = QuestionFields::read(octets, fields_at) else {
        return Err(WireFault::Short);
    };
    let (answer, at) = read_section(alloc, octets, question.end, header.answers, &mut table)?;
    let (authority, at) = read_section(alloc, octets, at, header.authorities, &mut table)?;
    let (additional, _) = read_section(alloc, octets, at, header.additionals, &mut table)?;
    Ok(Message {
        id: header.id,
        flags: header.flags(),
        rcode: 16 * upper_rcode(&additional) + header.flags().low_rcode(),
        name,
        qtype: question.qtype,
        qclass: question.qclass,
        answer,
        authority,
        additional,
    })
}

// The upper part of the RCODE, from the first OPT record of the root.
fn upper_rcode(additional: &RrList) -> u16
    ensures value { result ≡ upper_rcode additional.now }
    ensures small { result ≤ 255 }
{
    for rr in additional.as_slice() {
        if rr.rtype == OPT_TYPE && rr.owner.name().labels() == 0 {
            return (rr.ttl >> 24) as u16;
        }
    }
    0
}
