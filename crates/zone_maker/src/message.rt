ghost use Rattle.std.specs.Prelude.{◌≡◌, ◌≤◌, ◌<◌, ◌^◌, ◌++◌, length, OnOk, IfOk};
ghost use Rattle.zone_maker.specs.Messages.{record_octets, signed_octets, question_octets, first_of, answer_in, answer_of, answers_of, nsec_data, message_at, messages_of};
ghost use Rattle.zone_maker.specs.Made.{made_owner};
ghost use Rattle.zone_maker.specs.NameKinds.{kind_of};

use crate::name_kind::{NameKind, kind_at};
use crate::names::{apex, made_owner, next_owner, owner_at};
use crate::pieces::{
    SOA_DATA, address_at, header, question_tail, record_head, signature_data, type_map,
};
use dname::types::{A_TYPE, NSEC_TYPE, RRSIG_TYPE, SOA_TYPE};
use dname::{Name, Octets, OctetsList, OutOfMemory};
use std::alloc::Global;

// QR, RD, RA and AD.
const MESSAGE_FLAGS: u16 = 0x81a0;

// The types of an owner in the first octet of its NSEC's type bit map.
const ONLY_A: u8 = 0x40;

const ONLY_NS: u8 = 0x20;

const NS_AND_SOA: u8 = 0x22;

/// The messages of the made zone.
pub(crate) fn messages(alloc: Global, seed: u32, names: u32) -> Result<OctetsList, OutOfMemory>
    requires { names ≤ 10000 }
    ensures { IfOk result (λ messages. messages ≡ messages_of seed names) }
{
    let mut messages = OctetsList::empty(alloc);
    for k in 0..names + 1 {
        messages.push(message(alloc, seed, names, k)?)?;
    }
    Ok(messages)
}

// Message number k.
fn message(alloc: Global, seed: u32, names: u32, k: u32) -> Result<Octets, OutOfMemory>
    ensures { IfOk result (λ octets. octets ≡ message_at seed names k) }
{
    let owner = made_owner(k);
    let mut out = Octets::empty(alloc);
    out.append(&header(k, MESSAGE_FLAGS, answers_of(k), 4, 0))?;
    put_question(&mut out, &owner, A_TYPE)?;
    put_answer(&mut out, seed, k)?;
    put_signed(&mut out, &apex(), SOA_TYPE, &SOA_DATA)?;
    put_nsec(alloc, &mut out, names, k)?;
    Ok(out)
}

fn put_question(out: &mut Octets, name: &Name, qtype: u16) -> Result<(), OutOfMemory>
    ensures { OnOk result (out.new ≡ out.old ++ question_octets name.now qtype) }
{
    out.append(name.wire())?;
    out.append(&question_tail(qtype))?;
    Ok(())
}

// The number of records of the answer section.
fn answers_of(k: u32) -> u16
    ensures { result ≡ answers_of k }
{
    if k == 0 {
        return 0;
    }
    match kind_at(k - 1) {
        NameKind::Wild => 2,
        NameKind::Host | NameKind::Above | NameKind::Cut => 0,
    }
}

// The answer section.
fn put_answer(out: &mut Octets, seed: u32, k: u32) -> Result<(), OutOfMemory>
    ensures { OnOk result (out.new ≡ out.old ++ answer_of seed k) }
{
    if k == 0 {
        return Ok(());
    }
    put_answer_in(out, kind_at(k - 1), seed, k - 1)?;
    Ok(())
}

fn put_answer_in(out: &mut Octets, kind: NameKind, seed: u32, i: u32) -> Result<(), OutOfMemory>
    ensures { OnOk result (out.new ≡ out.old ++ answer_in (kind_of kind) seed i) }
{
    match kind {
        NameKind::Wild => put_signed(out, &owner_at(i), A_TYPE, &address_at(seed, i)),
        NameKind::Host | NameKind::Above | NameKind::Cut => Ok(()),
    }
}

// The NSEC of owner number k, and its signature.
fn put_nsec(alloc: Global, out: &mut Octets, names: u32, k: u32) -> Result<(), OutOfMemory>
    ensures { OnOk result
        (out.new ≡ out.old ++ signed_octets (made_owner k) NSEC_TYPE (nsec_data names k)) }
{
    let next = next_owner(names, k);
    let mut data = Octets::of(alloc, next.wire())?;
    data.append(&type_map(first_of(k)))?;
    put_signed(out, &made_owner(k), NSEC_TYPE, data.as_slice())
}

// The first octet of the type bit map of owner number k.
fn first_of(k: u32) -> u8
    ensures { result ≡ first_of k }
{
    if k == 0 {
        return NS_AND_SOA;
    }
    match kind_at(k - 1) {
        NameKind::Cut => ONLY_NS,
        NameKind::Host | NameKind::Above | NameKind::Wild => ONLY_A,
    }
}

// A record and its signature.
fn put_signed(out: &mut Octets, owner: &Name, rtype: u16, rdata: &[u8]) -> Result<(), OutOfMemory>
    requires { length rdata.now < 2 ^ 16 }
    ensures { OnOk result (out.new ≡ out.old ++ signed_octets owner.now rtype rdata.now) }
{
    put_record(out, owner, rtype, rdata)?;
    put_record(out, owner, RRSIG_TYPE, &signature_data(owner, rtype))?;
    Ok(())
}

fn put_record(out: &mut Octets, owner: &Name, rtype: u16, rdata: &[u8]) -> Result<(), OutOfMemory>
    requires { length rdata.now < 2 ^ 16 }
    ensures { OnOk result (out.new ≡ out.old ++ record_octets owner.now rtype rdata.now) }
{
    out.append(owner.wire())?;
    out.append(&record_head(rtype, rdata.len() as u16))?;
    out.append(rdata)
}
