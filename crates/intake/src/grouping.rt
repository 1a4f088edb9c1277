ghost use Rattle.std.specs.Prelude.{◌≡◌, ◌≤◌, ◌++◌, length, filter, fold, IfOk, OnOk};
ghost use Rattle.std.specs.List.{All};
ghost use Rattle.intake.specs.Group.{seconds_to, is_ahead};
ghost use Rattle.intake.specs.Pile.{IsTable, HasFixedPart, is_live, covered_key, with_data, with_covering, piles_in};

use crate::key::Key;
use crate::pile::Pile;
use crate::table::{FEW, Table};
use dname::types::{IN_CLASS, RRSIG_TYPE};
use dname::{OutOfMemory, u16_at, u32_at};
use dnswire::{Rr, RrList};
use std::alloc::Global;

/// The piles of the two sections' records.
pub(crate) fn piles_of(
    alloc: Global,
    answer: RrList,
    authority: RrList,
    now: u32,
) -> Result<Vec<Pile>, OutOfMemory>
    requires answer { All HasFixedPart answer }
    requires authority { All HasFixedPart authority }
    ensures { IfOk result (λ piles. piles.items ≡ piles_in now (answer ++ authority)) }
{
    let covering = rrsigs_in(&answer).saturating_add(rrsigs_in(&authority));
    let all = answer.len().saturating_add(authority.len());
    // room for few at once: an answer of more records may still have fewer groups
    let mut table = Table::new(alloc, all.saturating_sub(covering).min(FEW))?;
    let mut signatures = Vec::with_capacity(alloc, covering)?;
    take_in(alloc, &mut table, &mut signatures, answer, now)?;
    take_in(alloc, &mut table, &mut signatures, authority, now)?;
    for signature in signatures {
        let key = covered_key(&signature);
        table.sign(&key, signature.octets)?;
    }
    Ok(table.piles)
}

// The number of RRSIG records, live or not.
fn rrsigs_in(rrs: &RrList) -> usize {
    rrs.as_slice()
        .iter()
        .filter(|rr| rr.rtype == RRSIG_TYPE)
        .count()
}

// Puts the records into the table, and the live signatures behind those that there are.
fn take_in(
    alloc: Global,
    table: &mut Table,
    signatures: &mut Vec<Rr>,
    rrs: RrList,
    now: u32,
) -> Result<(), OutOfMemory>
    requires table { IsTable table.old }
    requires whole { All HasFixedPart rrs }
    ensures table { OnOk result (IsTable table.new) }
    ensures piles { OnOk result (table.new.piles.items
        ≡ fold with_data table.old.piles.items rrs) }
    ensures live { OnOk result (signatures.new.items ≡ signatures.old.items
        ++ filter (is_live now) rrs) }
{
    for rr in rrs.into_vec() {
        if rr.rtype != RRSIG_TYPE {
            table.add(alloc, rr)?;
        } else if is_live(&rr, now) {
            signatures.push(rr)?;
        }
    }
    Ok(())
}

// Whether the record is an RRSIG of class IN whose expiration is in the future.
fn is_live(rr: &Rr, now: u32) -> bool
    requires { HasFixedPart rr.now }
    ensures { result ≡ is_live now rr.now }
{
    rr.rtype == RRSIG_TYPE
        && rr.class == IN_CLASS
        && is_ahead(seconds_to(u32_at(rr.octets.as_slice(), 8), now))
}

// The key of the records that an RRSIG record covers.
fn covered_key(signature: &Rr) -> Key
    requires { 18 ≤ length signature.now.octets }
    ensures { result ≡ covered_key signature.now }
{
    Key {
        owner: signature.owner.name().copy(),
        class: IN_CLASS,
        rtype: u16_at(signature.octets.as_slice(), 0),
    }
}

/// The seconds until an expiration, by serial arithmetic (RFC 1982).
pub(crate) fn seconds_to(expiration: u32, now: u32) -> u32
    ensures { result ≡ seconds_to expiration now }
{
    expiration.wrapping_sub(now)
}

// Whether the seconds lie in the future.
fn is_ahead(seconds: u32) -> bool
    ensures { result ≡ is_ahead seconds }
{
    0 < seconds && seconds < 1 << 31
}
