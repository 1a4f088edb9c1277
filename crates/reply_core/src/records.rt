ghost use Rattle.std.specs.Prelude.{◌≡◌, ◌++◌, ◌%◌, ◌^◌, length, true};
ghost use Rattle.std.specs.List.{flat_map};
ghost use Rattle.std.specs.Option.{option_copied};
ghost use Rattle.byteorder.specs.Endian.{big_bytes};
ghost use Rattle.denial_records.specs.declared.record.Record.TheVariants as kept;
ghost use Rattle.reply_core.specs.Count.{HasPut};
ghost use Rattle.reply_core.specs.Draft.{put};
ghost use Rattle.reply_core.specs.Reply.{ReplyRecord, record_octets, records_of, signature_records, set_records, proof_records};
ghost use Rattle.reply_core.specs.Kept.{owner_of, listed};
ghost use Rattle.reply_core.specs.Sections.{alias_record};
ghost use Rattle.reply_core.specs.Shown.{denial_in};
ghost use Rattle.reply_core.specs.Owner.{labels_of};

use crate::draft::Draft;
use crate::owner::Owner;
use denial_records::{Denial, KeptNsec, KeptNsec3, KeptSet};
use dname::types::{CNAME_TYPE, IN_CLASS, NSEC_TYPE, NSEC3_TYPE, RRSIG_TYPE};
use dname::{LentName, Name, Packed};
use nsec3_hash::to_base32hex;

// A number that is given is that of the records that are put, modulo 2^16.

// The records of a set with this owner, and its signatures where the client wants them.
fn put_set<const N: usize>(
    draft: &mut Draft<N>,
    ttl: u32,
    dnssec: bool,
    owner: LentName<'_>,
    set: &KeptSet,
) -> u16
    ensures { HasPut ttl draft.old draft.new result
        (set_records dnssec owner.entry (kept.Set set.now)) }
{
    let owner = Owner::Name(owner);
    let items = put_list(draft, ttl, &owner, set.rtype(), set.items());
    items.wrapping_add(put_signatures(draft, ttl, dnssec, &owner, set.signatures()))
}

/// The SOA set, where there is one.
pub(crate) fn put_soa<const N: usize>(
    draft: &mut Draft<N>,
    ttl: u32,
    dnssec: bool,
    soa: Option<&KeptSet>,
) -> u16
    ensures { HasPut ttl draft.old draft.new result
        (flat_map (λ set. set_records dnssec (owner_of set) set)
        (listed (option_copied soa.entry))) }
{
    match soa {
        Some(soa) => put_set(draft, ttl, dnssec, soa.owner(), soa),
        None => 0,
    }
}

/// The set that answers, where there is one, with this owner.
pub(crate) fn put_answer<const N: usize>(
    draft: &mut Draft<N>,
    ttl: u32,
    dnssec: bool,
    owner: &Name,
    answer: Option<&KeptSet>,
) -> u16
    ensures { HasPut ttl draft.old draft.new result
        (flat_map (set_records dnssec owner.now) (listed (option_copied answer.entry))) }
{
    match answer {
        Some(answer) => put_set(draft, ttl, dnssec, owner.lent(), answer),
        None => 0,
    }
}

/// A CNAME, without a signature.
pub(crate) fn put_alias<const N: usize>(draft: &mut Draft<N>, ttl: u32, owner: &Name, target: &Name)
    ensures { draft.new
        ≡ put draft.old (record_octets ttl (alias_record owner.now target.now)) }
{
    let owner = Owner::Name(owner.lent());
    put_record(draft, ttl, &owner, CNAME_TYPE, target.wire());
}

/// The record of a denial and its signatures, where there is one and the client wants them.
pub(crate) fn put_denial<const N: usize>(
    draft: &mut Draft<N>,
    ttl: u32,
    dnssec: bool,
    denial: &Option<Denial<'_>>,
) -> u16
    ensures { HasPut ttl draft.old draft.new result
        (flat_map (proof_records dnssec) (denial_in denial.now)) }
{
    if !dnssec {
        return 0;
    }
    match denial {
        Some(Denial::Nsec(nsec)) => put_nsec(draft, ttl, nsec),
        Some(Denial::Nsec3(nsec3)) => put_nsec3(draft, ttl, nsec3),
        None => 0,
    }
}

fn put_nsec<const N: usize>(draft: &mut Draft<N>, ttl: u32, nsec: &KeptNsec) -> u16
    ensures { HasPut ttl draft.old draft.new result (proof_records true (kept.Nsec nsec.now)) }
{
    let owner = Owner::Name(nsec.owner());
    put_record(draft, ttl, &owner, NSEC_TYPE, nsec.image());
    put_list(draft, ttl, &owner, RRSIG_TYPE, nsec.signatures()).wrapping_add(1)
}

fn put_nsec3<const N: usize>(draft: &mut Draft<N>, ttl: u32, nsec3: &KeptNsec3) -> u16
    ensures { HasPut ttl draft.old draft.new result (proof_records true (kept.Nsec3 nsec3.now)) }
{
    let owner = Owner::Hashed(to_base32hex(nsec3.hash()), nsec3.zone());
    put_record(draft, ttl, &owner, NSEC3_TYPE, nsec3.image());
    put_list(draft, ttl, &owner, RRSIG_TYPE, nsec3.signatures()).wrapping_add(1)
}

fn put_signatures<const N: usize>(
    draft: &mut Draft<N>,
    ttl: u32,
    dnssec: bool,
    owner: &Owner<'_>,
    signatures: Packed<'_>,
) -> u16
    ensures { HasPut ttl draft.old draft.new result
        (signature_records dnssec (labels_of owner.now) signatures.entry) }
{
    if dnssec {
        put_list(draft, ttl, owner, RRSIG_TYPE, signatures)
    } else {
        0
    }
}

fn put_list<const N: usize>(
    draft: &mut Draft<N>,
    ttl: u32,
    owner: &Owner<'_>,
    rtype: u16,
    items: Packed<'_>,
) -> u16
    ensures { HasPut ttl draft.old draft.new result
        (records_of (labels_of owner.now) rtype items.entry) }
{
    let mut rest = items;
    let mut count: u16 = 0;
    while let Some(item) = rest.next() {
        // Of a reply that is truncated anyway, what is left is only counted.
        if !draft.is_over() {
            put_record(draft, ttl, owner, rtype, item);
        }
        count = count.wrapping_add(1);
    }
    count
}

fn put_record<const N: usize>(
    draft: &mut Draft<N>,
    ttl: u32,
    owner: &Owner<'_>,
    rtype: u16,
    rdata: &[u8],
)
    ensures { draft.new ≡ put draft.old (record_octets ttl
        (record { owner = labels_of owner.now; rtype = rtype; rdata = rdata.now })) }
{
    owner.put(draft);
    put_rest(draft, rtype, IN_CLASS, ttl, rdata);
}

/// What stands after the owner of a record.
pub(crate) fn put_rest<const N: usize>(
    draft: &mut Draft<N>,
    rtype: u16,
    class: u16,
    ttl: u32,
    rdata: &[u8],
)
    ensures { draft.new ≡ put draft.old (big_bytes 2 rtype ++ big_bytes 2 class ++ big_bytes 4 ttl
        ++ big_bytes 2 (length rdata.now) ++ rdata.now) }
{
    draft.put(&fields(rtype, class, ttl, low16(rdata.len())));
    draft.put(rdata);
}

// A record's type, class, TTL and the length of its data.
fn fields(rtype: u16, class: u16, ttl: u32, size: u16) -> [u8; 10]
    ensures { result
        ≡ big_bytes 2 rtype ++ big_bytes 2 class ++ big_bytes 4 ttl ++ big_bytes 2 size }
{
    let [type_high, type_low] = rtype.to_be_bytes();
    let [class_high, class_low] = class.to_be_bytes();
    let [first, second, third, fourth] = ttl.to_be_bytes();
    let [size_high, size_low] = size.to_be_bytes();
    [
        type_high, type_low, class_high, class_low, first, second, third, fourth, size_high,
        size_low,
    ]
}

// The low 16 bits of a length or a count. One that doesn't fit stands only in what is too long to be sent.
fn low16(number: usize) -> u16
    ensures { result ≡ number % 2 ^ 16 }
{
    (number % 0x1_0000) as u16
}
