ghost use Rattle.std.specs.Prelude.{◌≡◌, ◌↔◌, IfSome, IsSome};
ghost use Rattle.std.specs.Option.{option_and_then};
ghost use Rattle.zone_meaning.specs.Zone.{IsProofType};
ghost use Rattle.cache_meaning.specs.Lent.{lent_chain};
ghost use Rattle.cache_meaning.specs.Prove.{chain_proof, zone_proof, proof_of, outcome_of};
ghost use Rattle.cache_meaning.specs.Verdict.{IsVerdict, IsVerdictOf};
ghost use Rattle.cache_meaning.specs.Zones.{chains_of, first_of};
ghost use Rattle.soundness.specs.Steps.{IsAsked};
ghost use Rattle.soundness.specs.Sound.{IsSound};
ghost use Rattle.resolver.specs.SoundVerdict.{IsSoundVerdict};

use cache_meaning::{Chain, HeldZone, Proven, is_forwarded};
use denial_records::Verdict;
use dname::Name;
use dname::types::IN_CLASS;
use record_store::{Store, ZoneRef};
use soundness::the_zone_is_asked;

/// What the held records prove of a name and a type at a moment, in seconds, with the TTL (RFC 8198, section 5): first by the
/// set at the name and type, then by each chain of the zone alone, the newest first. None exactly where they prove nothing. It
/// takes no memory.
pub fn prove<'a>(store: &'a Store, name: &Name, qtype: u16, now: u32) -> Option<Verdict<'a>>
    ensures proved { IfSome result (IsVerdictOf now (proof_of store.now now name.now qtype)) }
    ensures exact { IsSome result ↔ IsSome (proof_of store.now now name.now qtype) }
    ensures sound { (IsProofType qtype → ⊥) → IfSome result (IsSoundVerdict name.now qtype) }
{
    the_zone_is_asked();
    let zone = store.zone_for(name, qtype)?;
    prove_in(&zone, name, qtype, now)
}

/// The same by one zone's records, which is what `prove` gives where the zone is the one for the question. None exactly where they
/// prove nothing. It takes no memory.
pub fn prove_in<'a>(zone: &ZoneRef<'a>, name: &Name, qtype: u16, now: u32) -> Option<Verdict<'a>>
    ensures proved { IfSome result
        (IsVerdictOf now (zone_proof zone.now.held now zone.now.apex name.now qtype)) }
    ensures exact { IsSome result
        ↔ IsSome (zone_proof zone.now.held now zone.now.apex name.now qtype) }
    ensures sound { IsAsked zone.now.apex name.now qtype
        → IfSome result (IsSoundVerdict name.now qtype) }
{
    let proof = zone_proof(zone, now, name, qtype)?;
    Some(proof.verdict(now))
}

/// The answer to a query at a moment, in seconds. None exactly where it is forwarded: where its class isn't IN, where queries
/// of its type always are, and where the held records prove nothing. It takes no memory.
pub fn answer<'a>(
    store: &'a Store,
    name: &Name,
    qtype: u16,
    qclass: u16,
    now: u32,
) -> Option<Verdict<'a>>
    ensures proved { IfSome result
        (IsVerdictOf now (outcome_of store.now now name.now qtype qclass)) }
    ensures exact { IsSome result ↔ IsSome (outcome_of store.now now name.now qtype qclass) }
    ensures sound { IfSome result (IsSoundVerdict name.now qtype) }
{
    if qclass != IN_CLASS || is_forwarded(qtype) {
        return None;
    }
    prove(store, name, qtype, now)
}

fn zone_proof<'a>(zone: &ZoneRef<'a>, now: u32, name: &Name, qtype: u16) -> Option<Proven<'a>>
    ensures proof { result ≡ zone_proof zone.now.held now zone.now.apex name.now qtype }
    ensures sound { IsAsked zone.now.apex name.now qtype
        → IfSome result (IsSound name.now qtype) }
{
    if let Some(proof) = synth_nsec::exact(zone, name, qtype, now) {
        return Some(proof);
    }
    by_chains(zone, now, name, qtype)
}

/// By the first of the zone's chains that proves something, the newest first.
pub(crate) fn by_chains<'a>(
    zone: &ZoneRef<'a>,
    now: u32,
    name: &Name,
    qtype: u16,
) -> Option<Proven<'a>>
    ensures proof { result
        ≡ first_of (chain_proof zone.now.held now zone.now.apex name.now qtype) (chains_of
        zone.now.held zone.now.apex) }
    ensures sound { IsAsked zone.now.apex name.now qtype
        → IfSome result (IsSound name.now qtype) }
{
    let [newer, older] = zone.chains();
    if let Some(proof) = chain_proof(zone, now, name, qtype, newer) {
        return Some(proof);
    }
    chain_proof(zone, now, name, qtype, older)
}

// By one chain's records alone; nothing where there is no chain.
fn chain_proof<'a>(
    zone: &ZoneRef<'a>,
    now: u32,
    name: &Name,
    qtype: u16,
    chain: Chain<'_>,
) -> Option<Proven<'a>>
    ensures proof { result
        ≡ option_and_then (chain_proof zone.now.held now zone.now.apex name.now qtype)
        (lent_chain chain.entry) }
    ensures sound { IsAsked zone.now.apex name.now qtype
        → IfSome result (IsSound name.now qtype) }
{
    match chain {
        Chain::Bare => None,
        Chain::Nsec => synth_nsec::judge(zone, name, qtype, now),
        Chain::Nsec3 { salt, iterations } => {
            synth_nsec3::judge(zone, salt, iterations, name, qtype, now)
        }
    }
}
