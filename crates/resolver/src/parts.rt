//! The parts of a zone's proof, for who has looked the set up already.
ghost use Rattle.std.specs.Prelude.{◌≡◌, ◌↔◌, [], IfSome, IsSome};
ghost use Rattle.cache_meaning.specs.NsecSteps.{answer_by};
ghost use Rattle.cache_meaning.specs.Prove.{chain_proof};
ghost use Rattle.cache_meaning.specs.Verdict.{IsVerdict, IsVerdictOf};
ghost use Rattle.cache_meaning.specs.Zones.{chains_of, first_of};
ghost use Rattle.soundness.specs.Steps.{IsAsked};
ghost use Rattle.resolver.specs.SoundVerdict.{IsSoundVerdict};

use crate::proving::by_chains;
use denial_records::{KeptSet, Kind, Verdict, remaining};
use dname::Name;
use record_store::ZoneRef;

/// The answer by the set at the name and type, where it may be used at the moment, in seconds.
pub fn answer_by_set<'a>(set: &'a KeptSet, now: u32) -> Verdict<'a>
    ensures { IsVerdict now (answer_by set.now []) result }
{
    Verdict {
        kind: Kind::Answer,
        answer_set: Some(set),
        soa: None,
        first: None,
        second: None,
        third: None,
        ttl: remaining(set.life(), set.expiry(), now),
    }
}

/// What `prove_in` gives where there is no such set: by each chain of the zone alone, the newest first. None exactly where they
/// prove nothing. It takes no memory.
pub fn prove_by_chains<'a>(
    zone: &ZoneRef<'a>,
    name: &Name,
    qtype: u16,
    now: u32,
) -> Option<Verdict<'a>>
    ensures proved { IfSome result (IsVerdictOf now
        (first_of (chain_proof zone.now.held now zone.now.apex name.now qtype)
        (chains_of zone.now.held zone.now.apex))) }
    ensures exact { IsSome result
        ↔ IsSome (first_of (chain_proof zone.now.held now zone.now.apex name.now qtype)
        (chains_of zone.now.held zone.now.apex)) }
    ensures sound { IsAsked zone.now.apex name.now qtype
        → IfSome result (IsSoundVerdict name.now qtype) }
{
    let proof = by_chains(zone, now, name, qtype)?;
    Some(proof.verdict(now))
}
