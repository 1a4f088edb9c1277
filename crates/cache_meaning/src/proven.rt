ghost use Rattle.std.specs.Prelude.{◌≡◌};
ghost use Rattle.cache_meaning.specs.Verdict.{IsVerdict};
ghost use Rattle.cache_meaning.specs.Views.{proof_by};

use crate::Denials;
use crate::claim::Claim;
use denial_records::{Kind, Verdict};
use std::marker::Model;

/// What held records prove of a name and a type, seen as the proof. It lends the records that it uses.
#[derive(Drop)]
pub struct Proven<'a> {
    claim: Claim<'a>,
    denials: Denials<'a>,
}

impl<'a> Model for Proven<'a> {
    ghost use Rattle.denial_records.specs.Proof.{Proof};
    ghost use Rattle.cache_meaning.specs.Views.{proof_by};

    ghost Value = { Proof };

    ghost view = { λ p. proof_by p.claim p.denials };
}

impl<'a> Proven<'a> {
    pub(crate) fn of(claim: Claim<'a>, denials: Denials<'a>) -> Proven<'a>
        ensures { result ≡ proof_by claim.entry denials.entry }
    {
        Proven { claim, denials }
    }

    /// The proof with its TTL at a moment, in seconds.
    #[inline(always)]
    pub fn verdict(self, now: u32) -> Verdict<'a>
        ensures { IsVerdict now self.entry result }
    {
        let Proven { claim, denials } = self;
        let ttl = denials.least_left(claim.ttl(now), now);
        let (first, second, third) = denials.in_turn();
        let (kind, answer_set, soa) = match claim {
            Claim::Answer(set) => (Kind::Answer, Some(set), None),
            Claim::NoData(soa) => (Kind::NoData, None, Some(soa)),
            Claim::NxDomain(soa) => (Kind::NxDomain, None, Some(soa)),
        };
        Verdict {
            kind,
            answer_set,
            soa,
            first,
            second,
            third,
            ttl,
        }
    }
}
