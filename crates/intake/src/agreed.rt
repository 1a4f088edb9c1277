ghost use Rattle.std.specs.Prelude.{◌≡◌, ◌↔◌, IsTrue, MatchOption};
ghost use Rattle.denial_records.specs.Rrsig.{IsRrsig};
ghost use Rattle.denial_records.specs.declared.rrsig.Rrsig.{Rrsig};
ghost use Rattle.intake.specs.Signed.{Says};
ghost use Rattle.intake.specs.SignedGroup.{IsAgreed, IsSaid, SaySame};

use crate::grouping::seconds_to;
use denial_records::Rrsig;
use dname::{Name, Octets};

/// What all signatures of a group say.
#[derive(Drop)]
pub(crate) struct Agreed {
    pub(crate) signer: Name,
    pub(crate) labels: u8,
    pub(crate) original_ttl: u32,
    /// The seconds that the first of them to expire has left.
    pub(crate) left: u32,
}

impl Agreed {
    /// None where there is no signature, one isn't read, or two say something else.
    pub(crate) fn of(signatures: &[Octets], now: u32) -> Option<Agreed>
        ensures { MatchOption result ((agreed : Agreed)
            → ¬ IsAgreed now signatures.now agreed) (IsAgreed now signatures.now) }
    {
        let (first, others) = signatures.split_first()?;
        let mut agreed = Agreed::by(first, now)?;
        for octets in others {
            let other = Agreed::by(octets, now)?;
            if !agreed.says_the_same(&other) {
                return None;
            }
            agreed.left = agreed.left.min(other.left);
        }
        Some(agreed)
    }

    // What one signature says; none where it isn't read.
    fn by(octets: &Octets, now: u32) -> Option<Agreed>
        ensures { MatchOption result ((rrsig : Rrsig)
            → ¬ IsRrsig octets.now rrsig) (IsSaid now octets.now) }
    {
        let Ok(rrsig) = Rrsig::read(octets.as_slice()) else {
            return None;
        };
        Some(Agreed {
            signer: rrsig.signer,
            labels: rrsig.labels,
            original_ttl: rrsig.original_ttl,
            left: seconds_to(rrsig.expiration, now),
        })
    }

    fn says_the_same(&self, other: &Agreed) -> bool
        ensures { IsTrue result ↔ SaySame self.now other.now }
    {
        self.signer == other.signer
            && self.labels == other.labels
            && self.original_ttl == other.original_ttl
    }
}
