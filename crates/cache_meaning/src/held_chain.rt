ghost use Rattle.std.specs.Prelude.{◌≡◌, IfOk, Some, None, MatchOption};
ghost use Rattle.cache_meaning.specs.Held.{chain_of, is_of_chain, same_zone_chain, same_chain};
ghost use Rattle.cache_meaning.specs.Lent.{lent_chain};
ghost use Rattle.cache_meaning.specs.Views.{chain_of_kind};

use crate::Chain;
use denial_records::Record;
use dname::{Name, Octets, OutOfMemory};
use std::alloc::Global;
use std::marker::Model;

/// A chain of a zone of which a record is held.
#[derive(Drop)]
pub(crate) struct HeldChain {
    zone: Name,
    kind: ChainKind,
}

#[derive(Drop)]
enum ChainKind {
    Nsec,
    Nsec3 { salt: Octets, iterations: u16 },
}

impl Model for HeldChain {
    ghost use Rattle.cache_meaning.specs.Held.{ZoneChain};
    ghost use Rattle.cache_meaning.specs.Views.{chain_of_kind};

    ghost Value = { ZoneChain };

    ghost view = { λ c. record { zone = c.zone; chain = chain_of_kind c.kind } };
}

impl HeldChain {
    /// The chain that the record is of; none where it is a set.
    pub(crate) fn of(alloc: Global, item: &Record) -> Result<Option<HeldChain>, OutOfMemory>
        ensures { IfOk result (λ chain. chain ≡ chain_of item.now) }
    {
        match item {
            Record::Set(_) => Ok(None),
            Record::Nsec(nsec) => Ok(Some(HeldChain {
                zone: nsec.zone().name(),
                kind: ChainKind::Nsec,
            })),
            Record::Nsec3(nsec3) => Ok(Some(HeldChain {
                zone: nsec3.zone().name(),
                kind: ChainKind::Nsec3 {
                    salt: Octets::of(alloc, nsec3.salt())?,
                    iterations: nsec3.iterations(),
                },
            })),
        }
    }

    /// An equal one.
    pub(crate) fn copy(&self, alloc: Global) -> Result<HeldChain, OutOfMemory>
        ensures { IfOk result (λ copy. copy ≡ self.now) }
    {
        let kind = match &self.kind {
            ChainKind::Nsec => ChainKind::Nsec,
            ChainKind::Nsec3 { salt, iterations } => ChainKind::Nsec3 {
                salt: salt.copy(alloc)?,
                iterations: *iterations,
            },
        };
        Ok(HeldChain {
            zone: self.zone.copy(),
            kind,
        })
    }

    pub(crate) fn zone(&self) -> &Name
        ensures { result.now ≡ self.now.zone }
    {
        &self.zone
    }

    pub(crate) fn chain(&self) -> Chain<'_>
        ensures { lent_chain result ≡ Some self.now.chain }
    {
        match &self.kind {
            ChainKind::Nsec => Chain::Nsec,
            ChainKind::Nsec3 { salt, iterations } => Chain::Nsec3 {
                salt: salt.as_slice(),
                iterations: *iterations,
            },
        }
    }

    /// Whether the two are one chain of one zone.
    pub(crate) fn is_same(&self, other: &HeldChain) -> bool
        ensures { result ≡ same_zone_chain self.now other.now }
    {
        self.zone == other.zone && is_same_kind(&self.kind, &other.kind)
    }

    /// Whether the record is of the chain.
    pub(crate) fn has(&self, item: &Record) -> bool
        ensures { result ≡ is_of_chain self.now item.now }
    {
        match (&self.kind, item) {
            (ChainKind::Nsec, Record::Nsec(nsec)) => self.zone.lent() == nsec.zone(),
            (ChainKind::Nsec3 { salt, iterations }, Record::Nsec3(nsec3)) => {
                self.zone.lent() == nsec3.zone()
                    && (salt.as_slice() == nsec3.salt() && *iterations == nsec3.iterations())
            }
            _ => false,
        }
    }
}

fn is_same_kind(one: &ChainKind, other: &ChainKind) -> bool
    ensures { result ≡ same_chain (chain_of_kind one.now) (chain_of_kind other.now) }
{
    match (one, other) {
        (ChainKind::Nsec, ChainKind::Nsec) => true,
        (
            ChainKind::Nsec3 { salt, iterations },
            ChainKind::Nsec3 {
                salt: other_salt,
                iterations: other_iterations,
            },
        ) => salt.as_slice() == other_salt.as_slice() && iterations == other_iterations,
        _ => false,
    }
}
