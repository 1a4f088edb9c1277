ghost use Rattle.std.specs.Prelude.{◌≡◌, OnOk};
ghost use Rattle.intake.specs.Signed.{counted_ttl};
ghost use Rattle.intake.specs.Pile.{has_key, key_of_pile, joined, with_signature};

use crate::key::{Key, LentKey};
use dname::{BoxedName, Octets, OctetsList, OutOfMemory};

/// The records of a group as they are collected, equal data as often as it comes.
#[derive(Drop)]
pub(crate) struct Pile {
    pub(crate) owner: BoxedName,
    pub(crate) class: u16,
    pub(crate) rtype: u16,
    /// The least TTL, in seconds.
    pub(crate) ttl: u32,
    pub(crate) items: OctetsList,
    pub(crate) signatures: OctetsList,
}

impl Pile {
    /// Whether its records have that key. The type, which differs most, is looked at first.
    pub(crate) fn has(&self, key: &LentKey<'_>) -> bool
        ensures { result ≡ has_key key.now self.now }
    {
        if key.rtype != self.rtype {
            return false;
        }
        if key.class != self.class {
            return false;
        }
        *key.owner == *self.owner.name()
    }

    /// The key of its records.
    pub(crate) fn key(&self) -> Key
        ensures { result ≡ key_of_pile self.now }
    {
        Key {
            owner: self.owner.name().copy(),
            class: self.class,
            rtype: self.rtype,
        }
    }

    /// Takes in the TTL and data of a further record.
    pub(crate) fn join(&mut self, ttl: u32, octets: Octets) -> Result<(), OutOfMemory>
        ensures { OnOk result (self.new ≡ joined self.old ttl octets) }
    {
        self.ttl = self.ttl.min(counted_ttl(ttl));
        self.items.push(octets)
    }

    /// Takes in the data of a further signature.
    pub(crate) fn sign(&mut self, octets: Octets) -> Result<(), OutOfMemory>
        ensures { OnOk result (self.new ≡ with_signature self.old octets) }
    {
        self.signatures.push(octets)
    }
}

/// A TTL with its top bit set counts as 0 (RFC 2181, section 8).
pub(crate) fn counted_ttl(ttl: u32) -> u32
    ensures { result ≡ counted_ttl ttl }
{
    if ttl < 1 << 31 { ttl } else { 0 }
}
