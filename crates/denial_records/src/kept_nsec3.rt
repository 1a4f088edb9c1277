ghost use Rattle.std.specs.Prelude.{◌≡◌, IfOk};

use crate::kept_strings::KeptStrings;
use crate::pieces::push_all;
use crate::{HASH_OCTETS, LentTypes, Nsec3Rec};
use dname::{LentName, OutOfMemory, Pack, Packed};
use std::alloc::Global;
use std::marker::Model;

/// An NSEC3 record as it is kept, its octets in one store. Seen as the `Nsec3Rec` that it was made of.
#[derive(Debug, Drop)]
pub struct KeptNsec3 {
    expiry: u64,
    life: u32,
    iterations: u16,
    opt_out: bool,
    hash: [u8; HASH_OCTETS],
    next: [u8; HASH_OCTETS],
    strings: KeptStrings<4>,
}

impl Model for KeptNsec3 {
    ghost use Rattle.denial_records.specs.declared.nsec3_rec.Nsec3Rec.{Nsec3Rec};

    ghost Value = { Nsec3Rec };

    ghost use Rattle.denial_records.specs.Kept.{nsec3_in, HoldsNsec3};

    ghost view = { λ k. nsec3_in k.strings k.hash k.next k.iterations k.opt_out k.life k.expiry };

    ghost invariant = { λ k. HoldsNsec3 k.strings };
}

impl KeptNsec3 {
    /// The record, in octets of its own.
    pub fn of(alloc: Global, nsec3: &Nsec3Rec) -> Result<KeptNsec3, OutOfMemory>
        ensures { IfOk result (λ kept. kept ≡ nsec3.now) }
    {
        let mut pack = Pack::empty(alloc);
        pack.push(nsec3.zone.wire())?;
        pack.push(nsec3.salt.as_slice())?;
        pack.push(nsec3.types.octets())?;
        pack.push(nsec3.image.as_slice())?;
        push_all(&mut pack, &nsec3.signatures)?;
        Ok(KeptNsec3 {
            expiry: nsec3.expiry,
            life: nsec3.life,
            iterations: nsec3.iterations,
            opt_out: nsec3.opt_out,
            hash: nsec3.hash,
            next: nsec3.next,
            strings: KeptStrings::of(pack),
        })
    }

    /// An equal record.
    pub fn copy(&self, alloc: Global) -> Result<KeptNsec3, OutOfMemory>
        ensures { IfOk result (λ copy. copy ≡ self.now) }
    {
        Ok(KeptNsec3 {
            expiry: self.expiry,
            life: self.life,
            iterations: self.iterations,
            opt_out: self.opt_out,
            hash: self.hash,
            next: self.next,
            strings: self.strings.copy(alloc)?,
        })
    }

    /// The apex of the zone that signed it.
    pub fn zone(&self) -> LentName<'_>
        ensures { result ≡ self.now.zone }
    {
        self.strings.name(0)
    }

    /// The owner's hashed name.
    pub fn hash(&self) -> &[u8; HASH_OCTETS]
        ensures { result.now ≡ self.now.hash }
    {
        &self.hash
    }

    /// The next hashed owner name of the zone.
    pub fn next(&self) -> &[u8; HASH_OCTETS]
        ensures { result.now ≡ self.now.next }
    {
        &self.next
    }

    /// The salt of its chain.
    pub fn salt(&self) -> &[u8]
        ensures { result.now ≡ self.now.salt }
    {
        self.strings.get(1)
    }

    /// How often the hash is taken again, the first time not counted.
    pub fn iterations(&self) -> u16
        ensures { result ≡ self.now.iterations }
    {
        self.iterations
    }

    /// Whether the Opt-Out flag is set (RFC 5155, section 3.1.2.1).
    pub fn opt_out(&self) -> bool
        ensures { result ≡ self.now.opt_out }
    {
        self.opt_out
    }

    /// The types that there are at the name whose hash is the owner's.
    pub fn types(&self) -> LentTypes<'_>
        ensures { result ≡ self.now.types }
    {
        self.strings.types(2)
    }

    /// The TTL that it may have at most, in seconds.
    pub fn life(&self) -> u32
        ensures { result ≡ self.now.life }
    {
        self.life
    }

    /// The moment from which it may not be used, in seconds.
    pub fn expiry(&self) -> u64
        ensures { result ≡ self.now.expiry }
    {
        self.expiry
    }

    /// The record's data as it came.
    pub fn image(&self) -> &[u8]
        ensures { result.now ≡ self.now.image }
    {
        self.strings.get(3)
    }

    /// The data of each RRSIG record.
    pub fn signatures(&self) -> Packed<'_>
        ensures { result ≡ self.now.signatures }
    {
        self.strings.behind(4)
    }
}
