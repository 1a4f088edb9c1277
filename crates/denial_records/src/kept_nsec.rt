ghost use Rattle.std.specs.Prelude.{◌≡◌, IfOk};

use crate::kept_strings::KeptStrings;
use crate::pieces::push_all;
use crate::{LentTypes, NsecRec};
use dname::{LentName, OutOfMemory, Pack, Packed};
use std::alloc::Global;
use std::marker::Model;

/// An NSEC record as it is kept, its octets in one store. Seen as the `NsecRec` that it was made of.
#[derive(Debug, Drop)]
pub struct KeptNsec {
    expiry: u64,
    life: u32,
    strings: KeptStrings<5>,
}

impl Model for KeptNsec {
    ghost use Rattle.denial_records.specs.declared.nsec_rec.NsecRec.{NsecRec};

    ghost Value = { NsecRec };

    ghost use Rattle.denial_records.specs.Kept.{nsec_in, HoldsNsec};

    ghost view = { λ k. nsec_in k.strings k.life k.expiry };

    ghost invariant = { λ k. HoldsNsec k.strings };
}

impl KeptNsec {
    /// The record, in octets of its own.
    pub fn of(alloc: Global, nsec: &NsecRec) -> Result<KeptNsec, OutOfMemory>
        ensures { IfOk result (λ kept. kept ≡ nsec.now) }
    {
        let mut pack = Pack::empty(alloc);
        pack.push(nsec.zone.wire())?;
        pack.push(nsec.owner.wire())?;
        pack.push(nsec.next.wire())?;
        pack.push(nsec.types.octets())?;
        pack.push(nsec.image.as_slice())?;
        push_all(&mut pack, &nsec.signatures)?;
        Ok(KeptNsec {
            expiry: nsec.expiry,
            life: nsec.life,
            strings: KeptStrings::of(pack),
        })
    }

    /// An equal record.
    pub fn copy(&self, alloc: Global) -> Result<KeptNsec, OutOfMemory>
        ensures { IfOk result (λ copy. copy ≡ self.now) }
    {
        Ok(KeptNsec {
            expiry: self.expiry,
            life: self.life,
            strings: self.strings.copy(alloc)?,
        })
    }

    /// The apex of the zone that signed it.
    pub fn zone(&self) -> LentName<'_>
        ensures { result ≡ self.now.zone }
    {
        self.strings.name(0)
    }

    /// The owner name.
    pub fn owner(&self) -> LentName<'_>
        ensures { result ≡ self.now.owner }
    {
        self.strings.name(1)
    }

    /// The next owner name in canonical order.
    pub fn next(&self) -> LentName<'_>
        ensures { result ≡ self.now.next }
    {
        self.strings.name(2)
    }

    /// The types that there are at the owner name.
    pub fn types(&self) -> LentTypes<'_>
        ensures { result ≡ self.now.types }
    {
        self.strings.types(3)
    }

    /// The TTL that it may have at most, in seconds.
    pub fn life(&self) -> u32
        ensures { result ≡ self.now.life }
    {
        self.life
    }

    /// The moment from which it may not be used, in seconds.
    pub fn expiry(&self) -> u64
        ensures { result ≡ self.now.expiry }
    {
        self.expiry
    }

    /// The record's data as it came.
    pub fn image(&self) -> &[u8]
        ensures { result.now ≡ self.now.image }
    {
        self.strings.get(4)
    }

    /// The data of each RRSIG record.
    pub fn signatures(&self) -> Packed<'_>
        ensures { result ≡ self.now.signatures }
    {
        self.strings.behind(5)
    }
}
