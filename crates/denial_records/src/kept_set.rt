ghost use Rattle.std.specs.Prelude.{◌≡◌, IfOk};

use crate::SetRec;
use crate::kept_strings::KeptStrings;
use crate::pieces::{pack_of, push_all};
use dname::{LentName, OutOfMemory, Pack, Packed};
use std::alloc::Global;
use std::marker::Model;

/// An RRset as it is kept, its octets in one store. Seen as the `SetRec` that it was made of.
#[derive(Debug, Drop)]
pub struct KeptSet {
    expiry: u64,
    life: u32,
    rtype: u16,
    strings: KeptStrings<3>,
}

impl Model for KeptSet {
    ghost use Rattle.denial_records.specs.declared.set_rec.SetRec.{SetRec};

    ghost Value = { SetRec };

    ghost use Rattle.denial_records.specs.Kept.{set_in, HoldsSet};

    ghost view = { λ k. set_in k.strings k.rtype k.life k.expiry };

    ghost invariant = { λ k. HoldsSet k.strings };
}

impl KeptSet {
    /// The record, in octets of its own.
    pub fn of(alloc: Global, set: &SetRec) -> Result<KeptSet, OutOfMemory>
        ensures { IfOk result (λ kept. kept ≡ set.now) }
    {
        let items = pack_of(alloc, &set.items)?;
        let mut pack = Pack::empty(alloc);
        pack.push(set.zone.wire())?;
        pack.push(set.owner.wire())?;
        pack.push(items.octets())?;
        push_all(&mut pack, &set.signatures)?;
        Ok(KeptSet {
            expiry: set.expiry,
            life: set.life,
            rtype: set.rtype,
            strings: KeptStrings::of(pack),
        })
    }

    /// An equal record.
    pub fn copy(&self, alloc: Global) -> Result<KeptSet, OutOfMemory>
        ensures { IfOk result (λ copy. copy ≡ self.now) }
    {
        Ok(KeptSet {
            expiry: self.expiry,
            life: self.life,
            rtype: self.rtype,
            strings: self.strings.copy(alloc)?,
        })
    }

    /// The apex of the zone that signed it.
    pub fn zone(&self) -> LentName<'_>
        ensures { result ≡ self.now.zone }
    {
        self.strings.name(0)
    }

    /// The owner name.
    pub fn owner(&self) -> LentName<'_>
        ensures { result ≡ self.now.owner }
    {
        self.strings.name(1)
    }

    /// Its type.
    pub fn rtype(&self) -> u16
        ensures { result ≡ self.now.rtype }
    {
        self.rtype
    }

    /// The TTL that it may have at most, in seconds.
    pub fn life(&self) -> u32
        ensures { result ≡ self.now.life }
    {
        self.life
    }

    /// The moment from which it may not be used, in seconds.
    pub fn expiry(&self) -> u64
        ensures { result ≡ self.now.expiry }
    {
        self.expiry
    }

    /// The data of each record.
    pub fn items(&self) -> Packed<'_>
        ensures { result ≡ self.now.items }
    {
        Packed::of(self.strings.get(2))
    }

    /// The data of each RRSIG record.
    pub fn signatures(&self) -> Packed<'_>
        ensures { result ≡ self.now.signatures }
    {
        self.strings.behind(3)
    }
}
