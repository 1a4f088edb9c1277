ghost use Rattle.std.specs.Prelude.{◌≡◌, ◌+◌, ◌≤◌, ◌<◌, ◌^◌, [], ◌++◌, length, IfOk, OnOk, OnErr};

use crate::OutOfMemory;
use std::alloc::Global;
use std::marker::Model;

/// How many octets lie in the value itself.
const ROOM: usize = 200;

/// Octets, seen as their list. A few lie in the value itself, more in one block of memory.
#[derive(Debug, Drop)]
pub(crate) struct StoredOctets {
    store: ShortOrLong,
    alloc: Global,
}

#[derive(Debug, Drop)]
pub(crate) enum ShortOrLong {
    Short(Short),
    Long(Vec<u8>),
}

/// At most `ROOM` octets, seen as their list. Their count lies beside the first of them.
#[derive(Debug, Drop)]
pub(crate) struct Short {
    len: u8,
    octets: [u8; ROOM],
}

impl Model for Short {
    ghost use Rattle.std.specs.Prelude.{List, ℕ, ◌≤◌, take};

    ghost Value = { List ℕ };

    ghost view = { λ s. take s.len s.octets };

    ghost invariant = { λ s. s.len ≤ 200 };
}

impl Short {
    fn empty() -> Short
        ensures { result ≡ [] }
    {
        Short {
            len: 0,
            octets: [0; ROOM],
        }
    }

    fn copy(&self) -> Short
        ensures { result ≡ self.now }
    {
        Short {
            len: self.len,
            octets: self.octets,
        }
    }

    fn as_slice(&self) -> &[u8]
        ensures octets { result.now ≡ self.now }
        ensures fits { length self.now ≤ 200 }
    {
        &self.octets[..usize::from(self.len)]
    }

    fn append(&mut self, octets: &[u8])
        requires { length self.old + length octets.now ≤ 200 }
        ensures { self.new ≡ self.old ++ octets.now }
    {
        let start = usize::from(self.len);
        self.octets[start..start + octets.len()].copy_from_slice(octets);
        self.len += octets.len() as u8;
    }
}

impl Model for StoredOctets {
    ghost use Rattle.std.specs.Prelude.{List, ℕ};
    ghost use Rattle.dname.specs.ShortOrLong.{octets_in};

    ghost Value = { List ℕ };

    ghost view = { λ s. octets_in s.store };
}

impl StoredOctets {
    /// No octets. The allocator is kept for `append`, and no memory is taken.
    pub(crate) fn empty(alloc: Global) -> StoredOctets
        ensures { result ≡ [] }
    {
        StoredOctets {
            store: ShortOrLong::Short(Short::empty()),
            alloc,
        }
    }

    /// Equal octets.
    pub(crate) fn copy(&self, alloc: Global) -> Result<StoredOctets, OutOfMemory>
        ensures { IfOk result (λ copy. copy ≡ self.now) }
    {
        match &self.store {
            ShortOrLong::Short(short) => Ok(StoredOctets {
                store: ShortOrLong::Short(short.copy()),
                alloc,
            }),
            ShortOrLong::Long(long) => Ok(StoredOctets {
                store: ShortOrLong::Long(Vec::from_slice(alloc, long.as_slice())?),
                alloc,
            }),
        }
    }

    pub(crate) fn as_slice(&self) -> &[u8]
        ensures { result.now ≡ self.now }
    {
        match &self.store {
            ShortOrLong::Short(short) => short.as_slice(),
            ShortOrLong::Long(long) => long.as_slice(),
        }
    }

    /// Puts both last, or neither.
    pub(crate) fn append(&mut self, head: &[u8], piece: &[u8]) -> Result<(), OutOfMemory>
        requires head { length head.now ≤ 9 }
        requires piece { length piece.now < 2 ^ 63 }
        ensures ok { OnOk result (self.new ≡ self.old ++ (head.now ++ piece.now)) }
        ensures refused { OnErr result (self.new ≡ self.old) }
    {
        match &mut self.store {
            ShortOrLong::Long(long) => extend(long, head, piece),
            ShortOrLong::Short(short) => {
                let kept = short.as_slice();
                if kept.len() + head.len() + piece.len() <= ROOM {
                    short.append(head);
                    short.append(piece);
                    return Ok(());
                }
                let long = joined(self.alloc, kept, head, piece)?;
                self.store = ShortOrLong::Long(long);
                Ok(())
            }
        }
    }
}

// Puts both last, or neither.
fn extend(long: &mut Vec<u8>, head: &[u8], piece: &[u8]) -> Result<(), OutOfMemory>
    requires head { length head.now ≤ 9 }
    requires piece { length piece.now < 2 ^ 63 }
    ensures ok { OnOk result (long.new.items ≡ long.old.items ++ (head.now ++ piece.now)) }
    ensures refused { OnErr result (long.new.items ≡ long.old.items) }
{
    long.reserve(head.len() + piece.len())?;
    long.extend_from_slice(head)?;
    long.extend_from_slice(piece)
}

// The three one behind another, with room for no more.
fn joined(alloc: Global, kept: &[u8], head: &[u8], piece: &[u8]) -> Result<Vec<u8>, OutOfMemory>
    requires kept { length kept.now ≤ 200 }
    requires head { length head.now ≤ 9 }
    requires piece { length piece.now < 2 ^ 63 }
    ensures { IfOk result (λ long. long.items ≡ kept.now ++ (head.now ++ piece.now)) }
{
    let mut long = Vec::with_capacity(alloc, kept.len() + head.len() + piece.len())?;
    long.extend_from_slice(kept)?;
    long.extend_from_slice(head)?;
    long.extend_from_slice(piece)?;
    Ok(long)
}
