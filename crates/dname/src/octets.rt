ghost use Rattle.std.specs.Prelude.{◌≡◌, ℕ, List, [], ◌++◌, IfOk, OnOk, OnErr};

use std::alloc::{AllocError, Global};
use std::marker::Model;

/// The one fault of a call that takes memory: there is none left.
pub type OutOfMemory = AllocError;

/// Octets of a message, such as a record's data, seen as their list.
#[derive(Debug, Drop)]
pub struct Octets {
    octets: Vec<u8>,
}

impl Model for Octets {
    ghost Value = { List ℕ };

    ghost view = { λ o. o.octets.items };
}

impl Octets {
    /// No octets. The allocator is kept for `append`, and no memory is taken.
    pub fn empty(alloc: Global) -> Octets
        ensures { result ≡ [] }
    {
        Octets {
            octets: Vec::new(alloc),
        }
    }

    /// No octets, with memory for so many.
    pub fn with_room(alloc: Global, room: usize) -> Result<Octets, OutOfMemory>
        ensures { IfOk result (λ octets. octets ≡ []) }
    {
        Ok(Octets {
            octets: Vec::with_capacity(alloc, room)?,
        })
    }

    /// A copy of the piece.
    pub fn of(alloc: Global, piece: &[u8]) -> Result<Octets, OutOfMemory>
        ensures { IfOk result (λ octets. octets ≡ piece.now) }
    {
        Ok(Octets {
            octets: Vec::from_slice(alloc, piece)?,
        })
    }

    /// Equal octets.
    pub fn copy(&self, alloc: Global) -> Result<Octets, OutOfMemory>
        ensures { IfOk result (λ octets. octets ≡ self.now) }
    {
        Octets::of(alloc, self.as_slice())
    }

    /// Puts the piece last.
    pub fn append(&mut self, piece: &[u8]) -> Result<(), OutOfMemory>
        ensures ok { OnOk result (self.new ≡ self.old ++ piece.now) }
        ensures refused { OnErr result (self.new ≡ self.old) }
    {
        self.octets.extend_from_slice(piece)
    }

    pub fn as_slice(&self) -> &[u8]
        ensures { result.now ≡ self.now }
    {
        self.octets.as_slice()
    }
}
