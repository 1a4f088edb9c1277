//! A box that C holds as its pointer.
ghost use Rattle.std.specs.Prelude.{◌≡◌, Some, None};
ghost use Rattle.std.specs.Option.{option_map};
ghost use Rattle.cache_meaning.specs.Held.{Held};
ghost use Rattle.dnsreplay_c.specs.State.{state_at};

use crate::kept::Kept;
use crate::loose::Loose;
use std::alloc::Global;
use std::marker::Model;
use std::mem;
use std::ptr::null_mut;

/// A handle: a snapshot of the cache that C holds as its pointer, or none where it is closed. Letting an open one go loses its
/// memory.
#[repr(C)]
#[derive(Drop)]
pub struct Snapshot {
    at: *mut u8,
    is_open: bool,
    alloc: Global,
    pub ghost held: { Held },
}

impl Model for Snapshot {
    ghost use Rattle.dnsreplay_c.specs.Owns.{snapshot_owns};

    ghost also_owns = { λ s. snapshot_owns s.is_open s.alloc s.at s.held };
}

impl Snapshot {
    /// Takes out what an open one has, and leaves it closed.
    pub(crate) fn take(&mut self, alloc: Global) -> Option<Box<Kept>>
        ensures closed { state_at self.new.is_open self.new.held ≡ None }
        ensures had { option_map (λ kept. kept.value) result
            ≡ state_at self.old.is_open self.old.held }
    {
        match mem::replace(self, Snapshot::none(alloc)).into_loose() {
            Some(loose) => Some(loose.into_box()),
            None => None,
        }
    }

    /// Opens it on this.
    pub(crate) fn put(&mut self, kept: Box<Kept>)
        ensures { state_at self.new.is_open self.new.held ≡ Some kept.value }
    {
        *self = Snapshot::of(Loose::of(kept));
    }

    // An open one.
    fn of(loose: Loose<Kept, Global>) -> Snapshot
        ensures { state_at result.is_open result.held ≡ Some loose.value }
    {
        let Loose { at, alloc } = loose;
        Snapshot {
            at: at.cast::<u8>(),
            is_open: true,
            alloc,
        }
    }

    /// One that is closed.
    pub(crate) fn none(alloc: Global) -> Snapshot
        ensures { state_at result.is_open result.held ≡ None }
    {
        Snapshot {
            at: null_mut(),
            is_open: false,
            alloc,
        }
    }

    // The box of an open one.
    fn into_loose(self) -> Option<Loose<Kept, Global>>
        ensures { option_map (λ loose. loose.value) result ≡ state_at self.is_open self.held }
    {
        let Snapshot { at, is_open, alloc } = self;
        if is_open {
            Some(Loose {
                at: at.cast::<Kept>(),
                alloc,
            })
        } else {
            None
        }
    }
}

unsafe impl Send for Snapshot {}
