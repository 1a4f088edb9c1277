ghost use Rattle.std.specs.Prelude.{◌≡◌, ◌+◌, ◌-◌, ◌≤◌, ◌<◌, ℕ, List, [], ◌∷◌, ◌++◌, length, take, drop};
ghost use Rattle.dname.specs.Name.{lowered};

use std::marker::Model;

/// The octets of the longest wire form (RFC 1035, section 2.3.4).
pub const MAX_WIRE: usize = 255;

/// Octets of a wire form in a fixed store, seen as their list.
#[derive(Debug, Drop)]
pub(crate) struct Wire {
    octets: [u8; MAX_WIRE],
    len: u8,
}

impl Model for Wire {
    ghost use Rattle.std.specs.Prelude.{List, ℕ, take};

    ghost Value = { List ℕ };

    ghost view = { λ w. take w.len w.octets };
}

impl Wire {
    pub(crate) fn empty() -> Wire
        ensures { result ≡ [] }
    {
        Wire {
            octets: [0; MAX_WIRE],
            len: 0,
        }
    }

    pub(crate) fn of(octets: &[u8]) -> Wire
        requires { length octets.now ≤ 255 }
        ensures { result ≡ octets.now }
    {
        let mut wire = Wire::empty();
        wire.append(octets);
        wire
    }

    pub(crate) fn copy(&self) -> Wire
        ensures { result ≡ self.now }
    {
        Wire {
            octets: self.octets,
            len: self.len,
        }
    }

    pub(crate) fn as_slice(&self) -> &[u8]
        ensures octets { result.now ≡ self.now }
        ensures fits { length self.now ≤ 255 }
    {
        &self.octets[..usize::from(self.len)]
    }

    pub(crate) fn push(&mut self, octet: u8)
        requires { length self.old < 255 }
        ensures { self.new ≡ self.old ++ octet ∷ [] }
    {
        self.octets[usize::from(self.len)] = octet;
        self.len += 1;
    }

    pub(crate) fn append(&mut self, octets: &[u8])
        requires { length self.old + length octets.now ≤ 255 }
        ensures { self.new ≡ self.old ++ octets.now }
    {
        let start = usize::from(self.len);
        put(&mut self.octets, start, octets);
        self.len += octets.len() as u8;
    }

    /// Appends the octets with A to Z lowered.
    pub(crate) fn append_lowered(&mut self, octets: &[u8])
        requires { length self.old + length octets.now ≤ 255 }
        ensures { self.new ≡ self.old ++ lowered octets.now }
    {
        let start = usize::from(self.len);
        put(&mut self.octets, start, octets);
        lower_between(&mut self.octets, start, start + octets.len());
        self.len += octets.len() as u8;
    }
}

// Writes the octets over those from `start` on.
fn put(store: &mut [u8; MAX_WIRE], start: usize, octets: &[u8])
    requires { start + length octets.now ≤ 255 }
    ensures { store.new
        ≡ take start store.old ++ octets.now ++ drop (start + length octets.now) store.old }
{
    store[start..start + octets.len()].copy_from_slice(octets);
}

// Lowers A to Z from `start` on and before `end`, by 16 octets at once, and so maybe some after `end`.
fn lower_between(store: &mut [u8; MAX_WIRE], start: usize, end: usize)
    requires order { start ≤ end }
    requires within { end ≤ 255 }
    ensures { take end store.new
        ≡ take start store.old ++ lowered (take (end - start) (drop start store.old)) }
{
    let mut at = start;
    while at < end && at + 16 <= MAX_WIRE {
        for k in 0..16 {
            store[at + k] = store[at + k].to_ascii_lowercase();
        }
        at += 16;
    }
    while at < end {
        store[at] = store[at].to_ascii_lowercase();
        at += 1;
    }
}
