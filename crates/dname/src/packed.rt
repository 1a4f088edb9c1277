ghost use Rattle.std.specs.Prelude.{◌≡◌, ◌≢◌, ◌≤◌, ◌<◌, [], ◌∷◌, length, drop, slice_get, Some, MatchOption, IsTrue, ◌↔◌};
ghost use Rattle.dname.specs.Pack.{pieces_of, head_size, size_at, IsPacked, BeginsWithPiece};

use crate::pieces::word_at;
use crate::slices::octets_from;
use std::marker::Model;

/// Strings of octets that lie one behind another, lent, and seen as their list.
#[derive(Debug, Drop)]
pub struct Packed<'a> {
    octets: &'a [u8],
}

impl<'a> Model for Packed<'a> {
    ghost use Rattle.std.specs.Prelude.{List, ℕ};
    ghost use Rattle.dname.specs.Pack.{pieces_of, IsPacked};

    ghost Value = { List (List ℕ) };

    ghost view = { λ p. pieces_of p.octets.now };

    ghost invariant = { λ p. IsPacked p.octets.now };
}

impl<'a> Packed<'a> {
    /// The strings that the octets are.
    pub fn of(octets: &'a [u8]) -> Packed<'a>
        requires { IsPacked octets.now }
        ensures { result ≡ pieces_of octets.now }
    {
        Packed { octets }
    }

    /// The same strings, lent again.
    pub fn again(&self) -> Packed<'a>
        ensures { result ≡ self.now }
    {
        Packed {
            octets: self.octets,
        }
    }

    pub fn is_empty(&self) -> bool
        ensures { IsTrue result ↔ (self.now ≡ []) }
    {
        self.octets.is_empty()
    }

    /// Takes the first string off.
    pub fn next(&mut self) -> Option<&'a [u8]>
        ensures first { MatchOption result (self.old ≡ [])
            (λ piece. self.old ≡ piece.now ∷ self.new) }
        ensures rest { self.new ≡ drop 1 self.old }
    {
        if self.is_empty() {
            return None;
        }
        Some(self.take_first())
    }

    /// The string at place `i`, counted from 0.
    pub fn get(&self, i: usize) -> &'a [u8]
        requires { i < length self.now }
        ensures { slice_get self.now i ≡ Some result.now }
    {
        let mut rest = self.behind(i);
        rest.take_first()
    }

    /// The strings behind the first `count`.
    pub fn behind(&self, count: usize) -> Packed<'a>
        ensures { result ≡ drop count self.now }
    {
        let mut rest = self.again();
        for _ in 0..count {
            rest.next();
        }
        rest
    }

    /// How many there are. It goes over all of them.
    pub fn count(&self) -> usize
        ensures { result ≡ length self.now }
    {
        let _ = &self.octets;
        let mut rest = self.again();
        let mut count = 0;
        while !rest.is_empty() {
            rest.take_first();
            count += 1;
        }
        count
    }

    // Takes the first string off, where there is one.
    fn take_first(&mut self) -> &'a [u8]
        requires { self.old ≢ [] }
        ensures { self.old ≡ result.now ∷ self.new }
    {
        let (piece, rest) = split_piece(self.octets);
        self.octets = rest;
        piece
    }
}

// The string at the front, and what follows it.
fn split_piece(octets: &[u8]) -> (&[u8], &[u8])
    requires packed { IsPacked octets.now }
    requires some { pieces_of octets.now ≢ [] }
    ensures { BeginsWithPiece octets.now result.0.now result.1.now }
{
    let (size, rest) = split_head(octets);
    rest.split_at(size)
}

// The length at the front, and what follows it.
fn split_head(octets: &[u8]) -> (usize, &[u8])
    requires some { 1 ≤ length octets.now }
    requires head { head_size octets.now ≤ length octets.now }
    ensures size { result.0 ≡ size_at octets.now }
    ensures rest { result.1.now ≡ drop (head_size octets.now) octets.now }
{
    if octets[0] == 0xFF {
        return (word_at(octets, 1) as usize, octets_from(octets, 9));
    }
    let high = usize::from(octets[0]) * 256 + usize::from(octets[1]);
    (high * 256 + usize::from(octets[2]), octets_from(octets, 3))
}
