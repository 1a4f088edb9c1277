//! How places are dealt out.
ghost use Rattle.std.specs.Prelude.{◌≡◌, ◌-◌, ◌<◌, ◌^◌, [], IfOk, IsFalse, IsTrue};
ghost use Rattle.cache_versions.specs.Hands.{AreAllBelow, both_in_hand, with_place};
ghost use Rattle.cache_versions.specs.Dealers.{HasPlaces, IsHandOf, IsSameHand, hands_of};

use super::Dealer;
use crate::hand::{Both, Come, Deal, Hand, One};
use atomic_table::Table;
use std::alloc::{AllocError, Global};

impl Dealer {
    /// No place is dealt out. The hand stands for all hands.
    pub fn new(alloc: Global, hands: u8) -> Result<(Dealer, Hand), AllocError>
        ensures hands { IfOk result (λ t. hands_of t.0 ≡ hands) }
        ensures hand { IfOk result (λ t. IsHandOf t.0 t.1 × HasPlaces hands [] t.1) }
    {
        let (table, hand) = Table::of_words(alloc, [0].as_slice(), &hands)?;
        Ok((Dealer { table }, hand))
    }

    /// Cuts one hand off, with no place.
    pub fn cut(&self, hand: &mut Hand) -> Hand
        requires dealer { IsHandOf self.now hand.old }
        requires some { 0 < hand.old.me.0.hands }
        requires none_dealt { HasPlaces hand.old.me.0.hands [] hand.old }
        ensures dealer { IsSameHand hand.old hand.new × IsHandOf self.now result }
        ensures rest { HasPlaces (hand.old.me.0.hands - 1) [] hand.new }
        ensures one { HasPlaces 1 [] result }
    {
        self.table.shared.split_seat::<One>(hand)
    }

    /// Gives the place to the hand, if it is the next one.
    pub fn deal(&self, hand: &mut Hand, place: u64) -> bool
        requires few { place < 2 ^ 62 }
        requires dealer { IsHandOf self.now hand.old }
        requires some { 0 < hand.old.me.0.hands }
        ensures dealer { IsSameHand hand.old hand.new }
        ensures dealt { IsTrue result → hand.new.me ≡ with_place hand.old.me place }
        ensures not { IsFalse result → hand.new.me ≡ hand.old.me }
    {
        self.table
            .shared
            .compare_exchange::<Deal>(hand, 0, place, place + 1)
            == place
    }

    /// A hand that stands for none.
    pub fn empty_hand(&self) -> Hand
        ensures { IsHandOf self.now result × HasPlaces 0 [] result }
    {
        self.table.shared.load_new_seat::<Come>(0).1
    }

    /// Takes a hand into another, with its places.
    pub fn join(&self, all: &mut Hand, hand: Hand)
        requires all { IsHandOf self.now all.old }
        requires hand { IsHandOf self.now hand × (hand.me.1 ≡ []) }
        ensures dealer { IsSameHand all.old all.new }
        ensures both { all.new.me ≡ (both_in_hand all.old.me.0 hand.me.0, all.old.me.1) }
    {
        self.table.shared.join_seat::<Both>(all, hand)
    }

    /// How many places were dealt out.
    pub fn close(self, all: Hand) -> u64
        requires dealer { IsHandOf self all }
        requires all { all.me.0.hands ≡ hands_of self }
        ensures { AreAllBelow result all.me.0.places }
    {
        let Dealer { table } = self;
        let closed = table.close_with(all);
        let next = closed.word(0);
        closed.free();
        next
    }
}
