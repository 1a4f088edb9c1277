//! The places of a journal, 0 and 1 and so on, as they are dealt out. Each goes to one hand, once.
ghost use Rattle.std.specs.Prelude.{[]};
ghost use Rattle.cache_versions.specs.Hands.{DealtOnce, in_hand};

use atomic_table::{Join, Play, Seat, Split, TableRule};
use std::collections::LinkedList;

/// The places in a hand, which stands for so many hands. No value of it is made.
pub struct InHand {
    pub hands: u32,
    pub places: LinkedList<u32>,
}

/// The rule of the table whose one word is the next place, and whose key is how many hands there
/// are.
pub struct EachOnce;

impl TableRule<(), InHand, u8> for EachOnce {
    ghost holds = { DealtOnce };

    ghost first = { λ hands. in_hand hands [] };
}

/// Who has it is dealt places. It has no bytes.
pub type Hand = Seat<(), InHand>;

/// A place goes to a hand.
pub struct Deal;

impl Play<(), InHand> for Deal {
    ghost use Rattle.cache_versions.specs.Hands.{Deals};

    ghost then = { Deals };
}

/// A hand that stands for none comes.
pub struct Come;

impl Play<(), InHand> for Come {
    ghost use Rattle.cache_versions.specs.Hands.{Comes};

    ghost then = { Comes };
}

/// A hand with no place is cut off.
pub struct One;

impl Split<InHand> for One {
    ghost use Rattle.std.specs.Prelude.{◌-◌, []};
    ghost use Rattle.cache_versions.specs.Hands.{in_hand};

    ghost left = { λ h. in_hand (h.hands - 1) h.places };

    ghost right = { λ _. in_hand 1 [] };
}

/// A hand is taken into another.
pub struct Both;

impl Join<InHand> for Both {
    ghost use Rattle.std.specs.Prelude.{[]};
    ghost use Rattle.cache_versions.specs.Hands.{both_in_hand, in_hand};

    ghost both = { both_in_hand };

    ghost spent = { in_hand 0 [] };
}
