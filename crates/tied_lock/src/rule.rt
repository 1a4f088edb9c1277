//! The rule of the table, and what each step tells.
ghost use Rattle.tied_lock.specs.Rule.{AtHomeWhileFree, grabbed, sat};

use atomic_table::{Play, TableRule};
use std::marker::PhantomData;

/// The fact that ties the value to the key.
pub trait Tie<K, T> {
    ghost ties: { K → T → Type 0 };
}

/// While the word is 0 the value is in the slot, tied to the key.
pub struct AtHome<F> {
    tie: PhantomData<F>,
}

impl<K, T, F: Tie<K, T>> TableRule<Option<T>, K, K> for AtHome<F> {
    ghost holds = { λ key. AtHomeWhileFree (F.ties key) key };

    ghost first = { λ key. key };
}

/// A thread comes to the table.
pub struct Sit;

impl<S, K> Play<S, K> for Sit {
    ghost then = { sat };
}

/// The value is taken, or another thread has it.
pub struct Grab<F> {
    tie: PhantomData<F>,
}

impl<K, T, F: Tie<K, T>> Play<Option<T>, K> for Grab<F> {
    ghost then = { grabbed F.ties };
}

/// The value is given back.
pub struct Give;

impl<S, K> Play<S, K> for Give {
    ghost then = { λ _ _ _ _. Unit {0} };
}
