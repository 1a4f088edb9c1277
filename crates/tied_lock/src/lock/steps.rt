//! What is done with a lock.
ghost use Rattle.std.specs.Prelude.{◌≡◌, [], ◌∷◌, MatchResult, IfOk, None};
ghost use Rattle.tied_lock.specs.Locked.{IsLeaseOf, key_of};

use super::{Lease, TiedLock};
use crate::rule::{AtHome, Give, Grab, Sit, Tie};
use atomic_table::{Refused, Seat, Shared, Table};
use std::alloc::Global;
use std::sync::{Mutex, Wait};

impl<T, K, F: Tie<K, T>> TiedLock<T, K, F> {
    /// A lock with the value. It comes back where there is no memory.
    pub fn new(alloc: Global, value: T, key: &K) -> Result<TiedLock<T, K, F>, T>
        requires { F.ties key.now value }
        ensures { MatchResult result (λ l. key_of l ≡ key.now) (λ x. x ≡ value) }
    {
        let mut slots = Vec::new(alloc);
        if let Err(failed) = slots.push(Some(value)) {
            slots.destroy_empty();
            return Err(failed.value.unwrap());
        }
        match Table::new(alloc, [0].as_slice(), slots, key) {
            Ok((table, _seat)) => Ok(TiedLock {
                turn: Mutex::new(()),
                table,
            }),
            Err(Refused { mut slots }) => {
                let value = slots.pop().unwrap().unwrap();
                slots.destroy_empty();
                Err(value)
            }
        }
    }

    /// Takes the value, which nobody else has until it is given back.
    pub fn take<R: Wait>(&self, rt: &R) -> (Lease<'_, T, K>, T)
        ensures lease { IsLeaseOf self.now result.0 }
        ensures tied { F.ties (key_of self.now) result.1 }
    {
        let turn = self.turn.lock(rt);
        let (seat, value) = grab(rt, &self.table.shared);
        (Lease { turn, seat }, value)
    }

    /// Gives back the value that was taken, or another.
    pub fn give(&self, lease: Lease<'_, T, K>, value: T)
        requires lease { IsLeaseOf self.now lease }
        requires tied { F.ties (key_of self.now) value }
    {
        let Lease { turn, mut seat } = lease;
        let before = self.table.shared.exchange(&mut seat, 0, Some(value));
        let None = before else { unreachable!() };
        self.table.shared.store::<Give>(&mut seat, 0, 0);
        drop(turn);
    }

    /// Ends the lock. An `Err` has what is in the value's place where it was not given back, which no
    /// run shows.
    pub fn into_value(self) -> Result<T, Option<T>>
        ensures { IfOk result (F.ties (key_of self)) }
    {
        let TiedLock { turn: _, table } = self;
        let mut closed = table.close();
        let free = closed.word(0) == 0;
        let slot = closed.take(0);
        closed.free();
        if free { Ok(slot.unwrap()) } else { Err(slot) }
    }
}

// Waits for the value, and takes it.
fn grab<T, K, F: Tie<K, T>, R: Wait>(
    rt: &R,
    shared: &Shared<Option<T>, K, K, AtHome<F>>,
) -> (Seat<Option<T>, K>, T)
    requires { (shared.now.table_id.words ≡ 1) × (shared.now.table_id.slots ≡ 1) }
    ensures table { result.0.table_id ≡ shared.now.table_id }
    ensures out { result.0.me.1 ≡ (0, None) ∷ [] }
    ensures tied { F.ties shared.now.key result.1 }
{
    let mut seat = shared.load_new_seat::<Sit>(0).1;
    for _ in rt.forever() {
        if shared.compare_exchange::<Grab<F>>(&mut seat, 0, 0, 1) == 0 {
            let value = shared.exchange(&mut seat, 0, None).unwrap();
            return (seat, value);
        }
    }
    unreachable!()
}
