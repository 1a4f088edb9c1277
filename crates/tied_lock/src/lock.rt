//! The lock, and the right to give its value back.
ghost use Rattle.std.specs.Prelude.{◌≡◌, [], ◌∷◌, None};

use crate::rule::{AtHome, Tie};
use atomic_table::{Seat, Table};
use std::alloc::Global;
use std::sync::{Mutex, MutexGuard};

mod steps;

/// One value, which one thread has at a time. Where the value is not `Drop`, end the lock by
/// `into_value`.
pub struct TiedLock<T, K, F: Tie<K, T>> {
    turn: Mutex<()>,
    table: Table<Option<T>, K, K, AtHome<F>, Global>,
    ghost sized: { (table.shared.table_id.words ≡ 1) × (table.shared.table_id.slots ≡ 1) },
}

/// The right to give the value back, which has to be used.
pub struct Lease<'a, T, K> {
    turn: MutexGuard<'a, ()>,
    seat: Seat<Option<T>, K>,
    ghost out: { seat.me.1 ≡ (0, None) ∷ [] },
}
