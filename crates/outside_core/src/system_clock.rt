ghost use Rattle.std.specs.Prelude.{None};

use crate::Clock;
use std::sync::atomic::{AtomicU32, Ordering};
use std::time;

/// The machine's clock: the seconds since 1970, modulo 2^32. Where the machine gives no moment it
/// gives the last one that it gave, and 0 before the first.
#[derive(Drop)]
pub struct SystemClock<C> {
    clock: C,
    last: AtomicU32,
}

impl<C: time::Clock + Sync> SystemClock<C> {
    /// The clock of a runtime, such as the one that `main` is given.
    pub fn over(clock: C) -> SystemClock<C> {
        SystemClock {
            clock,
            last: AtomicU32::new(0),
        }
    }
}

impl<C: time::Clock + Sync> Clock for SystemClock<C> {
    ghost moment = { λ _. None };

    fn now(&self) -> u32 {
        match self.clock.since_1970() {
            Ok(since) => {
                let moment = (since.as_secs() % 0x1_0000_0000) as u32;
                self.last.store(moment, Ordering::SeqCst);
                moment
            }
            Err(_) => self.last.load(Ordering::SeqCst),
        }
    }
}
