ghost use Rattle.std.specs.Prelude.{◌≡◌, ℕ, Option, Some, IfSome};

/// What tells the moment, in seconds modulo 2^32.
pub trait Clock: Sync {
    /// The one moment that the clock always tells, where it does.
    ghost moment: { Self → Option ℕ };

    fn now(&self) -> u32
        ensures { IfSome (moment self.now) (λ always. result ≡ always) };
}

/// A clock that stands still.
#[derive(Clone, Copy, Debug)]
pub struct FixedClock {
    pub now: u32,
}

impl Clock for FixedClock {
    ghost moment = { λ clock. Some clock.now };

    fn now(&self) -> u32
        ensures { result ≡ self.entry.now.now }
    {
        self.now
    }
}
