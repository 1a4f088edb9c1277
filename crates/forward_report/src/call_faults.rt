ghost use Rattle.std.specs.Prelude.{◌≡◌, set};
ghost use Rattle.forward_report.specs.Calls.{failures_in, no_failures, place_of};

use crate::{CALLS, Call};
use std::marker::Model;

/// How often each call has failed since the start. Seen as the list of these numbers, in the order of `Call::ALL`.
#[derive(Drop)]
pub struct CallFaults {
    numbers: [u64; CALLS],
}

impl Model for CallFaults {
    ghost use Rattle.std.specs.Prelude.{List, ℕ};

    ghost Value = { List ℕ };

    ghost view = { λ f. f.numbers };
}

impl CallFaults {
    /// None has failed.
    pub fn new() -> CallFaults
        ensures { result ≡ no_failures }
    {
        CallFaults {
            numbers: [0; CALLS],
        }
    }

    /// The call has failed so often.
    pub fn set(&mut self, call: Call, number: u64)
        ensures { self.new ≡ set self.old (place_of call) number }
    {
        self.numbers[call.place()] = number;
    }

    /// How often the call has failed.
    pub fn of(&self, call: Call) -> u64
        ensures { result ≡ failures_in self.now call }
    {
        self.numbers[call.place()]
    }
}
