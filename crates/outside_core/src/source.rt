ghost use Rattle.std.specs.Prelude.{◌≡◌, ℕ, ◌≤◌, List, [], length, take, Option, IfOk, IfSome, OnErr};
ghost use Rattle.outside_core.specs.Fault.{HasCause};
ghost use Rattle.outside_core.specs.Told.{append_told, prepend_told};

use crate::Failed;

/// Where octets come from.
pub trait Source {
    /// The octets read so far, where the source tells them.
    ghost taken: { Self → Option (List ℕ) };

    /// The octets that it has left, where it tells them.
    ghost left: { Self → Option (List ℕ) };

    /// How often a call has failed.
    ghost faults: { Self → ℕ };

    /// Reads the next octets to the front of `into`, and gives their number: 0 for a buffer that
    /// isn't empty is the end. What the rest of `into` holds then is left open, and so is all of
    /// `into` after a failed call.
    fn read(&mut self, into: &mut [u8]) -> Result<usize, Failed>
        ensures within { IfOk result (λ n. n ≤ length into.old) }
        ensures taken { IfOk result (λ n.
            taken self.new ≡ append_told (taken self.old) (take n into.new)) }
        ensures left { IfOk result (λ n.
            left self.old ≡ prepend_told (take n into.new) (left self.new)) }
        ensures end { IfOk result (λ n.
            n ≡ 0 → 1 ≤ length into.old → IfSome (left self.new) (λ after. after ≡ [])) }
        ensures failed_taken { OnErr result (taken self.new ≡ taken self.old) }
        ensures failed_left { OnErr result (left self.new ≡ left self.old) }
        ensures cause { HasCause (faults self.old) (faults self.new) result };
}
