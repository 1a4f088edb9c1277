ghost use Rattle.std.specs.Prelude.{◌≡◌, ◌≤◌, length, None, IfOk, OnErr};
ghost use Rattle.outside_core.specs.Fault.{HasCause, next_count};
ghost use Rattle.gateway.specs.Tcp.{timed_faults};

use crate::call_plan::count;
use outside_core::{Failed, Source};
use std::io::{ErrorKind, Read};

/// A stream of std as a source, whose end is also where a read says that nothing came in the time that the stream allows: where it
/// gives `WouldBlock`. It tells nothing of its octets. Its count of faults stays at 2^64 - 1 once it is there.
///
/// When a read fails is left open, since nothing in std says so: it is where the stream's read fails otherwise, also where a signal
/// interrupted that.
#[derive(Debug, Drop)]
pub struct TimedSource<R> {
    stream: R,
    faults: u64,
}

impl<R: Read> TimedSource<R> {
    pub fn over(stream: R) -> TimedSource<R>
        ensures { timed_faults result ≡ 0 }
    {
        TimedSource { stream, faults: 0 }
    }
}

impl<R: Read> Source for TimedSource<R> {
    ghost taken = { λ _. None };

    ghost left = { λ _. None };

    ghost faults = { timed_faults };

    fn read(&mut self, into: &mut [u8]) -> Result<usize, Failed>
        ensures within { IfOk result (λ n. n ≤ length into.old) }
        ensures cause { HasCause (timed_faults self.old) (timed_faults self.new) result }

        // Beyond the trait.
        ensures counted { OnErr result (
            timed_faults self.new ≡ next_count (timed_faults self.old)) }
    {
        match self.stream.read(into) {
            Ok(count) => Ok(count),
            Err(fault) => {
                if fault.kind() == ErrorKind::WouldBlock {
                    return Ok(0);
                }
                count(&mut self.faults);
                Err(Failed)
            }
        }
    }
}
