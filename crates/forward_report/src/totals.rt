//! What all workers have counted together.
ghost use Rattle.std.specs.Prelude.{◌≡◌};
ghost use Rattle.forward_report.specs.Notices.{answers_of, counted_of, failures_of};

use crate::{Call, WorkerReport};
use counters::Counter;

/// How often the call has failed, up to 2^64 - 1.
pub(crate) fn failures(workers: &[WorkerReport], call: Call) -> u64
    ensures { result ≡ failures_of workers.now call }
{
    let mut sum = 0u64;
    for report in workers {
        sum = sum.saturating_add(report.faults.of(call));
    }
    sum
}

/// How often it was counted, up to 2^64 - 1.
pub(crate) fn counted(workers: &[WorkerReport], counter: Counter) -> u64
    ensures { result ≡ counted_of workers.now counter }
{
    let mut sum = 0u64;
    for report in workers {
        sum = sum.saturating_add(report.counts.of(counter));
    }
    sum
}

/// How many clients got an answer of the upstream, up to 2^64 - 1.
pub(crate) fn answers(workers: &[WorkerReport]) -> u64
    ensures { result ≡ answers_of workers.now }
{
    counted(workers, Counter::RelayedNoError)
        .saturating_add(counted(workers, Counter::RelayedServerFailure))
        .saturating_add(counted(workers, Counter::RelayedNameError))
        .saturating_add(counted(workers, Counter::RelayedRefused))
        .saturating_add(counted(workers, Counter::RelayedOther))
}
