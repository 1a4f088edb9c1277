use crate::CallFaults;
use counters::Counts;

/// What one worker has counted since the start.
#[derive(Drop)]
pub struct WorkerReport {
    pub counts: Counts,
    pub faults: CallFaults,
}
