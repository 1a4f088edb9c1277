use forward_report::{CacheReport, WorkerReport};

/// What a worker has shown last: what it counted, and what the cache holds as far as it has seen.
#[derive(Drop)]
pub struct Shown {
    pub report: WorkerReport,
    pub cache: CacheReport,
}
