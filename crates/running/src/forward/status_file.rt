//! The file that tells the status.
use crate::forward::Operator;
use dname::OutOfMemory;
use forward_report::{CacheReport, WorkerReport, status_text};
use std::alloc::Global;
use std::io;

/// Milliseconds between two writings.
const PERIOD: u64 = 10_000;

/// Milliseconds at least between two lines on a failure.
const SILENCE: u64 = 60_000;

/// A file into which the status is written every ten seconds. Where that fails, a line says so, once a minute at most.
#[derive(Drop)]
pub(crate) struct StatusFile<'a> {
    path: &'a str,
    beside: String,
    due: u64,
    line_due: u64,
}

impl<'a> StatusFile<'a> {
    /// The file at the path, which is due at once.
    pub(crate) fn at(alloc: Global, path: &'a str) -> Result<StatusFile<'a>, OutOfMemory> {
        Ok(StatusFile {
            path,
            beside: format!(in alloc; "{path}.new")?,
            due: 0,
            line_due: 0,
        })
    }

    /// Writes the status if it is due now, in milliseconds.
    pub(crate) fn keep<O: Operator>(
        &mut self,
        alloc: Global,
        operator: &O,
        now: u64,
        workers: &[WorkerReport],
        cache: CacheReport,
    ) {
        if now < self.due {
            return;
        }
        self.due = now.saturating_add(PERIOD);
        let put = match status_text(alloc, workers, cache) {
            Ok(text) => operator.put(self.path, &self.beside, &text),
            Err(_) => Err(io::Error::from(io::ErrorKind::OutOfMemory)),
        };
        if let Err(cause) = put {
            self.complain(operator, now, cause);
        }
    }

    fn complain<O: Operator>(&mut self, operator: &O, now: u64, cause: io::Error) {
        if now < self.line_due {
            return;
        }
        self.line_due = now.saturating_add(SILENCE);
        let path = self.path;
        operator.tell(format_args!("dnsreplay: {path} can't be written: {cause}\n"));
    }
}
