//! What workers show. Each writes a row of its own, and any thread reads them. No clause follows an atomic.
use crate::forward::Shown;
use crate::forward::row::{Row, fault_of};
use counters::Counts;
use forward_report::{CALLS, Call};
use forward_sockets::{Fault, Faults};
use forwarding::Holding;
use std::sync::atomic::AtomicU64;
use std::sync::atomic::Ordering::SeqCst;
use std::{array, io};

/// How many workers have a row.
const ROWS: usize = 32;

/// The rows of all workers, and why calls failed last.
#[derive(Drop)]
pub(crate) struct Board {
    rows: [Row; ROWS],
    // The system's numbers of the errors, and 0 where it gave none.
    causes: [AtomicU64; CALLS],
}

impl Board {
    pub(crate) fn new() -> Board {
        Board {
            rows: array::from_fn(|_| Row::new()),
            causes: array::from_fn(|_| AtomicU64::new(0)),
        }
    }

    // Workers are counted from 0, and have numbers below 32.
    fn row(&self, worker: u8) -> &Row {
        &self.rows[usize::from(worker) % ROWS]
    }

    pub(crate) fn show(&self, worker: u8, counts: &Counts, holding: Holding, faults: &Faults) {
        let row = self.row(worker);
        for call in Call::ALL {
            let fault = fault_of(faults, call);
            if row.has_new(call, fault) {
                self.causes[call.place()].store(number_of(fault), SeqCst);
            }
        }
        row.show(counts, holding, faults);
    }

    pub(crate) fn shown(&self, worker: u8) -> Shown {
        self.row(worker).shown()
    }

    pub(crate) fn cause(&self, call: Call) -> Option<io::Error> {
        match i32::try_from(self.causes[call.place()].load(SeqCst)) {
            Ok(0) | Err(_) => None,
            Ok(number) => Some(io::Error::from_raw_os_error(number)),
        }
    }
}

// The system's number of the last cause, and 0 where it gave none.
fn number_of(fault: &Fault) -> u64 {
    match fault.last {
        Some(number) => u64::try_from(number).unwrap_or(0),
        None => 0,
    }
}
