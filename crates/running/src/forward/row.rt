//! What one worker shows. No clause follows an atomic.
use crate::forward::Shown;
use counters::{COUNTERS, Counter, Counts};
use forward_report::{CALLS, CacheReport, Call, CallFaults, WorkerReport};
use forward_sockets::{Fault, Faults};
use forwarding::Holding;
use std::array;
use std::sync::atomic::AtomicU64;
use std::sync::atomic::Ordering::SeqCst;

/// What one worker shows.
#[derive(Drop)]
pub(crate) struct Row {
    counts: [AtomicU64; COUNTERS],
    failures: [AtomicU64; CALLS],
    records: AtomicU64,
    zones: AtomicU64,
    chains: AtomicU64,
    version: AtomicU64,
}

impl Row {
    pub(crate) fn new() -> Row {
        Row {
            counts: array::from_fn(|_| AtomicU64::new(0)),
            failures: array::from_fn(|_| AtomicU64::new(0)),
            records: AtomicU64::new(0),
            zones: AtomicU64::new(0),
            chains: AtomicU64::new(0),
            version: AtomicU64::new(0),
        }
    }

    /// Whether the call has failed since it was shown last.
    pub(crate) fn has_new(&self, call: Call, fault: &Fault) -> bool {
        self.failures[call.place()].load(SeqCst) != fault.count
    }

    pub(crate) fn show(&self, counts: &Counts, holding: Holding, faults: &Faults) {
        for counter in Counter::ALL {
            self.counts[counter.index()].store(counts.of(counter), SeqCst);
        }
        for call in Call::ALL {
            let fault = fault_of(faults, call);
            self.failures[call.place()].store(fault.count, SeqCst);
        }
        self.records.store(holding.records as u64, SeqCst);
        self.zones.store(holding.zones as u64, SeqCst);
        self.chains.store(holding.chains as u64, SeqCst);
        self.version.store(holding.version, SeqCst);
    }

    pub(crate) fn shown(&self) -> Shown {
        let mut counts = Counts::new();
        for counter in Counter::ALL {
            counts.add(counter, self.counts[counter.index()].load(SeqCst));
        }
        let mut faults = CallFaults::new();
        for call in Call::ALL {
            faults.set(call, self.failures[call.place()].load(SeqCst));
        }
        Shown {
            report: WorkerReport { counts, faults },
            cache: CacheReport {
                records: self.records.load(SeqCst),
                zones: self.zones.load(SeqCst),
                chains: self.chains.load(SeqCst),
                version: self.version.load(SeqCst),
            },
        }
    }
}

/// How often the call failed, and why.
pub(crate) fn fault_of(faults: &Faults, call: Call) -> &Fault {
    match call {
        Call::Wait => &faults.wait,
        Call::ReceiveQuery => &faults.query,
        Call::ReceiveAnswer => &faults.answer,
        Call::Reply => &faults.reply,
        Call::Socket => &faults.socket,
        Call::Bind => &faults.bind,
        Call::Connect => &faults.connect,
        Call::Watch => &faults.watch,
        Call::Send => &faults.send,
        Call::Accept => &faults.accept,
        Call::ConnectStream => &faults.stream_connect,
        Call::ReadStream => &faults.stream_read,
        Call::WriteStream => &faults.stream_write,
    }
}
