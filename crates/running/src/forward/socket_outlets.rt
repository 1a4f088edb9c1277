//! The outside of a forwarder on the machine.
ghost use Rattle.std.specs.Prelude.{◌≡◌, ◌≤◌, true, length, IfErr, IfOk, None, OnOk};
ghost use Rattle.outside_core.specs.Fault.{Rose};
ghost use Rattle.running.specs.Forward.{CountsFault};

use crate::forward::board::Board;
use crate::forward::socket_outlet::SocketOutlet;
use crate::forward::system_ids::SystemIds;
use crate::forward::{Operator, OutletFault, Outlets, Shown};
use command_line::ForwardSettings;
use forward_report::Call;
use forward_sockets as sockets;
use forward_sockets::Sockets;
use forwarding::PassedNames;
use std::alloc::Global;
use std::fs::Files;
use std::io::Write;
use std::net::Net;
use std::random::RandomSource;
use std::time::Duration;
use std::{fmt, fs, io, thread, time};

/// The milliseconds of a pause.
const PAUSE: u64 = 250;

/// The network, the clock, and the files and the standard error of the machine, with what workers show.
#[derive(Drop)]
pub struct SocketOutlets<'a, N, T, M> {
    net: &'a N,
    clock: &'a T,
    machine: &'a M,
    board: &'a Board,
    ids: SystemIds<&'a M>,
    handed_out: bool,
    faults: u64,
}

impl<'a, N: Net, T, M: RandomSource> SocketOutlets<'a, N, T, M> {
    pub fn over(net: &'a N, clock: &'a T, machine: &'a M, board: &'a Board) -> Self {
        SocketOutlets {
            net,
            clock,
            machine,
            board,
            ids: SystemIds::over(machine),
            handed_out: false,
            faults: 0,
        }
    }

    // An outlet for each worker.
    fn open_all(
        &self,
        alloc: Global,
        settings: &ForwardSettings,
    ) -> Result<Vec<SocketOutlet<'a, T>>, OutletFault>
        requires few { length settings.now.listens ≤ 8 }
        ensures { IfOk result (λ opened. length opened.items ≡ settings.now.workers) }
    {
        if let Err(cause) = self.ids.check() {
            return Err(OutletFault::Ids(cause));
        }
        let Ok(mut opened) = Vec::with_capacity(alloc, usize::from(settings.workers)) else {
            return Err(OutletFault::OutOfMemory);
        };
        for worker in 0..settings.workers {
            opened.push_reserved(self.open_one(alloc, settings, worker)?);
        }
        Ok(opened)
    }

    fn open_one(
        &self,
        alloc: Global,
        settings: &ForwardSettings,
        worker: u8,
    ) -> Result<SocketOutlet<'a, T>, OutletFault>
        requires few { length settings.now.listens ≤ 8 }
    {
        let listens = settings.listens.as_slice();
        match Sockets::bind(self.net, alloc, listens, settings.upstream) {
            Ok(sockets) => Ok(SocketOutlet {
                sockets,
                clock: self.clock,
                board: self.board,
                worker,
            }),
            Err(sockets::OpenFault::Poll(cause)) => Err(OutletFault::Poll(cause)),
            Err(
                sockets::OpenFault::Address {
                    address,
                    carrier,
                    cause,
                },
            ) => Err(OutletFault::Address {
                address,
                carrier,
                cause,
            }),
            Err(sockets::OpenFault::OutOfMemory) => Err(OutletFault::OutOfMemory),
        }
    }

    // Notes whether outlets were opened, or counts the fault.
    fn note(&mut self, opened: &Result<Vec<SocketOutlet<'a, T>>, OutletFault>)
        ensures ok { OnOk opened.now
            ((self.new.handed_out ≡ true) × (self.new.faults ≡ self.old.faults)) }
        ensures err { IfErr opened.now (λ fault. (self.new.handed_out ≡ self.old.handed_out)
            × CountsFault self.old.faults self.new.faults fault) }
    {
        match opened {
            Ok(_) => self.handed_out = true,
            Err(fault) => {
                if !fault.is_want() {
                    count(&mut self.faults);
                }
            }
        }
    }
}

// One more, up to the greatest number.
fn count(faults: &mut u64)
    ensures { Rose faults.old faults.new }
{
    *faults = faults.saturating_add(1);
}

impl<'a, N: Net, T: time::Clock + Sync, M: Eprint + Files + RandomSource + Sync> Outlets
    for SocketOutlets<'a, N, T, M> {
    type Outlet = SocketOutlet<'a, T>;

    type Ids = SystemIds<&'a M>;

    ghost asked = { λ _. None };

    ghost is_open = { λ o. o.handed_out };

    ghost faults = { λ o. o.faults };

    fn open(
        &mut self,
        alloc: Global,
        settings: &ForwardSettings,
        _passed: &PassedNames,
    ) -> Result<Vec<SocketOutlet<'a, T>>, OutletFault> {
        let opened = self.open_all(alloc, settings);
        self.note(&opened);
        opened
    }

    fn ids(&self) -> &SystemIds<&'a M> {
        &self.ids
    }

    fn shown(&self, worker: u8) -> Shown {
        self.board.shown(worker)
    }

    fn cause(&self, call: Call) -> Option<io::Error> {
        self.board.cause(call)
    }
}

impl<'a, N: Net, T: time::Clock + Sync, M: Eprint + Files + RandomSource + Sync> Operator
    for SocketOutlets<'a, N, T, M> {
    fn millis(&self) -> u64 {
        match self.clock.monotonic() {
            Ok(since) => u64::try_from(since.as_millis()).unwrap_or(u64::MAX),
            Err(_) => 0,
        }
    }

    fn pause(&self) {
        thread::sleep(self.clock, Duration::from_millis(PAUSE));
    }

    fn tell<D: fmt::Display + Drop>(&self, text: D) {
        let _told = eprint!(self.machine; "{text}");
    }

    fn put(&self, path: &str, beside: &str, text: &str) -> io::Result<()> {
        if fs::metadata(self.machine, path).is_ok_and(|there| !there.is_file()) {
            return Err(io::Error::other("it is no file"));
        }
        let mut file = fs::File::create(self.machine, beside)?;
        file.write_all(text.as_bytes())?;
        drop(file);
        fs::rename(self.machine, beside, path)
    }
}
