//! An outlet over sockets.
ghost use Rattle.std.specs.Prelude.{None};

use crate::forward::board::Board;
use arrivals::{Carrier, Event};
use counters::Counts;
use forward_sockets::Sockets;
use forwarding::{Holding, Outlet, PassedNames};
use resolver::{CacheSeat, SharedCache};
use std::sync::Wait;
use std::time;

/// The sockets of one worker. It tells nothing of what they carry.
#[derive(Drop)]
pub struct SocketOutlet<'a, T> {
    pub(crate) sockets: Sockets,
    pub(crate) clock: &'a T,
    pub(crate) board: &'a Board,
    pub(crate) worker: u8,
}

impl<'a, T: time::Clock + Sync> Outlet for SocketOutlet<'a, T> {
    ghost told = { λ _. None };

    fn receive<R: Wait>(&mut self, _rt: &R, into: &mut Event) {
        self.sockets.receive(self.clock, into);
    }

    fn reply(
        &mut self,
        _cache: &SharedCache,
        _seat: &CacheSeat,
        _passed: &PassedNames,
        client: u64,
        octets: &[u8],
    ) {
        self.sockets.reply(client, octets);
    }

    fn ask(
        &mut self,
        _cache: &SharedCache,
        _seat: &CacheSeat,
        _passed: &PassedNames,
        slot: usize,
        carrier: Carrier,
        octets: &[u8],
    ) {
        if let Ok(slot) = u8::try_from(slot) {
            self.sockets.ask(slot, carrier, octets);
        }
    }

    fn show(
        &mut self,
        _cache: &SharedCache,
        _seat: &CacheSeat,
        _passed: &PassedNames,
        counts: &Counts,
        holding: Holding,
    ) {
        let faults = self.sockets.faults();
        self.board.show(self.worker, counts, holding, faults);
    }
}
