//! The outlet of those that can't be opened.
ghost use Rattle.std.specs.Prelude.{◌≡◌, ◌≤◌, ◌∷◌, [], length};
ghost use Rattle.cache_versions.specs.Seats.{seen_by};
ghost use Rattle.resolver.specs.Caches.{IsSeatOf};
ghost use Rattle.forwarding.specs.Done.{to_client, to_upstream};
ghost use Rattle.forwarding.specs.Holding.{holding_of};
ghost use Rattle.forwarding.specs.Lawful.{MaySend, MayShow, more_received, more_sent};

use counters::Counts;
use forwarding::{Carrier, Event, Holding, Outlet, PassedNames};
use resolver::{CacheSeat, SharedCache};
use std::sync::Wait;

/// Nothing comes over it, and nothing that is given to it goes anywhere. None is handed out.
#[derive(Debug, Drop)]
pub struct NoOutlet;

impl Outlet for NoOutlet {
    ghost use Rattle.std.specs.Prelude.{None};

    ghost told = { λ _. None };

    fn receive<R: Wait>(&mut self, _rt: &R, _into: &mut Event) {}

    fn reply(
        &mut self,
        _cache: &SharedCache,
        _seat: &CacheSeat,
        _passed: &PassedNames,
        _client: u64,
        _octets: &[u8],
    ) {}

    fn ask(
        &mut self,
        _cache: &SharedCache,
        _seat: &CacheSeat,
        _passed: &PassedNames,
        _slot: usize,
        _carrier: Carrier,
        _octets: &[u8],
    ) {}

    fn show(
        &mut self,
        _cache: &SharedCache,
        _seat: &CacheSeat,
        _passed: &PassedNames,
        _counts: &Counts,
        _holding: Holding,
    ) {}
}
