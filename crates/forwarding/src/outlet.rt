//! A worker's way to its clients and to the upstream.
ghost use Rattle.std.specs.Prelude.{◌≡◌, ◌≤◌, ◌∷◌, [], length, Option};
ghost use Rattle.arrivals.specs.declared.event.TheConstants.{MAX_MESSAGE};
ghost use Rattle.cache_versions.specs.Seats.{seen_by};
ghost use Rattle.resolver.specs.Caches.{IsSeatOf};
ghost use Rattle.forwarding.specs.Done.{to_client, to_upstream};
ghost use Rattle.forwarding.specs.Holding.{holding_of};
ghost use Rattle.forwarding.specs.Lawful.{MaySend, MayShow, Told, more_received, more_sent};

use crate::{Holding, PassedNames};
use arrivals::{Carrier, Event};
use counters::Counts;
use resolver::{CacheSeat, SharedCache};
use std::sync::Wait;

/// Where events come from, and what is sent goes to. What goes out is lawful when it goes out, whatever ends the worker: so
/// `reply` and `ask` require. A message that the system refuses is one that was lawful; it is counted as a fault.
pub trait Outlet {
    /// The names that are passed, as it was opened, and what it carried so far, where it tells that.
    ghost told: { Self → Option Told };

    /// Waits for the next event, for a quarter of a second at most, and puts it into `into`. A failed call is a tick.
    fn receive<R: Wait>(&mut self, rt: &R, into: &mut Event)
        ensures { told self.new ≡ more_received (told self.old) into.new };

    /// Gives a reply to be sent to a client.
    fn reply(
        &mut self,
        cache: &SharedCache,
        seat: &CacheSeat,
        passed: &PassedNames,
        client: u64,
        octets: &[u8],
    )
        requires object { IsSeatOf cache.now seat.now }
        requires fits { length octets.now ≤ MAX_MESSAGE }
        requires lawful { MaySend passed.now (seen_by seat.now) (told self.old)
            (to_client client octets.now) }
        ensures { told self.new
            ≡ more_sent (told self.old) (to_client client octets.now ∷ []) };

    /// Gives a question to be sent to the upstream by the carrier, over a new socket that is the slot's from then on.
    fn ask(
        &mut self,
        cache: &SharedCache,
        seat: &CacheSeat,
        passed: &PassedNames,
        slot: usize,
        carrier: Carrier,
        octets: &[u8],
    )
        requires object { IsSeatOf cache.now seat.now }
        requires fits { length octets.now ≤ 4096 }
        requires lawful { MaySend passed.now (seen_by seat.now) (told self.old)
            (to_upstream slot carrier octets.now) }
        ensures { told self.new
            ≡ more_sent (told self.old) (to_upstream slot carrier octets.now ∷ []) };

    /// Is shown what the worker counted so far, and what the version holds that it sees, at each tick.
    fn show(
        &mut self,
        cache: &SharedCache,
        seat: &CacheSeat,
        passed: &PassedNames,
        counts: &Counts,
        holding: Holding,
    )
        requires object { IsSeatOf cache.now seat.now }
        requires exact { MayShow passed.now (seen_by seat.now) (told self.old) counts.now }
        requires holding { holding ≡ holding_of (seen_by seat.now) }
        ensures { told self.new ≡ told self.old };
}
