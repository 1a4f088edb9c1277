ghost use Rattle.std.specs.Prelude.{◌≡◌, ◌↔◌, ◌<◌, [], ◌∷◌, length, None, Some, IsNone, IsSome, IsErr, IfNone, IfSome, IfOk, OnOk, OnErr};
ghost use Rattle.std.specs.List.{All};
ghost use Rattle.outside_core.specs.Fault.{HasCause};
ghost use Rattle.outside_core.specs.FaultPlan.{IsDue, plan_of};
ghost use Rattle.gateway.specs.Connection.{Counts, TellsAtMost, TellsNone, connection_of, then_back};
ghost use Rattle.gateway.specs.MemoryGateway.{Ends, IsFresh, IsShut, after_accept, after_failed_call, after_listen, gateway_of, told_back};

use crate::call_plan::{CallPlan, count};
use crate::{Gateway, WatchedSink, WatchedSource};
use outside_core::{Failed, MemorySink, MemorySource, OutOfMemory};
use std::alloc::Global;
use std::marker::Model;
use std::sync::Wait;

/// A gateway in memory, of whose calls some fail. It has room to have each of its connections back once. One that comes back
/// beyond that is dropped, and the gateway then no longer tells what came back.
#[derive(Debug, Drop)]
pub struct MemoryGateway {
    // The last is accepted next.
    connections: Vec<(MemorySource, MemorySink)>,
    came: Vec<(MemorySource, MemorySink)>,
    room: usize,
    tells: bool,
    port: Option<u16>,
    plan: CallPlan,
    faults: u64,
}

impl Model for MemoryGateway {
    ghost use Rattle.std.specs.Prelude.{◌≤◌, reverse, vec_len, vec_capacity};
    ghost use Rattle.std.specs.List.{All};
    ghost use Rattle.gateway.specs.MemoryGateway.{Gating, IsFresh};

    ghost Value = { Gating };

    ghost view = { λ g. record {
      left = reverse g.connections.items;
      came = g.came.items;
      room = g.room;
      tells = g.tells;
      port = g.port;
      plan = g.plan;
      faults = g.faults;
    } };

    ghost invariant = { λ g. (All IsFresh g.connections.items)
        × (vec_len g.came ≤ g.room) × (g.room ≤ vec_capacity g.came) };
}

impl MemoryGateway {
    /// A gateway that gives these connections, in order. Those of its calls of `listen` and `accept` fail whose numbers, counted
    /// together from 1, are in `failing`, and each `accept` beyond the connections.
    pub fn with_connections(
        alloc: Global,
        connections: Vec<(MemorySource, MemorySink)>,
        failing: Vec<u32>,
    ) -> Result<MemoryGateway, OutOfMemory>
        requires { All IsFresh connections.items }
        ensures { IfOk result (λ gateway.
            gateway ≡ gateway_of connections.items (plan_of failing.items)) }
    {
        let room = connections.len();
        let mut connections = connections;
        connections.reverse();
        Ok(MemoryGateway {
            connections,
            came: Vec::with_capacity(alloc, room)?,
            room,
            tells: true,
            port: None,
            plan: CallPlan::of(failing),
            faults: 0,
        })
    }

    /// The connections that came back and found room, in order.
    pub fn came_back(&self) -> &[(MemorySource, MemorySink)]
        ensures { result.now ≡ self.now.came }
    {
        &self.came
    }
}

impl Gateway for MemoryGateway {
    type Source = WatchedSource<MemorySource>;

    type Sink = WatchedSink<MemorySink>;

    ghost listens = { λ g. g.port };

    ghost came_back = { told_back };

    ghost failures = { λ g. g.plan.faults };

    ghost faults = { λ g. g.faults };

    fn listen(&mut self, port: u16) -> Result<(), Failed>
        requires { self.old.port ≡ None }
        ensures listens { OnOk result (self.new.port ≡ Some port) }
        ensures failed_listens { OnErr result (self.new.port ≡ None) }
        ensures came_back { told_back self.new ≡ told_back self.old }
        ensures failures { HasCause self.old.plan.faults self.new.plan.faults result }
        ensures cause { HasCause self.old.faults self.new.faults result }

        // Beyond the trait: the answer and the gateway after the call follow from it.
        ensures fails { IsErr result ↔ IsDue self.old.plan }
        ensures after { OnOk result (self.new ≡ after_listen port self.old) }
        ensures failed_after { OnErr result (self.new ≡ after_failed_call self.old) }
    {
        if self.plan.is_due() {
            return Err(self.fail());
        }
        self.plan.succeed();
        self.port = Some(port);
        Ok(())
    }

    fn accept<R: Wait>(
        &mut self,
        _rt: &R,
    ) -> Result<(WatchedSource<MemorySource>, WatchedSink<MemorySink>), Failed>
        requires { IsSome self.old.port }
        ensures taken { IfOk result (λ ends. TellsNone ends.0.taken) }
        ensures written { IfOk result (λ ends. TellsNone ends.1.written) }
        ensures unfailed_source { IfOk result (λ ends. ends.0.faults ≡ 0) }
        ensures unfailed_sink { IfOk result (λ ends. ends.1.faults ≡ 0) }
        ensures listens { self.new.port ≡ self.old.port }
        ensures came_back { told_back self.new ≡ told_back self.old }
        ensures failures { HasCause self.old.plan.faults self.new.plan.faults result }
        ensures cause { HasCause self.old.faults self.new.faults result }

        // Beyond the trait: what it gives first is what the first connection has.
        ensures fails { IsErr result ↔ IsShut self.old }
        ensures after { IfOk result (λ ends. (first : Ends)
            × (self.old.left ≡ first ∷ self.new.left)
            × (ends.0.left ≡ Some first.0.supply.left)
            × (self.new ≡ after_accept self.new.left self.old)) }
        ensures failed_after { OnErr result (self.new ≡ after_failed_call self.old) }
    {
        if self.plan.is_due() {
            return Err(self.fail());
        }
        let Some(ends) = self.next() else {
            return Err(self.fail());
        };
        self.plan.succeed();
        Ok(watched(ends))
    }

    fn part(&mut self, source: WatchedSource<MemorySource>, sink: WatchedSink<MemorySink>)
        ensures came_back { TellsAtMost (told_back self.new)
            (then_back (told_back self.old) (connection_of
            source.taken source.left source.faults sink.written sink.faults)) }
        ensures listens { self.new.port ≡ self.old.port }
        ensures failures { self.new.plan.faults ≡ self.old.plan.faults }
        ensures counts { Counts source.faults sink.faults self.old.faults self.new.faults }

        // Beyond the trait: it stops telling only where there is no room.
        ensures kept { length self.old.came < self.old.room → told_back self.new
            ≡ then_back (told_back self.old) (connection_of
            source.taken source.left source.faults sink.written sink.faults) }
    {
        if source.has_failed() || sink.has_failed() {
            count(&mut self.faults);
        }
        if self.came.len() < self.room {
            let fitted = self
                .came
                .push((source.into_source(), sink.into_sink()))
                .is_ok();
            prove!(fitted);
        } else {
            self.tells = false;
        }
    }
}

impl MemoryGateway {
    ghost use Rattle.outside_core.specs.Fault.{Rose};

    // Takes the next connection.
    fn next(&mut self) -> Option<(MemorySource, MemorySink)>
        ensures none { IsNone result ↔ (self.old.left ≡ []) }
        ensures fresh { IfSome result IsFresh }
        ensures after { IfSome result (λ ends. (self.old.left ≡ ends ∷ self.new.left)
            × (self.new ≡ record self.old { left = self.new.left })) }
        ensures unchanged { IfNone result (self.new ≡ self.old) }
    {
        self.connections.pop()
    }

    // Counts a call that failed.
    fn fail(&mut self) -> Failed
        ensures counted { self.new ≡ after_failed_call self.old }
        ensures rose { Rose self.old.faults self.new.faults }
        ensures failures { Rose self.old.plan.faults self.new.plan.faults }
    {
        self.plan.fail();
        count(&mut self.faults);
        Failed
    }
}

fn watched(
    ends: (MemorySource, MemorySink),
) -> (WatchedSource<MemorySource>, WatchedSink<MemorySink>)
    requires { IsFresh ends }
    ensures taken { result.0.taken ≡ Some [] }
    ensures left { result.0.left ≡ Some ends.0.supply.left }
    ensures written { result.1.written ≡ Some [] }
    ensures unfailed_source { result.0.faults ≡ 0 }
    ensures unfailed_sink { result.1.faults ≡ 0 }
{
    let (source, sink) = ends;
    (WatchedSource::over(source), WatchedSink::over(sink))
}
