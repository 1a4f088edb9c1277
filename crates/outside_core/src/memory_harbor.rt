ghost use Rattle.std.specs.Prelude.{◌≡◌, ◌≤◌, ◌<◌, ◌↔◌, ◌∷◌, [], length, Some, IsErr, IfOk, OnErr};
ghost use Rattle.std.specs.List.{All};
ghost use Rattle.outside_core.specs.Fault.{HasCause, Rose};
ghost use Rattle.outside_core.specs.FaultPlan.{plan_of};
ghost use Rattle.outside_core.specs.MemoryLink.{IsFresh, bound_at};
ghost use Rattle.outside_core.specs.MemoryHarbor.{harbor_of, shown, told_back, IsShut, after_bind, after_failed_bind, plan_after, after_part, after_drop};
ghost use Rattle.outside_core.specs.Returned.{then_returned, TellsAtMost};

use crate::fault_plan::FaultPlan;
use crate::{Failed, Harbor, MemoryLink, OutOfMemory};
use std::alloc::Global;
use std::marker::Model;

/// A harbor in memory, of whose binds some fail. It has room to have each of its links back once. A
/// link that comes back beyond that is dropped, and the harbor then no longer tells what came back.
#[derive(Debug, Drop)]
pub struct MemoryHarbor {
    // The last is bound next.
    links: Vec<MemoryLink>,
    came: Vec<(u16, MemoryLink)>,
    room: usize,
    tells: bool,
    plan: FaultPlan,
}

impl Model for MemoryHarbor {
    ghost use Rattle.std.specs.Prelude.{◌≤◌, reverse, vec_len, vec_capacity};
    ghost use Rattle.std.specs.List.{All};
    ghost use Rattle.outside_core.specs.MemoryLink.{IsFresh};
    ghost use Rattle.outside_core.specs.MemoryHarbor.{Harboring};

    ghost Value = { Harboring };

    ghost view = { λ h. record {
      left = reverse h.links.items;
      came = h.came.items;
      room = h.room;
      tells = h.tells;
      plan = h.plan;
    } };

    ghost invariant = { λ h. (All IsFresh h.links.items)
        × (vec_len h.came ≤ h.room) × (h.room ≤ vec_capacity h.came) };
}

impl MemoryHarbor {
    /// A harbor that binds these links, in order. Those of its binds fail whose numbers, counted
    /// from 1, are in `failing`, and those beyond the links.
    pub fn with_links(
        alloc: Global,
        links: Vec<MemoryLink>,
        failing: Vec<u32>,
    ) -> Result<MemoryHarbor, OutOfMemory>
        requires { All IsFresh links.items }
        ensures { IfOk result (λ harbor.
            harbor ≡ harbor_of links.items (plan_of failing.items)) }
    {
        let room = links.len();
        let mut links = links;
        links.reverse();
        Ok(MemoryHarbor {
            links,
            came: Vec::with_capacity(alloc, room)?,
            room,
            tells: true,
            plan: FaultPlan::of(failing),
        })
    }

    /// The links that came back and found room, each with its port, in order.
    pub fn came_back(&self) -> &[(u16, MemoryLink)]
        ensures { result.now ≡ self.now.came }
    {
        &self.came
    }
}

impl Harbor for MemoryHarbor {
    type Link = MemoryLink;

    ghost came_back = { told_back };

    ghost faults = { λ h. h.plan.faults };

    fn bind(&mut self, port: u16, upstream: u16) -> Result<MemoryLink, Failed>
        ensures port { IfOk result (λ link. link.port ≡ port) }
        ensures upstream { IfOk result (λ link. link.upstream ≡ upstream) }
        ensures events { IfOk result (λ link. link.events ≡ []) }
        ensures unfailed { IfOk result (λ link. link.plan.faults ≡ 0) }
        ensures came_back { told_back self.new ≡ told_back self.old }
        ensures cause { HasCause self.old.plan.faults self.new.plan.faults result }

        // Beyond the trait: the answer and the harbor after the call follow from it.
        ensures fails { IsErr result ↔ IsShut self.old }
        ensures after { IfOk result (λ link. (first : _)
            × (self.old.left ≡ first ∷ self.new.left)
            × (link ≡ bound_at port upstream first)
            × (self.new ≡ after_bind self.new.left self.old)) }
        ensures failed_after { OnErr result (self.new ≡ after_failed_bind self.old) }
    {
        if self.plan.is_due() {
            return Err(self.plan.fail());
        }
        match self.links.pop() {
            None => Err(self.plan.fail()),
            Some(link) => {
                self.plan.succeed();
                Ok(link.bound(port, upstream))
            }
        }
    }

    fn part(&mut self, port: u16, link: MemoryLink)
        requires { port ≡ link.port }
        ensures came_back { TellsAtMost (told_back self.new)
            (then_returned (told_back self.old) (Some (shown link))) }
        ensures unfailing { link.plan.faults ≡ 0 →
            self.new.plan.faults ≡ self.old.plan.faults }
        ensures failed { 1 ≤ link.plan.faults →
            Rose self.old.plan.faults self.new.plan.faults }

        // Beyond the trait: the harbor after the call follows from it.
        ensures kept { length self.old.came < self.old.room →
            self.new ≡ after_part port link self.old }
        ensures dropped { self.old.room ≤ length self.old.came →
            self.new ≡ after_drop link self.old }
    {
        self.count(&link);
        if self.came.len() < self.room {
            let fitted = self.came.push((port, link)).is_ok();
            prove!(fitted);
        } else {
            self.tells = false;
        }
    }
}

impl MemoryHarbor {
    // Counts the faults of a link that comes back as one.
    fn count(&mut self, link: &MemoryLink)
        ensures counted { self.new ≡
            record self.old { plan = plan_after link.now.plan.faults self.old.plan } }
        ensures unfailing { link.now.plan.faults ≡ 0 →
            self.new.plan.faults ≡ self.old.plan.faults }
        ensures failed { 1 ≤ link.now.plan.faults →
            Rose self.old.plan.faults self.new.plan.faults }
    {
        if link.has_failed() {
            self.plan.note();
        }
    }
}
