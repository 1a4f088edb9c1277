ghost use Rattle.std.specs.Prelude.{◌≡◌, ℕ, ◌≤◌, List, Option, IfOk};
ghost use Rattle.outside_core.specs.Event.{TellsNone};
ghost use Rattle.outside_core.specs.Fault.{HasCause, Rose};
ghost use Rattle.outside_core.specs.Returned.{Returned, returned_of, then_returned, TellsAtMost};

use crate::{Failed, Link};

/// Where links are bound, and where they come back to.
pub trait Harbor {
    type Link: Link + Send + Drop;

    /// The links that came back so far, in order, where the harbor tells them.
    ghost came_back: { Self → Option (List Returned) };

    /// How often a link couldn't be bound, or came back with faults.
    ghost faults: { Self → ℕ };

    /// A new link at a port, with the port of its upstream resolver.
    fn bind(&mut self, port: u16, upstream: u16) -> Result<Self::Link, Failed>
        ensures port { IfOk result (λ link. Self.Link.Link.port link ≡ port) }
        ensures upstream { IfOk result (λ link. Self.Link.Link.upstream link ≡ upstream) }
        ensures events { IfOk result (λ link. TellsNone (Self.Link.Link.events link)) }
        ensures unfailed { IfOk result (λ link. Self.Link.Link.faults link ≡ 0) }
        ensures came_back { came_back self.new ≡ came_back self.old }
        ensures cause { HasCause (faults self.old) (faults self.new) result };

    /// Takes a link back. It may stop telling what came back, and then says nothing of it any more.
    fn part(&mut self, port: u16, link: Self::Link)
        requires { port ≡ Self.Link.Link.port link }
        ensures came_back { TellsAtMost (came_back self.new)
            (then_returned (came_back self.old) (returned_of
            (Self.Link.Link.port link) (Self.Link.Link.upstream link)
            (Self.Link.Link.events link) (Self.Link.Link.faults link))) }
        ensures unfailing { Self.Link.Link.faults link ≡ 0 →
            faults self.new ≡ faults self.old }
        ensures failed { 1 ≤ Self.Link.Link.faults link →
            Rose (faults self.old) (faults self.new) };
}
