ghost use Rattle.std.specs.Prelude.{◌≡◌, ℕ, ◌≤◌, List, length, false, IsTrue, Option, OnOk, OnErr};
ghost use Rattle.outside_core.specs.declared.event.Event.{Event as Told};
ghost use Rattle.outside_core.specs.declared.event.Event.TheVariants.{Awaited, Found, Sent};
ghost use Rattle.outside_core.specs.Datagram.{datagram_of, IsClient};
ghost use Rattle.outside_core.specs.Event.{one_more_told};
ghost use Rattle.outside_core.specs.Fault.{HasCause};

use crate::{Datagram, Failed, Peer};
use std::sync::Wait;

/// A worker's way to its clients and to the upstream resolver, by datagrams.
pub trait Link {
    /// What went over the link so far, in turn, where the link tells it.
    ghost events: { Self → Option (List Told) };

    /// The port that the link was bound to.
    ghost port: { Self → ℕ };

    /// The port of the upstream resolver.
    ghost upstream: { Self → ℕ };

    /// How often a call has failed.
    ghost faults: { Self → ℕ };

    /// Waits for the next datagram and puts it into `into`, which may hold anything before. What it
    /// holds after a failed call is left open.
    fn receive<R: Wait>(&mut self, rt: &R, into: &mut Datagram) -> Result<(), Failed>
        ensures awaited { OnOk result (
            events self.new ≡ one_more_told (events self.old) (Awaited into.new)) }
        ensures failed { OnErr result (events self.new ≡ events self.old) }
        ensures port { port self.new ≡ port self.old }
        ensures upstream { upstream self.new ≡ upstream self.old }
        ensures cause { HasCause (faults self.old) (faults self.new) result };

    /// Takes the next datagram into `into` where one has come already and a client sent it, without
    /// waiting, and says whether it did. What `into` holds where none was taken is left open. A link
    /// may always say that none has come, as this body does.
    ///
    /// What the upstream resolver sends is left to the next `receive`, where want of memory for it
    /// can be reported. What fails is left to it too, which reports it if it lasts.
    fn receive_waiting(&mut self, into: &mut Datagram) -> bool
        ensures found { IsTrue result →
            events self.new ≡ one_more_told (events self.old) (Found into.new) }
        ensures client { IsTrue result → IsClient into.new.peer }
        ensures none { result ≡ false → events self.new ≡ events self.old }
        ensures port { port self.new ≡ port self.old }
        ensures upstream { upstream self.new ≡ upstream self.old }
        ensures faults { faults self.new ≡ faults self.old }
    {
        let _into = into;
        false
    }

    /// Sends one datagram. That it arrives isn't said.
    fn send(&mut self, to: Peer, octets: &[u8]) -> Result<(), Failed>
        requires { length octets.now ≤ 4096 }
        ensures sent { OnOk result (
            events self.new ≡ one_more_told (events self.old) (Sent (datagram_of to octets.now))) }
        ensures failed { OnErr result (events self.new ≡ events self.old) }
        ensures port { port self.new ≡ port self.old }
        ensures upstream { upstream self.new ≡ upstream self.old }
        ensures cause { HasCause (faults self.old) (faults self.new) result };
}
