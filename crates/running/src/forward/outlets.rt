//! The outside of a forwarder.
ghost use Rattle.std.specs.Prelude.{◌≡◌, ℕ, ◌≤◌, Bool, true, All, length, IfErr, IfOk, IfSome, Option, OnErr, OnOk};
ghost use Rattle.command_line.specs.declared.command.Command.{Command};
ghost use Rattle.command_line.specs.declared.command.Command.TheVariants.{Forward};
ghost use Rattle.forwarding.specs.Lawful.{IsNew};
ghost use Rattle.running.specs.Forward.{ArePassedFor, CountsFault};

use crate::forward::{Operator, OutletFault, Shown};
use command_line::ForwardSettings;
use forward_report::Call;
use forwarding::{Dice, Outlet, PassedNames};
use std::alloc::Global;
use std::io;

/// Where the outlets of a forwarder are opened, with who reads what it says.
pub trait Outlets: Operator {
    type Outlet: Outlet + Send + Drop;

    /// What draws the IDs of all workers.
    type Ids: Dice + Sync;

    /// The command for which they are, where they tell that.
    ghost asked: { Self → Option Command };

    /// Whether outlets were handed out.
    ghost is_open: { Self → Bool };

    /// How often the system refused to open some.
    ghost faults: { Self → ℕ };

    /// An outlet for each of the workers, over which it hears clients at each of the settings' addresses, and asks their upstream,
    /// with the names passed that they ask for. Where one can't be opened, none is handed out.
    fn open(
        &mut self,
        alloc: Global,
        settings: &ForwardSettings,
        passed: &PassedNames,
    ) -> Result<Vec<Self::Outlet>, OutletFault>
        requires asked { IfSome (asked self.old) (λ command. command ≡ Forward settings.now) }
        requires passed { ArePassedFor settings.now.passes passed.now }
        requires listens { length settings.now.listens ≤ 8 }
        requires workers { settings.now.workers ≤ 32 }
        ensures all { IfOk result (λ opened. length opened.items ≡ settings.now.workers) }
        ensures new { IfOk result (λ opened.
            All (λ outlet. IsNew passed.now (Self.Outlet.Outlet.told outlet)) opened.items) }
        ensures open { OnOk result (is_open self.new ≡ true) }
        ensures shut { OnErr result (is_open self.new ≡ is_open self.old) }
        ensures unfailed { OnOk result (faults self.new ≡ faults self.old) }
        ensures cause { IfErr result (CountsFault (faults self.old) (faults self.new)) };

    /// What draws the IDs.
    fn ids(&self) -> &Self::Ids;

    /// What the outlet of the worker was shown last, and how often its calls have failed. Workers are counted from 0.
    fn shown(&self, worker: u8) -> Shown;

    /// Why the call failed last, at one of the workers, where the system has said that.
    fn cause(&self, call: Call) -> Option<io::Error>;
}
