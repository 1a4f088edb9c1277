//! Outlets that can't be opened.
ghost use Rattle.std.specs.Prelude.{◌≡◌, IfOk, IfSome, IsTrue, None};
ghost use Rattle.command_line.specs.Words.{AreWordsOf};
ghost use Rattle.command_line.specs.declared.command.Command.TheVariants.{Forward};

use super::no_outlet::NoOutlet;
use arrivals::Carrier;
use command_line::{Command, ForwardSettings, command_of};
use counters::Counts;
use dname::OutOfMemory;
use forward_report::{CacheReport, Call, CallFaults, WorkerReport};
use forwarding::{Dice, PassedNames};
use running::{Operator, OutletFault, Outlets, Shown};
use std::alloc::Global;
use std::{fmt, io};

/// What stands in the way.
#[derive(Clone, Copy, Debug, PartialEq, Eq)]
pub enum Hindrance {
    /// The first address is in use.
    Address,
    Memory,
}

/// Draws 0 each time.
#[derive(Debug, Drop)]
pub struct Zeros;

impl Dice for Zeros {
    fn draw(&self) -> u16 {
        0
    }
}

/// Outlets that can't be opened, in front of nobody.
#[derive(Debug, Drop)]
pub struct ShutOutlets {
    hindrance: Hindrance,
    command: Option<Command>,
    faults: u64,
    ids: Zeros,
}

impl ShutOutlets {
    /// Outlets that don't tell for which command they are.
    pub fn by(hindrance: Hindrance) -> ShutOutlets
        ensures { result.command ≡ None }
    {
        ShutOutlets {
            hindrance,
            command: None,
            faults: 0,
            ids: Zeros,
        }
    }

    /// Outlets for the command that the words are.
    pub fn for_words(
        alloc: Global,
        hindrance: Hindrance,
        words: &[String],
    ) -> Result<ShutOutlets, OutOfMemory>
        ensures { IfOk result (λ outlets. IfSome outlets.command (AreWordsOf words.now)) }
    {
        Ok(ShutOutlets {
            hindrance,
            command: command_of(alloc, words)?,
            faults: 0,
            ids: Zeros,
        })
    }

    // Whether they are for these settings, where they tell that.
    fn are_for(&self, settings: &ForwardSettings) -> bool
        requires { IfSome self.now.command (λ command. command ≡ Forward settings.now) }
        ensures { IsTrue result }
    {
        match &self.command {
            Some(Command::Forward(own)) => {
                own.upstream == settings.upstream && own.workers == settings.workers
            }
            _ => true,
        }
    }

    /// How often they couldn't be opened.
    pub fn faults(&self) -> u64 {
        self.faults
    }
}

impl Operator for ShutOutlets {
    fn millis(&self) -> u64 {
        0
    }

    fn pause(&self) {}

    fn tell<D: fmt::Display + Drop>(&self, _text: D) {}

    fn put(&self, _path: &str, _beside: &str, _text: &str) -> io::Result<()> {
        Ok(())
    }
}

// The system's number for an address in use.
const IN_USE: i32 = 98;

impl Outlets for ShutOutlets {
    ghost use Rattle.std.specs.Prelude.{false};

    type Outlet = NoOutlet;

    type Ids = Zeros;

    ghost asked = { λ o. o.command };

    ghost is_open = { λ _. false };

    ghost faults = { λ o. o.faults };

    fn open(
        &mut self,
        _alloc: Global,
        settings: &ForwardSettings,
        _passed: &PassedNames,
    ) -> Result<Vec<NoOutlet>, OutletFault> {
        let right = self.are_for(settings);
        prove!(right);
        if self.hindrance == Hindrance::Memory {
            return Err(OutletFault::OutOfMemory);
        }
        self.faults = self.faults.saturating_add(1);
        let cause = io::Error::from_raw_os_error(IN_USE);
        match settings.listens.as_slice().first() {
            Some(address) => Err(OutletFault::Address {
                address: *address,
                carrier: Carrier::Datagram,
                cause,
            }),
            None => Err(OutletFault::Poll(cause)),
        }
    }

    fn ids(&self) -> &Zeros {
        &self.ids
    }

    fn shown(&self, _worker: u8) -> Shown {
        Shown {
            report: WorkerReport {
                counts: Counts::new(),
                faults: CallFaults::new(),
            },
            cache: CacheReport {
                records: 0,
                zones: 0,
                chains: 0,
                version: 0,
            },
        }
    }

    fn cause(&self, _call: Call) -> Option<io::Error> {
        None
    }
}
