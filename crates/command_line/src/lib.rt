//! The words of the command line, those after the program's name: which of the nine commands they are, with which values, or what
//! is asked about them, or that they are neither. Those of eight commands are read with `clap`, and those of `forward` here.
//!
//! Of this crate's specs read `specs/Words.antt`, which the contract of `command_of` cites, and `specs/Faults.antt`, which that of
//! `fault_of` cites; `Options` serves the inner steps.
#![tactic(auto)]

mod cause;
mod choosing;
mod command;
mod drafting;
mod fault;
mod file_path;
mod flag;
mod forward_settings;
mod help;
mod matching;
mod name_text;
mod refusal;
mod setting;
mod topic;

pub use cause::Cause;
pub use command::{Command, OutOfMemory, command_of, fault_of};
pub use fault::Fault;
pub use file_path::FilePath;
pub use flag::Flag;
pub use forward_settings::ForwardSettings;
pub use help::{VERSION, VERSION_LINE, help_text};
pub use topic::Topic;
