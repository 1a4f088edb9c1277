//! Tests of `command_line`.
#![tactic(auto)]

#[cfg(test)]
mod commands;
#[cfg(test)]
mod faults;
#[cfg(test)]
mod forward;
#[cfg(test)]
mod told;
#[cfg(test)]
mod words;
