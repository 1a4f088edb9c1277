//! The tests of `forwarding`: a worker over an outlet in memory, event by event.
#![tactic(auto)]

#[cfg(test)]
mod answers;
#[cfg(test)]
mod clocks;
#[cfg(test)]
mod counts;
#[cfg(test)]
mod errors;
#[cfg(test)]
mod leading;
#[cfg(test)]
mod loaded;
#[cfg(test)]
mod many;
#[cfg(test)]
mod marks;
#[cfg(test)]
mod memory;
#[cfg(test)]
mod messages;
#[cfg(test)]
mod origins;
#[cfg(test)]
mod parties;
#[cfg(test)]
mod passed;
#[cfg(test)]
mod questions;
#[cfg(test)]
mod row;
#[cfg(test)]
mod script;
#[cfg(test)]
mod served;
#[cfg(test)]
mod streamed;
#[cfg(test)]
mod ticks;
#[cfg(test)]
mod writing;
