//! Tests of `outside_core`.
#![tactic(auto)]

#[cfg(test)]
mod clock;
#[cfg(test)]
mod links;
#[cfg(test)]
mod streams;
#[cfg(test)]
mod udp;
