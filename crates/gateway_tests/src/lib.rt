//! Tests of `gateway`.
#![tactic(auto)]

#[cfg(test)]
mod loopback;
#[cfg(test)]
mod memory;
