//! Tests of `forward_report`.
#![tactic(auto)]

#[cfg(test)]
mod lines;
#[cfg(test)]
mod notices;
#[cfg(test)]
mod status;
