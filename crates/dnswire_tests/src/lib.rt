//! Tests of `dnswire`.
#![tactic(auto)]

#[cfg(test)]
mod data;
#[cfg(test)]
mod flags;
#[cfg(test)]
mod messages;
#[cfg(test)]
mod names;
#[cfg(test)]
mod pieces;
#[cfg(test)]
mod queries;
