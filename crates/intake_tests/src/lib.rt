//! Tests of `intake`.
#![tactic(auto)]

#[cfg(test)]
mod batches;
#[cfg(test)]
mod draft;
#[cfg(test)]
mod large;
#[cfg(test)]
mod rules;
#[cfg(test)]
mod told;
