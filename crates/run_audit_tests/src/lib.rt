//! Tests of `run_audit`.
#![tactic(auto)]

#[cfg(test)]
mod line;
#[cfg(test)]
mod runs;
