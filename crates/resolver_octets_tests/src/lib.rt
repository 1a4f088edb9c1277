//! Tests of what `resolver` answers by octets.
#![tactic(auto)]

#[cfg(test)]
mod inserts;
#[cfg(test)]
mod messages;
#[cfg(test)]
mod queries;
