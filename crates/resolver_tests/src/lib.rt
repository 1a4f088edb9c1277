//! Tests of `resolver`.
#![tactic(auto)]

#[cfg(test)]
mod against_the_plain_store;
#[cfg(test)]
mod records;
#[cfg(test)]
mod shared;
#[cfg(test)]
mod worked_cases;
#[cfg(test)]
mod zones_of_rfcs;
