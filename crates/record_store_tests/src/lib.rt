//! Tests of `record_store`, over its public calls.
#![tactic(auto)]

#[cfg(test)]
mod again;
#[cfg(test)]
mod against_the_plain_store;
#[cfg(test)]
mod aliases;
#[cfg(test)]
mod counted;
#[cfg(test)]
mod full;
#[cfg(test)]
mod gauges;
#[cfg(test)]
mod records;
