//! Tests of `zone_chains`, over its public calls.
#![tactic(auto)]

#[cfg(test)]
mod hashes;
#[cfg(test)]
mod records;
#[cfg(test)]
mod zone_records;
