//! Tests of `zone_maker`.
#![tactic(auto)]

#[cfg(test)]
mod made;
#[cfg(test)]
mod query;
