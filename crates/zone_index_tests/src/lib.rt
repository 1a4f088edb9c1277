//! Tests of `zone_index`.
#![tactic(auto)]

#[cfg(test)]
mod worked_zones;
#[cfg(test)]
mod zone_search;
