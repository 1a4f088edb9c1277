//! Tests of `zone_meaning`.
#![tactic(auto)]

#[cfg(test)]
mod zone_table;
