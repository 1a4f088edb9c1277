//! Tests of `range_index`.
#![tactic(auto)]

#[cfg(test)]
mod arcs;
