//! Tests of `cache_meaning`.
#![tactic(auto)]

#[cfg(test)]
mod plain_store;
