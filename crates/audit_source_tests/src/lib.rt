//! Tests of `audit_source`.
#![tactic(auto)]

#[cfg(test)]
mod source;
