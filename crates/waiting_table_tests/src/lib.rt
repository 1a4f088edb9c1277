//! Tests of `waiting_table`.
#![tactic(auto)]

#[cfg(test)]
mod asked;
#[cfg(test)]
mod questions;
#[cfg(test)]
mod streamed;
#[cfg(test)]
mod ticked;
