//! Tests of `stream_clients`.
#![tactic(auto)]

#[cfg(test)]
mod idle;
#[cfg(test)]
mod messages;
#[cfg(test)]
mod numbers;
#[cfg(test)]
mod replies;
