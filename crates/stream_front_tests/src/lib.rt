//! Tests of `stream_front`.
#![tactic(auto)]

#[cfg(test)]
mod cuts;
#[cfg(test)]
mod lengths;
#[cfg(test)]
mod messages;
#[cfg(test)]
mod reads;
