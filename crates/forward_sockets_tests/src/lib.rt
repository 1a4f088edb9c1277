//! Tests of `forward_sockets`, with both ends in this process. Each wait ends after five seconds, if not sooner.
#![tactic(auto)]

#[cfg(test)]
mod asked_streams;
#[cfg(test)]
mod clients;
#[cfg(test)]
mod opening;
#[cfg(test)]
mod order;
#[cfg(test)]
mod overdue;
#[cfg(test)]
mod scene;
#[cfg(test)]
mod slots;
#[cfg(test)]
mod stream_scene;
#[cfg(test)]
mod streams;
#[cfg(test)]
mod ticks;
