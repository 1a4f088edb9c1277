//! Tests of `stream_server`.
#![tactic(auto)]

#[cfg(test)]
mod connections;
#[cfg(test)]
mod messages;
#[cfg(test)]
mod pieces;
#[cfg(test)]
mod row;
#[cfg(test)]
mod rows;
#[cfg(test)]
mod sockets;
#[cfg(test)]
mod texts;
