//! The tests of `worker_seats`, which cite its public calls alone.
#![tactic(auto)]

#[cfg(test)]
mod meeting;
#[cfg(test)]
mod messages;
#[cfg(test)]
mod pairs;
#[cfg(test)]
mod ranges;
#[cfg(test)]
mod running;
