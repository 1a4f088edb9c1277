//! The tests of `serving`, which cite its public calls alone.
#![tactic(auto)]

#[cfg(test)]
mod faults;
#[cfg(test)]
mod forwarder;
#[cfg(test)]
mod meeting;
#[cfg(test)]
mod messages;
#[cfg(test)]
mod moments;
#[cfg(test)]
mod moving;
#[cfg(test)]
mod row;
#[cfg(test)]
mod sent;
#[cfg(test)]
mod table;
#[cfg(test)]
mod together;
#[cfg(test)]
mod waiting;
#[cfg(test)]
mod went;
