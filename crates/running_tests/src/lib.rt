//! The tests of `running`, which cite its public calls alone.
#![tactic(auto)]

#[cfg(test)]
mod audits;
#[cfg(test)]
mod connections;
#[cfg(test)]
mod cuts;
#[cfg(test)]
mod ends;
#[cfg(test)]
mod forwards;
#[cfg(test)]
mod gates;
#[cfg(test)]
mod hostile;
#[cfg(test)]
mod life;
#[cfg(test)]
mod machine;
#[cfg(test)]
mod message;
#[cfg(test)]
mod no_outlet;
#[cfg(test)]
mod pairs;
#[cfg(test)]
mod port;
#[cfg(test)]
mod replays;
#[cfg(test)]
mod selfrun;
#[cfg(test)]
mod serve;
#[cfg(test)]
mod shut_outlets;
#[cfg(test)]
mod sockets;
#[cfg(test)]
mod walks;
