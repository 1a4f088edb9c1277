//! Tests of `reply_core`.
#![tactic(auto)]

#[cfg(test)]
mod ask;
#[cfg(test)]
mod error;
#[cfg(test)]
mod long_reply;
#[cfg(test)]
mod made;
#[cfg(test)]
mod relay;
#[cfg(test)]
mod reply;
#[cfg(test)]
mod reply_buffer;
#[cfg(test)]
mod sections;
#[cfg(test)]
mod within;
