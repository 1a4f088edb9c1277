//! What comes to a worker: when, from whom, and by what.
#![tactic(auto)]

mod came;
mod carrier;
mod event;
mod moment;

pub use came::Came;
pub use carrier::Carrier;
pub use event::{Event, MAX_MESSAGE, MessageOctets};
pub use moment::Moment;
