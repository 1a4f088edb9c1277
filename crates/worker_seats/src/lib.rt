//! Workers on threads: each answers its own frames over its own seat of one cache, and the outputs stand in the order of the
//! inputs. A replay answers by what is proved of a query's question, or by walks from its name on.
//!
//! Of this crate's specs read `specs/Answering.antt`, `WalkReplay`, `Answer`, `OneFrame`, `Shift`, `Workers`, `Merge`, `Cuts`
//! and `Laws`, in this order, and `Frames`; `Work`, `Ranges` and `Gather` serve the inner steps.
#![tactic(auto)]

mod answering;
mod cut;
mod frames;
mod gather;
mod laws;
mod merge;
mod outputs;
mod ranges;
mod rounds;
mod shift;
mod starts;
mod workers;

pub use answering::one_frame;
pub use frames::Frames;
pub use laws::{one_walk_replay, shifts_fit, walk_replies_are_sound};
pub use merge::write_outputs;
pub use outputs::Outputs;
pub use resolver::Answering;
pub use workers::run_workers;
