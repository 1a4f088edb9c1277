//! What a replay means: the frames of its input and output, which outputs fit an input for any number of workers, and what a
//! reply says of the zones. Read `specs/Frame.antt`, `OutFrame`, `Step`, `Outcome`, `Fits`, `Sound` and `Replay`, in this
//! order; `Spelling` and `Laws` are the laws.
#![tactic(auto)]

mod frame;
mod laws;
mod out_frame;

pub use frame::{FRAME_HEAD, Frame, FrameKind, read_frame};
pub use laws::{one_output, one_spelling, replies_are_sound};
pub use out_frame::{OutFrame, OutKind};
