//! Cuts between two ranges of the frames, so that each range can be merged by itself.

/// How many frames a range has; the last one may have fewer. Their outputs are merged by one thread, into one buffer.
pub(crate) const RANGE: usize = 8192;

/// A cut as a worker saw it: how many octets of the input there are before it, and how many the worker had written by then.
#[derive(Clone, Copy)]
pub struct Cut {
    pub(crate) from: usize,
    pub(crate) place: usize,
}
