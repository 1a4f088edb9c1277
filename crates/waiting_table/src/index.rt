ghost use Rattle.std.specs.Prelude.{◌≡◌, ◌<◌, false, replicate, set, true};
ghost use Rattle.waiting_table.specs.Index.{IsFirstFree, IsLeast, index_of};

use crate::waiting_table::SLOTS;

/// What is kept beside the slots, so that a pass over all reads a few octets of each.
#[derive(Drop)]
pub(crate) struct Index {
    pub(crate) taken: [bool; SLOTS],
    /// Equal where questions are.
    pub(crate) marks: [u32; SLOTS],
    /// When the question was asked first.
    pub(crate) since: [u64; SLOTS],
    /// Before that moment a tick does nothing to the question.
    pub(crate) until: [u64; SLOTS],
}

impl Index {
    /// All slots are free.
    pub(crate) fn new() -> Index
        ensures { result ≡ index_of (replicate SLOTS false)
            (replicate SLOTS 0) (replicate SLOTS 0) (replicate SLOTS 0) }
    {
        Index {
            taken: [false; SLOTS],
            marks: [0; SLOTS],
            since: [0; SLOTS],
            until: [0; SLOTS],
        }
    }

    /// The slot is taken by a question.
    pub(crate) fn fill(&mut self, slot: usize, mark: u32, now: u64, until: u64)
        requires { slot < SLOTS }
        ensures { self.new ≡ index_of (set self.old.taken slot true)
            (set self.old.marks slot mark) (set self.old.since slot now)
            (set self.old.until slot until) }
    {
        self.taken[slot] = true;
        self.marks[slot] = mark;
        self.since[slot] = now;
        self.until[slot] = until;
    }

    pub(crate) fn first_free(&self) -> Option<usize>
        ensures { IsFirstFree self.now.taken result }
    {
        for slot in 0..SLOTS {
            if !self.taken[slot] {
                return Some(slot);
            }
        }
        None
    }

    /// The first of the slots whose questions were asked first the longest ago.
    pub(crate) fn oldest(&self) -> usize
        ensures { IsLeast self.now.since result }
    {
        let mut oldest = 0;
        for slot in 0..SLOTS {
            if self.since[slot] < self.since[oldest] {
                oldest = slot;
            }
        }
        oldest
    }
}
