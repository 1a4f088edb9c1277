ghost use Rattle.std.specs.Prelude.{◌≡◌, ℕ, ◌<◌, List, [], ◌∷◌, length, map, slice_index_or};
ghost use Rattle.worker_seats.specs.Cuts.{Part, parts_of};

use crate::cut::Cut;
use std::marker::Model;
use std::thread;
use std::thread::Threads;

/// What one worker has written: the octets of its output frames, in the order of its own frames, and where it stood at each cut.
#[derive(Drop)]
pub(crate) struct OnePart {
    pub(crate) octets: Vec<u8>,
    pub(crate) cuts: Vec<Cut>,
}

impl Model for OnePart {
    ghost use Rattle.worker_seats.specs.Cuts.{Part};

    ghost Value = { Part };

    ghost view = { λ p. record { octets = p.octets.items; cuts = p.cuts.items } };
}

/// What workers have written, of each at its number.
#[derive(Drop)]
pub struct Outputs {
    parts: Vec<OnePart>,
}

impl Model for Outputs {
    ghost use Rattle.std.specs.Prelude.{List};
    ghost use Rattle.worker_seats.specs.Cuts.{Part};

    ghost Value = { List Part };

    ghost view = { λ o. o.parts.items };
}

impl Outputs {
    pub(crate) fn of(parts: Vec<OnePart>) -> Outputs
        ensures { result ≡ parts.items }
    {
        Outputs { parts }
    }

    /// How many workers there were.
    pub fn workers(&self) -> usize
        ensures { result ≡ length self.now }
    {
        self.parts.len()
    }

    /// What the worker has written.
    pub fn of_worker(&self, worker: usize) -> &[u8]
        requires { worker < length self.now }
        ensures { (d : Part) → result.now ≡ (slice_index_or self.now worker d).octets }
    {
        self.parts[worker].octets.as_slice()
    }

    /// Room for what all workers wrote between two cuts: the mean, and a quarter more.
    pub(crate) fn room_of_range(&self) -> usize {
        let mut octets: usize = 0;
        let mut ranges: usize = 1;
        for part in &self.parts {
            octets = octets.saturating_add(part.octets.len());
            ranges = ranges.max(part.cuts.len().saturating_add(1));
        }
        let mean = octets / ranges.max(1);
        mean.saturating_add(mean / 4)
    }

    /// Gives the memory back: that of each worker's output on a thread of its own, where one can be started.
    pub fn give_back<R: Threads + Sync>(self, rt: &R) {
        let Outputs { parts } = self;
        let _ = thread::map_vec(rt, parts, &drop_part);
    }

    /// Where it stood at each cut.
    pub(crate) fn cuts_of(&self, worker: usize) -> &[Cut]
        requires { worker < length self.now }
        ensures { (d : Part) → result.now ≡ (slice_index_or self.now worker d).cuts }
    {
        self.parts[worker].cuts.as_slice()
    }
}

fn drop_part(part: OnePart) {
    drop(part);
}
