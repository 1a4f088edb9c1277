/// Where a client waits for the answer to its question.
#[derive(Clone, Copy, Debug, PartialEq, Eq)]
pub enum Place {
    /// The slot's question is the same, and has fewer than 16 clients.
    Joins { slot: usize },
    /// The slot is free.
    Fills { slot: usize },
    /// No slot is free, and the slot's question has waited longest: it is given up.
    Replaces { slot: usize },
}
