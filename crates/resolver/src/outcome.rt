/// What becomes of a query, with the number of the one version that it read.
#[derive(Clone, Copy, Debug, PartialEq, Eq)]
pub enum Outcome {
    /// The version's records prove an answer: the buffer holds the reply.
    Answered { version: u64 },
    /// They prove none: the buffer is empty.
    Forward { version: u64 },
}
