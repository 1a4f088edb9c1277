/// What became of a query's octets.
#[derive(Clone, Copy, Debug, PartialEq, Eq)]
pub enum QueryOutcome {
    /// The records held prove an answer, or lead to one; the reply is written.
    Answered,
    /// They don't: the query is to be resolved. There is no reply.
    Forward,
    /// They get no reply: fewer than 12 octets, or a response.
    Dropped,
    /// The reply tells the query's fault.
    Error,
}
