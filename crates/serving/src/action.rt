use dnswire::Question;

/// What is to be done of an event.
#[derive(Debug, Drop)]
pub enum Action {
    /// The query is sent to the upstream with this ID.
    Send { id: u16 },
    /// No slot is free: the client is told of a server failure (RFC 1035, section 4.1.1).
    ServFail,
    /// The answer is relayed to the client, as the answer to its own question.
    Relay { client: u64, question: Question },
    /// No query waits for the answer.
    Ignored,
}
