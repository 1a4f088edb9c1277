use dname::Name;
use dnswire::Question;

/// What comes to the table of the queries that wait for the upstream.
pub enum Event<'a> {
    /// A client's query is to be asked of the upstream, at a moment in seconds.
    Ask {
        client: u64,
        question: &'a Question,
        now: u32,
    },
    /// The upstream answered with this ID and question.
    Came {
        id: u16,
        name: &'a Name,
        qtype: u16,
        qclass: u16,
    },
}
