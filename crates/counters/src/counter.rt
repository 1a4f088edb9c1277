ghost use Rattle.std.specs.Prelude.{◌≡◌, ◌<◌};
ghost use Rattle.counters.specs.Counts.{index_of};

/// What a worker counts.
#[derive(Clone, Copy, Debug, PartialEq, Eq)]
pub enum Counter {
    /// A client's datagram that gets no reply.
    Dropped,
    /// A client's datagram that can't be read (RCODE 1; RFC 1035, section 4.1.1).
    FormatError,
    /// One of another opcode than that of a standard query (RCODE 4).
    NotImplemented,
    /// One of another version of EDNS than 0 (RCODE 16; RFC 6891, section 6.1.3).
    BadVersion,
    /// A query that the cache answers by a set of the name and type.
    Set,
    /// By a denial of the type (RFC 8198, sections 5.1 and 5.2).
    NoData,
    /// By a denial of the name.
    NameError,
    /// By a wildcard (RFC 8198, section 5.3).
    Wildcard,
    /// By way of the name's alias.
    Alias,
    /// By way of a DNAME set above the name (RFC 6672).
    Redirection,
    /// A query that waits for the answer to an equal one.
    Joined,
    /// A query whose question was asked of the upstream.
    Asked,
    /// A waiting question that was asked again by a datagram.
    AskedAgain,
    /// One that was asked again by a stream.
    AskedByStream,
    /// A client that was told of a failed server, since no answer came in time.
    Late,
    /// Since its question was given up for a new one.
    Full,
    /// Since the upstream couldn't read the question.
    Unreadable,
    /// A client that got the upstream's answer, with RCODE 0.
    RelayedNoError,
    /// With RCODE 2.
    RelayedServerFailure,
    /// With RCODE 3.
    RelayedNameError,
    /// With RCODE 5.
    RelayedRefused,
    /// With another one.
    RelayedOther,
    /// A datagram of the upstream that answers no question which waits at its slot: a mistake, or an attack.
    Ignored,
    /// A datagram of the upstream that was passed over, since there was no memory to read it.
    Unread,
    /// An answer of which records were stored.
    Stored,
    /// An answer all of whose records stand at passed names or lead there.
    Passed,
    /// An answer that wasn't stored, since there was no memory.
    Unstored,
    /// An answer of which nothing is stored, since it has no form for that.
    Malformed,
    /// Since it isn't a response to a standard query.
    NotResponse,
    /// Since it was cut.
    Truncated,
    /// Since its extended RCODE is neither 0 nor 3.
    OtherRcode,
    /// Since it wasn't validated.
    NotAuthentic,
    /// Since no group of its records is of a kind that is stored.
    NothingToStore,
}

/// How many counters there are.
pub const COUNTERS: usize = 33;

impl Counter {
    /// All, in order.
    pub const ALL: [Counter; COUNTERS] = [
        Counter::Dropped,
        Counter::FormatError,
        Counter::NotImplemented,
        Counter::BadVersion,
        Counter::Set,
        Counter::NoData,
        Counter::NameError,
        Counter::Wildcard,
        Counter::Alias,
        Counter::Redirection,
        Counter::Joined,
        Counter::Asked,
        Counter::AskedAgain,
        Counter::AskedByStream,
        Counter::Late,
        Counter::Full,
        Counter::Unreadable,
        Counter::RelayedNoError,
        Counter::RelayedServerFailure,
        Counter::RelayedNameError,
        Counter::RelayedRefused,
        Counter::RelayedOther,
        Counter::Ignored,
        Counter::Unread,
        Counter::Stored,
        Counter::Passed,
        Counter::Unstored,
        Counter::Malformed,
        Counter::NotResponse,
        Counter::Truncated,
        Counter::OtherRcode,
        Counter::NotAuthentic,
        Counter::NothingToStore,
    ];

    /// The place among all.
    pub fn index(self) -> usize
        ensures value { result ≡ index_of self }
        ensures within { result < COUNTERS }
    {
        match self {
            Counter::Dropped => 0,
            Counter::FormatError => 1,
            Counter::NotImplemented => 2,
            Counter::BadVersion => 3,
            Counter::Set => 4,
            Counter::NoData => 5,
            Counter::NameError => 6,
            Counter::Wildcard => 7,
            Counter::Alias => 8,
            Counter::Redirection => 9,
            Counter::Joined => 10,
            Counter::Asked => 11,
            Counter::AskedAgain => 12,
            Counter::AskedByStream => 13,
            Counter::Late => 14,
            Counter::Full => 15,
            Counter::Unreadable => 16,
            Counter::RelayedNoError => 17,
            Counter::RelayedServerFailure => 18,
            Counter::RelayedNameError => 19,
            Counter::RelayedRefused => 20,
            Counter::RelayedOther => 21,
            Counter::Ignored => 22,
            Counter::Unread => 23,
            Counter::Stored => 24,
            Counter::Passed => 25,
            Counter::Unstored => 26,
            Counter::Malformed => 27,
            Counter::NotResponse => 28,
            Counter::Truncated => 29,
            Counter::OtherRcode => 30,
            Counter::NotAuthentic => 31,
            Counter::NothingToStore => 32,
        }
    }
}
