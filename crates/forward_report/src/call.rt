ghost use Rattle.std.specs.Prelude.{◌≡◌, ◌<◌};
ghost use Rattle.forward_report.specs.Calls.{place_of};

/// A call of the system that a worker makes for its sockets, and that can fail.
#[derive(Clone, Copy, Debug, PartialEq, Eq)]
pub enum Call {
    /// To wait until a socket has something.
    Wait,
    /// To receive from a client.
    ReceiveQuery,
    /// To receive from the upstream. It fails too where nobody listens at the upstream's address.
    ReceiveAnswer,
    /// To send to a client. It fails too where no client waits for the reply.
    Reply,
    /// To make a socket for a question.
    Socket,
    /// To bind that socket to a free port.
    Bind,
    /// To connect it to the upstream.
    Connect,
    /// To have it watched.
    Watch,
    /// To send the question.
    Send,
    /// To accept a client's connection. It fails too where as many are open as may be.
    Accept,
    /// To connect a stream to the upstream.
    ConnectStream,
    /// To read a stream, a client's or one to the upstream. It fails too where the upstream ends one without an answer, and
    /// where a client asks too much at once.
    ReadStream,
    /// To write a stream, a client's or one to the upstream.
    WriteStream,
}

/// How many calls there are.
pub const CALLS: usize = 13;

impl Call {
    /// All, in order.
    pub const ALL: [Call; CALLS] = [
        Call::Wait,
        Call::ReceiveQuery,
        Call::ReceiveAnswer,
        Call::Reply,
        Call::Socket,
        Call::Bind,
        Call::Connect,
        Call::Watch,
        Call::Send,
        Call::Accept,
        Call::ConnectStream,
        Call::ReadStream,
        Call::WriteStream,
    ];

    /// The place among all.
    pub fn place(self) -> usize
        ensures value { result ≡ place_of self }
        ensures within { result < CALLS }
    {
        match self {
            Call::Wait => 0,
            Call::ReceiveQuery => 1,
            Call::ReceiveAnswer => 2,
            Call::Reply => 3,
            Call::Socket => 4,
            Call::Bind => 5,
            Call::Connect => 6,
            Call::Watch => 7,
            Call::Send => 8,
            Call::Accept => 9,
            Call::ConnectStream => 10,
            Call::ReadStream => 11,
            Call::WriteStream => 12,
        }
    }
}
