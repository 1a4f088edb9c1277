ghost use Rattle.std.specs.Prelude.{◌≡◌};
ghost use Rattle.std.specs.Process.{exit_status};
ghost use Rattle.running.specs.Status.{status_number};

use std::process::ExitCode;

/// How a run ended.
#[derive(Clone, Copy, Debug, PartialEq, Eq)]
pub enum Status {
    Good,
    /// The words aren't a command.
    Usage,
    /// The source failed.
    ReadFault,
    /// The input doesn't spell frames for the workers.
    BadFrame,
    /// The sink failed.
    WriteFault,
    OutOfMemory,
    /// The input is longer than the longest that is taken.
    InputTooLong,
    /// A link of the harbor couldn't be bound, or failed.
    HarborFault,
    /// The gateway couldn't listen or accept, or a connection failed.
    GatewayFault,
    /// The outlets of a forwarder couldn't be opened. It has said why.
    ListenFault,
    /// A thread of a forwarder couldn't be started. It has said so.
    ThreadFault,
}

impl Status {
    /// What the program ends with.
    pub fn exit_code(self) -> ExitCode
        ensures { exit_status result ≡ status_number self }
    {
        ExitCode::from(self.number())
    }

    /// What the program says of it, without its name before, where that hasn't been said.
    pub fn line(self) -> Option<&'static str> {
        match self {
            Status::Good => None,
            Status::Usage => Some(
                "usage: replay --workers N; selfrun --seed S --names M --queries Q; serve --listen P --upstream U --workers N --datagrams D; chase; redirect; follow; tcp --listen P --connections C; audit",
            ),
            Status::ReadFault => Some("read fault"),
            Status::BadFrame => Some("bad frame"),
            Status::WriteFault => Some("write fault"),
            Status::OutOfMemory => Some("out of memory"),
            Status::InputTooLong => Some("input too long"),
            Status::HarborFault | Status::GatewayFault => Some("link fault"),
            Status::ListenFault | Status::ThreadFault => None,
        }
    }

    fn number(self) -> u8
        ensures { result ≡ status_number self }
    {
        match self {
            Status::Good => 0,
            Status::Usage => 2,
            Status::ReadFault => 3,
            Status::BadFrame => 4,
            Status::WriteFault => 5,
            Status::OutOfMemory | Status::ThreadFault => 6,
            Status::InputTooLong => 7,
            Status::HarborFault | Status::GatewayFault | Status::ListenFault => 8,
        }
    }
}
