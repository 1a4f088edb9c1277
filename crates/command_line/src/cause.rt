use std::fmt;

/// What is wrong with an option of `forward`, or with its value. Where several are, the first of these is told that can be seen
/// without the options behind it.
#[derive(Clone, Copy, Debug, PartialEq, Eq)]
pub enum Cause {
    /// `--upstream`, `--workers` or `--status` was given before.
    GivenTwice,
    /// Eight addresses are listened at already.
    TooManyListens,
    /// Sixteen names are passed already.
    TooManyPasses,
    /// The value is no address with a port.
    NoAddress,
    /// The address is 0.0.0.0 or ::, which stand for every address of the machine.
    EveryAddress,
    /// The address is an IPv4-mapped IPv6 address, as ::ffff:192.0.2.1, which stands for an IPv4 address.
    MappedAddress,
    /// The port is 0.
    NoPort,
    /// The address and port are listened at already.
    ListenedTwice,
    /// The upstream server is at an address and port at which the program listens.
    UpstreamListened,
    /// The value is no number from 1 to 32.
    NoWorkers,
    /// The value is no domain name, or the root.
    NoName,
    /// The value is empty.
    NoPath,
}

impl fmt::Display for Cause {
    fn fmt<W: fmt::Write>(&self, f: &mut fmt::Formatter<W>) -> fmt::Result {
        f.write_str(match self {
            Cause::GivenTwice => "is given twice",
            Cause::TooManyListens => "is a ninth address",
            Cause::TooManyPasses => "is a seventeenth name",
            Cause::NoAddress => "is no address with a port",
            Cause::EveryAddress => "stands for every address of the machine",
            Cause::MappedAddress => "is an IPv4 address written as an IPv6 one",
            Cause::NoPort => "has port 0",
            Cause::ListenedTwice => "is listened at already",
            Cause::UpstreamListened => "is both listened at and upstream",
            Cause::NoWorkers => "is no number from 1 to 32",
            Cause::NoName => "is no domain name below the root",
            Cause::NoPath => "is an empty path",
        })
    }
}
