//! What is told by `--help` and `--version`.
ghost use Rattle.std.specs.Prelude.{◌≡◌};
ghost use Rattle.command_line.specs.Help.{help_of};

use crate::topic::Topic;

// The version's number between two texts.
macro_rules! number {
    ($before:literal, $after:literal) => {
        concat!($before, "1.0.0", $after)
    };
}

/// The program's version.
pub const VERSION: &str = number!("", "");

/// What is told by `--version`: the program's name and its version, as a line.
pub const VERSION_LINE: &str = number!("dnsreplay ", "\n");

const PROGRAM: &str = "The aggressive answering cache of a validating DNS resolver (RFC 8198).

Usage: dnsreplay COMMAND [OPTION]..

Commands:
  replay    Answer frames of queries and upstream answers
  chase     Do so by way of aliases too
  redirect  Do so by way of a redirection too
  follow    Do so by way of both too
  selfrun   Make a zone, and tell what becomes of queries about it
  serve     Answer so many datagrams on loopback, and ask a resolver the rest
  tcp       Answer so many connections on loopback
  audit     Audit a recorded run against a zone
  forward   Answer clients without end, and ask a resolver the rest

Options, alone or behind a command:
  --help     Tell this, or how the command is called
  --version  Tell the version
";

const REPLAY: &str = "Reads frames to the input's end, and writes a frame for each.

Usage: dnsreplay replay --workers N

Options:
  --workers N  How many workers share the cache, 1 to 32
";

const CHASE: &str = "Does as `replay --workers 1`, and answers by way of up to eight aliases too.

Usage: dnsreplay chase
";

const REDIRECT: &str = "Does as `replay --workers 1`, and answers by way of one redirection too.

Usage: dnsreplay redirect
";

const FOLLOW: &str = "Does as `replay --workers 1`, and answers by way of up to eight aliases and
redirections too.

Usage: dnsreplay follow
";

const SELFRUN: &str = "Makes a zone, asks queries about it, and writes what became of them.

Usage: dnsreplay selfrun --seed S --names M --queries Q

Options:
  --seed S     What the zone and the queries are made from, 0 to 4294967295
  --names M    How many names the zone has, 1 to 10000
  --queries Q  How many queries are asked, 0 to 100000
";

const SERVE: &str = "Answers datagrams on loopback from the cache, and asks a validating resolver
the rest.

Usage: dnsreplay serve --listen P --upstream U --workers N --datagrams D

Options:
  --listen P     The first worker's port; each further worker has the next one
  --upstream U   The resolver's port, which is none of them
  --workers N    How many workers there are, 1 to 32
  --datagrams D  After how many datagrams each of them ends, 1 to 5000
";

const TCP: &str = "Reads frames to the input's end, and then answers connections on loopback
from what they have stored.

Usage: dnsreplay tcp --listen P --connections C

Options:
  --listen P       The port, 1 to 65535
  --connections C  After how many connections it ends, 1 to 100
";

const AUDIT: &str = "Reads a zone and a recorded run, and writes a line: yes, or what is first
wrong.

Usage: dnsreplay audit
";

const FORWARD: &str = "Answers clients from the cache without end, and asks a validating resolver
the rest.

Usage: dnsreplay forward --listen ADDRESS:PORT.. --upstream ADDRESS:PORT
                         --workers N [--pass NAME].. [--status FILE]

Options:
  --listen ADDRESS:PORT    Where it listens, as 127.0.0.1:53 or [::1]:53; up
                           to eight times
  --upstream ADDRESS:PORT  The resolver
  --workers N              How many workers there are, 1 to 32
  --pass NAME              What is at the name or below is always asked; up
                           to 16 times
  --status FILE            Where it writes what it counts
";

/// What is told by `--help`, of a command or of the program.
pub fn help_text(topic: Option<Topic>) -> &'static str
    ensures { result.now ≡ help_of topic }
{
    match topic {
        None => PROGRAM,
        Some(Topic::Replay) => REPLAY,
        Some(Topic::Selfrun) => SELFRUN,
        Some(Topic::Serve) => SERVE,
        Some(Topic::Chase) => CHASE,
        Some(Topic::Redirect) => REDIRECT,
        Some(Topic::Follow) => FOLLOW,
        Some(Topic::Tcp) => TCP,
        Some(Topic::Audit) => AUDIT,
        Some(Topic::Forward) => FORWARD,
    }
}
