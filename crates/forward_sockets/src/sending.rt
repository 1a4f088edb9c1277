//! Datagrams that are sent.
use std::io;
use std::io::ErrorKind;

// How often a call is made at most.
const TRIES: u32 = 16;

/// Makes a call that sends a datagram, and makes it again where a signal came.
pub(crate) fn sent<F: Fn() -> io::Result<usize>>(send: F) -> io::Result<()>
    requires { F.IsAlwaysCallable send }
{
    for _ in 0..TRIES {
        match send() {
            Ok(_) => return Ok(()),
            Err(cause) => {
                if cause.kind() != ErrorKind::Interrupted {
                    return Err(cause);
                }
            }
        }
    }
    Err(io::Error::from(ErrorKind::Interrupted))
}
