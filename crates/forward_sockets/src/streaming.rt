//! Octets of streams, as many as go at once.
ghost use Rattle.std.specs.Prelude.{◌≤◌, length, IfOk, IfSome};

use mio::net::TcpStream;
use std::io;
use std::io::{ErrorKind, Read, Write};

// How often a call is made at most, where a signal comes each time.
const TRIES: u32 = 16;

/// Writes the first of the octets, as many as the stream takes now, and tells how many. Where these aren't all, the system tells when it
/// takes more.
pub(crate) fn write_now(stream: &mut TcpStream, octets: &[u8]) -> io::Result<usize>
    ensures { IfOk result (λ count. count ≤ length octets.now) }
{
    for _ in 0..TRIES {
        match stream.write(octets) {
            Ok(count) => return Ok(count),
            Err(cause) => match cause.kind() {
                ErrorKind::Interrupted => {}
                ErrorKind::WouldBlock => return Ok(0),
                _ => return Err(cause),
            },
        }
    }
    Err(io::Error::from(ErrorKind::Interrupted))
}

/// Reads what has come into the buffer, as much as it holds, and tells how much: 0 octets are the stream's end. None where nothing has
/// come.
pub(crate) fn read_now(stream: &mut TcpStream, buffer: &mut [u8]) -> io::Result<Option<usize>>
    ensures { IfOk result (λ count. IfSome count (λ count. count ≤ length buffer.new)) }
{
    for _ in 0..TRIES {
        match stream.read(buffer) {
            Ok(count) => return Ok(Some(count)),
            Err(cause) => match cause.kind() {
                ErrorKind::Interrupted => {}
                ErrorKind::WouldBlock => return Ok(None),
                _ => return Err(cause),
            },
        }
    }
    Err(io::Error::from(ErrorKind::Interrupted))
}

/// The same, and what has come stays to be read.
pub(crate) fn look_now(stream: &TcpStream, buffer: &mut [u8]) -> io::Result<Option<usize>>
    ensures { IfOk result (λ count. IfSome count (λ count. count ≤ length buffer.new)) }
{
    for _ in 0..TRIES {
        match stream.peek(buffer) {
            Ok(count) => return Ok(Some(count)),
            Err(cause) => match cause.kind() {
                ErrorKind::Interrupted => {}
                ErrorKind::WouldBlock => return Ok(None),
                _ => return Err(cause),
            },
        }
    }
    Err(io::Error::from(ErrorKind::Interrupted))
}
