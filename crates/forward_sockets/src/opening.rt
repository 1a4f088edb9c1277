//! Sockets whose calls never wait, and what std has no calls for.
ghost use Rattle.std.specs.Prelude.{◌↔◌, pos, ◌≤ℤ◌, IsOk};
ghost use Rattle.libc.specs.Net.{Kind, SockOption};

use crate::address::{any_port_like, encoded};
use libc::net as c;
use mio::net::{TcpListener, TcpStream, UdpSocket};
use os::FromRawFd;
use std::io;
use std::net::SocketAddr;
use std::os::fd::{AsRawFd, OwnedFd, RawFd};

// How many octets of datagrams may wait at a socket, as far as the system allows.
const BUFFER: i32 = 1 << 20;

// The kinds of sockets, whose calls never wait.
const DATAGRAMS: i32 = c::SOCK_DGRAM | c::SOCK_NONBLOCK | c::SOCK_CLOEXEC;

const STREAM: i32 = c::SOCK_STREAM | c::SOCK_NONBLOCK | c::SOCK_CLOEXEC;

/// A socket at an address that others of this user may have too; the system then deals clients out among them. It takes no
/// datagrams of the other family.
pub(crate) fn open_shared(address: SocketAddr) -> io::Result<UdpSocket> {
    let socket = open_like(address)?;
    let fd = socket.as_raw_fd();
    set(fd, c::SOL_SOCKET, c::SO_RCVBUF, BUFFER)?;
    share(fd, address)?;
    bind(fd, address)?;
    Ok(socket)
}

/// A socket of the address's family.
pub(crate) fn open_like(address: SocketAddr) -> io::Result<UdpSocket> {
    Ok(UdpSocket::from(make(address, DATAGRAMS)?))
}

/// Gives the socket a free port.
pub(crate) fn bind_like(socket: &UdpSocket, address: SocketAddr) -> io::Result<()> {
    bind(socket.as_raw_fd(), any_port_like(address))
}

/// A socket that takes connections at an address, as `open_shared` takes datagrams. As many may wait as the system allows.
pub(crate) fn listen_shared(address: SocketAddr) -> io::Result<TcpListener> {
    let socket = make(address, STREAM)?;
    let fd = socket.as_raw_fd();
    // Connections of an earlier process may still be known to the system.
    set(fd, c::SOL_SOCKET, c::SO_REUSEADDR, 1)?;
    share(fd, address)?;
    bind(fd, address)?;
    check(c::listen(fd, i32::MAX))?;
    Ok(TcpListener::from(socket))
}

/// Begins to connect to an address, and returns at once.
pub(crate) fn connect_to(address: SocketAddr) -> io::Result<TcpStream> {
    let socket = make(address, STREAM)?;
    let (raw, octets) = encoded(address);
    // C reads so many of the 128 octets, and no more.
    match check(unsafe { c::connect(socket.as_raw_fd(), &raw, octets) }) {
        Err(cause) if cause.raw_os_error() != Some(libc::EINPROGRESS) => Err(cause),
        _ => Ok(TcpStream::from(socket)),
    }
}

// A socket of the address's family.
fn make(address: SocketAddr, kind: i32) -> io::Result<OwnedFd>
    requires { Kind kind }
{
    let fd = match address {
        // It reads and writes no memory of ours.
        SocketAddr::V4(_) => unsafe { c::socket(c::AF_INET, kind, 0) },
        // It reads and writes no memory of ours.
        SocketAddr::V6(_) => unsafe { c::socket(c::AF_INET6, kind, 0) },
    };
    check(fd)?;
    // It was just made, so nothing else closes it.
    Ok(unsafe { OwnedFd::from_raw_fd(fd) })
}

// Others of this user may have the address too, but clients of the other family have not.
fn share(fd: RawFd, address: SocketAddr) -> io::Result<()> {
    set(fd, c::SOL_SOCKET, c::SO_REUSEPORT, 1)?;
    if let SocketAddr::V6(_) = address {
        set(fd, c::IPPROTO_IPV6, c::IPV6_V6ONLY, 1)?;
    }
    Ok(())
}

fn set(fd: RawFd, level: i32, name: i32, number: i32) -> io::Result<()>
    requires { SockOption level name }
{
    // C reads four octets of the value, which has sixteen.
    check(unsafe { c::setsockopt(fd, level, name, &value_of(number), 4) })
}

fn bind(fd: RawFd, address: SocketAddr) -> io::Result<()> {
    let (raw, octets) = encoded(address);
    // C reads so many of the 128 octets, and no more.
    check(unsafe { c::bind(fd, &raw, octets) })
}

fn value_of(number: i32) -> [u8; 16] {
    let mut value = [0; 16];
    value[..4].copy_from_slice(&number.to_ne_bytes());
    value
}

// The error of the call that has just answered this, if it failed.
fn check(status: i32) -> io::Result<()>
    ensures { IsOk result ↔ (pos 0 ≤ℤ status) }
{
    if status < 0 {
        Err(io::Error::from_raw_os_error(os::errno()))
    } else {
        Ok(())
    }
}
