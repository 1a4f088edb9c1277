//! An address as C reads it.
ghost use Rattle.std.specs.Prelude.{◌≡◌, ◌+◌, ◌≤◌, length};
ghost use Rattle.mio.specs.SockAddr as spec;

use libc::net as c;
use std::net::{Ipv4Addr, Ipv6Addr, SocketAddr, SocketAddrV4, SocketAddrV6};

// The octets of C's `sockaddr_in` and `sockaddr_in6`.
const V4_OCTETS: u32 = 16;

const V6_OCTETS: u32 = 28;

/// The octets, and how many of them C is to read.
pub(crate) fn encoded(address: SocketAddr) -> ([u8; c::_SS_SIZE], u32)
    ensures octets { result ≡ spec.sockaddr address }
    ensures within { result.1 ≤ 128 }
{
    match address {
        SocketAddr::V4(address) => (encoded_v4(address), V4_OCTETS),
        SocketAddr::V6(address) => (encoded_v6(address), V6_OCTETS),
    }
}

fn encoded_v4(address: SocketAddrV4) -> [u8; c::_SS_SIZE]
    ensures { result ≡ spec.sockaddr_in address }
{
    let mut raw = family_and_port(c::AF_INET as u16, address.port());
    put(&mut raw, 4, &address.ip().octets());
    raw
}

fn encoded_v6(address: SocketAddrV6) -> [u8; c::_SS_SIZE]
    ensures { result ≡ spec.sockaddr_in6 address }
{
    let mut raw = family_and_port(c::AF_INET6 as u16, address.port());
    put(&mut raw, 4, &address.flowinfo().to_ne_bytes());
    put(&mut raw, 8, &address.ip().octets());
    put(&mut raw, 24, &address.scope_id().to_ne_bytes());
    raw
}

fn family_and_port(family: u16, port: u16) -> [u8; c::_SS_SIZE]
    ensures { result ≡ spec.family_and_port family port }
{
    let mut raw = [0; c::_SS_SIZE];
    put(&mut raw, 0, &family.to_ne_bytes());
    put(&mut raw, 2, &port.to_be_bytes());
    raw
}

fn put(raw: &mut [u8; c::_SS_SIZE], at: usize, octets: &[u8])
    requires { at + length octets.now ≤ 128 }
    ensures { raw.new ≡ spec.put raw.old at octets.now }
{
    raw[at..at + octets.len()].copy_from_slice(octets);
}

/// A free port of any address of the same family.
pub(crate) fn any_port_like(address: SocketAddr) -> SocketAddr {
    match address {
        SocketAddr::V4(_) => SocketAddr::V4(SocketAddrV4::new(Ipv4Addr::UNSPECIFIED, 0)),
        SocketAddr::V6(_) => SocketAddr::V6(SocketAddrV6::new(Ipv6Addr::UNSPECIFIED, 0, 0, 0)),
    }
}
