//! The words of `forward`.
use crate::words::command_in;
use command_line::{Command, ForwardSettings, OutOfMemory};
use std::alloc::Global;
use std::net::{IpAddr, Ipv4Addr, Ipv6Addr, SocketAddr};
use std::test::Fail;

const LEAST: &str = "forward|--listen|192.0.2.1:53|--upstream|127.0.0.1:5353|--workers|1";

const MOST: &str = "forward|--workers=032|--pass|Home.ARPA.|--listen|192.0.2.1:53|--status=/run/a b\
|--listen=[2001:db8::1]:53|--upstream=[::1]:53|--pass=-_.x|--listen|192.0.2.2:53\
|--listen|192.0.2.1:54|--listen|192.0.2.4:53|--listen|192.0.2.5:53|--listen|192.0.2.6:53\
|--listen|127.0.0.1:65535";

fn settings_in(alloc: Global, text: &str) -> Result<Option<ForwardSettings>, OutOfMemory> {
    match command_in(alloc, text)? {
        Some(Command::Forward(settings)) => Ok(Some(settings)),
        _ => Ok(None),
    }
}

fn ipv4(last: u8, port: u16) -> SocketAddr {
    SocketAddr::new(IpAddr::V4(Ipv4Addr::new(192, 0, 2, last)), port)
}

fn loopback(port: u16) -> SocketAddr {
    SocketAddr::new(IpAddr::V4(Ipv4Addr::LOCALHOST), port)
}

fn ipv6(first: u16, second: u16, port: u16) -> SocketAddr {
    SocketAddr::new(
        IpAddr::V6(Ipv6Addr::new(first, second, 0, 0, 0, 0, 0, 1)),
        port,
    )
}

fn is_least(settings: &ForwardSettings) -> bool {
    settings.listens.as_slice() == [ipv4(1, 53)].as_slice()
        && settings.upstream == loopback(5_353)
        && settings.workers == 1
        && settings.passes.is_empty()
        && settings.status.is_none()
}

fn has_names(settings: &ForwardSettings) -> bool {
    let [first, second] = settings.passes.as_slice() else {
        return false;
    };
    first.wire() == b"\x04home\x04arpa\x00".as_slice()
        && second.wire() == b"\x02-_\x01x\x00".as_slice()
}

fn has_file(settings: &ForwardSettings) -> bool {
    match &settings.status {
        Some(file) => file.as_str() == "/run/a b",
        None => false,
    }
}

fn is_most(settings: &ForwardSettings) -> bool {
    let listens = [
        ipv4(1, 53),
        ipv6(0x2001, 0x0db8, 53),
        ipv4(2, 53),
        ipv4(1, 54),
        ipv4(4, 53),
        ipv4(5, 53),
        ipv4(6, 53),
        loopback(65_535),
    ];
    settings.listens.as_slice() == listens.as_slice()
        && settings.upstream == ipv6(0, 0, 53)
        && settings.workers == 32
}

#[test]
fn words_ask_for_a_forwarder(rt: HostRuntime) -> Result<(), Fail> {
    let Some(settings) = settings_in(rt.alloc(), LEAST)? else {
        return Err(Fail::from("no forwarder"));
    };
    assert!(rt; is_least(&settings));
    Ok(())
}

#[test]
fn words_ask_for_all_that_there_is(rt: HostRuntime) -> Result<(), Fail> {
    let Some(settings) = settings_in(rt.alloc(), MOST)? else {
        return Err(Fail::from("no forwarder"));
    };
    assert!(rt; is_most(&settings));
    assert!(rt; has_names(&settings));
    assert!(rt; has_file(&settings));
    Ok(())
}
