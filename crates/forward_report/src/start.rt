ghost use Rattle.std.specs.Prelude.{◌≡◌, ◌++◌, IfOk, OnOk, string_bytes};
ghost use Rattle.forward_report.specs.Start.{IsLoopback, addresses_text, start_line, upstream_text, version_text, warning_line};

use std::alloc::{AllocError, Global};
use std::net::SocketAddr;

/// What is told at the start: a line with the program's version, the addresses listened at, the upstream and the number of workers,
/// and a second one where the upstream is no loopback address. What is on the way from there can set AD, since nobody signs it.
pub fn start_text(
    alloc: Global,
    version: &str,
    listening: &[SocketAddr],
    upstream: SocketAddr,
    workers: usize,
) -> Result<String, AllocError>
    ensures near { IsLoopback upstream → IfOk result
        (λ text. string_bytes text ≡ start_line version.now listening.now upstream workers) }
    ensures far { ¬ (IsLoopback upstream) → IfOk result
        (λ text. string_bytes text
        ≡ start_line version.now listening.now upstream workers ++ warning_line upstream) }
{
    let mut text = String::new(alloc);
    put_start(&mut text, version, listening, upstream, workers)?;
    if upstream.ip().is_loopback() {
        return Ok(text);
    }
    put_warning(&mut text, upstream)?;
    Ok(text)
}

fn put_start(
    text: &mut String,
    version: &str,
    listening: &[SocketAddr],
    upstream: SocketAddr,
    workers: usize,
) -> Result<(), AllocError>
    ensures { OnOk result (string_bytes text.new
        ≡ string_bytes text.old ++ start_line version.now listening.now upstream workers) }
{
    put_version(text, version)?;
    put_addresses(text, listening)?;
    put_upstream(text, upstream, workers)?;
    Ok(())
}

fn put_version(text: &mut String, version: &str) -> Result<(), AllocError>
    ensures { OnOk result
        (string_bytes text.new ≡ string_bytes text.old ++ version_text version.now) }
{
    write!(text, "dnsreplay {version} listens at")
}

fn put_addresses(text: &mut String, addresses: &[SocketAddr]) -> Result<(), AllocError>
    ensures { OnOk result
        (string_bytes text.new ≡ string_bytes text.old ++ addresses_text addresses.now) }
{
    for address in addresses {
        write!(text, " {address}")?;
    }
    Ok(())
}

fn put_upstream(text: &mut String, upstream: SocketAddr, workers: usize) -> Result<(), AllocError>
    ensures { OnOk result
        (string_bytes text.new ≡ string_bytes text.old ++ upstream_text upstream workers) }
{
    writeln!(text, ", asks {upstream}, workers: {workers}")
}

fn put_warning(text: &mut String, upstream: SocketAddr) -> Result<(), AllocError>
    ensures { OnOk result
        (string_bytes text.new ≡ string_bytes text.old ++ warning_line upstream) }
{
    writeln!(
        text,
        "dnsreplay: warning: {upstream} is not a loopback address, and nobody signs for AD on the way"
    )
}
