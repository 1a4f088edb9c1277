ghost use Rattle.std.specs.Prelude.{◌≡◌, ◌++◌, IfOk, OnOk, string_bytes};
ghost use Rattle.forward_report.specs.Lines.{failed_line, failed_of, notice_text_of};

use crate::Call;
use std::alloc::{AllocError, Global};

/// What is to be told on a line.
#[derive(Clone, Copy, Debug, PartialEq, Eq)]
pub struct Notice {
    pub what: What,
    /// Of a call: how often it has failed since its last line. Of the upstream: how many clients were told of a failed server
    /// since its last answer.
    pub count: u64,
}

#[derive(Clone, Copy, Debug, PartialEq, Eq)]
pub enum What {
    /// The call failed.
    Failed(Call),
    /// The upstream is silent.
    Silent,
    /// It answers again.
    Back,
}

/// The line, ended by a line feed. The cause is that of the call's last failure; the upstream's lines have none.
pub fn notice_text(alloc: Global, notice: Notice, cause: &str) -> Result<String, AllocError>
    ensures { IfOk result
        (λ text. string_bytes text ≡ notice_text_of notice.what notice.count cause.now) }
{
    let mut text = String::new(alloc);
    let count = notice.count;
    match notice.what {
        What::Failed(call) => put_failed(&mut text, failed_of(call), count, cause)?,
        What::Silent => writeln!(
            text,
            "dnsreplay: the upstream is silent; clients that got SERVFAIL since its last answer: {count}"
        )?,
        What::Back => writeln!(
            text,
            "dnsreplay: the upstream answers again; clients that got SERVFAIL meanwhile: {count}"
        )?,
    }
    Ok(text)
}

fn put_failed(text: &mut String, failed: &str, count: u64, cause: &str) -> Result<(), AllocError>
    ensures { OnOk result
        (string_bytes text.new ≡ string_bytes text.old ++ failed_line failed.now count cause.now) }
{
    writeln!(
        text,
        "dnsreplay: {failed} in the last minute: {count}, the last for: {cause}"
    )?;
    Ok(())
}

fn failed_of(call: Call) -> &'static str
    ensures { result.now ≡ failed_of call }
{
    match call {
        Call::Wait => "waits for sockets that failed",
        Call::ReceiveQuery => "queries that could not be received",
        Call::ReceiveAnswer => "answers that could not be received",
        Call::Reply => "replies that could not be sent",
        Call::Socket => "sockets that could not be made",
        Call::Bind => "sockets that could not be bound",
        Call::Connect => "sockets that could not be connected",
        Call::Watch => "sockets that could not be watched",
        Call::Send => "questions that could not be sent",
        Call::Accept => "connections of clients that could not be accepted",
        Call::ConnectStream => "streams that could not be connected",
        Call::ReadStream => "streams that could not be read",
        Call::WriteStream => "streams that could not be written",
    }
}
