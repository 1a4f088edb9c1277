//! `dnsreplay`: frames of queries and upstream answers in, frames of what becomes of them out; or datagrams or connections on
//! loopback; or an audit of a recorded run; or a forwarder that never ends. `run_here` of `running`, which `main` calls, carries
//! the headline.
#![tactic(auto)]

use command_line::fault_of;
use outside_core::{StreamSink, StreamSource};
use running::{Status, run_here};
use std::process::ExitCode;
use std::{env, io};

fn main(rt: HostRuntime) -> ExitCode {
    let mut source = StreamSource::over(rt.stdin());
    let mut sink = StreamSink::over(rt.stdout());
    match words_of(&rt) {
        Ok(words) => {
            let status = run_here(
                &rt,
                rt.alloc(),
                &words,
                &mut source,
                &mut sink,
                &rt,
                &rt,
                &rt,
            );
            tell(&rt, &words, status);
            status.exit_code()
        }
        Err(status) => {
            tell(&rt, &[], status);
            status.exit_code()
        }
    }
}

// The words after the program's name. Words that aren't text are no command.
fn words_of(rt: &HostRuntime) -> Result<Vec<String>, Status> {
    let words = match env::args(rt) {
        Ok(args) => args.skip(1).collect(rt.alloc()),
        Err(error) if error.kind() == io::ErrorKind::InvalidData => return Err(Status::Usage),
        Err(_) => return Err(Status::OutOfMemory),
    };
    words.map_err(|_| Status::OutOfMemory)
}

// Says how the run of the words ended. Where nobody can be told, the status tells it.
fn tell(rt: &HostRuntime, words: &[String], status: Status) {
    if status == Status::Usage {
        if let Ok(Some(fault)) = fault_of(rt.alloc(), words) {
            let _ = eprintln!(rt; "dnsreplay: forward: {fault}");
            return;
        }
    }
    if let Some(line) = status.line() {
        let _ = eprintln!(rt; "dnsreplay: {line}");
    }
}
