//! What is asked by `--help` and `--version`.
use crate::words::{command_in, taken};
use command_line::{Command, OutOfMemory, Topic, VERSION, VERSION_LINE, help_text};
use std::alloc::Global;
use std::test::Fail;

const TOPICS: [Topic; 9] = [
    Topic::Replay,
    Topic::Selfrun,
    Topic::Serve,
    Topic::Chase,
    Topic::Redirect,
    Topic::Follow,
    Topic::Tcp,
    Topic::Audit,
    Topic::Forward,
];

// They ask about a command, but not alone, or about none.
const OTHERS: [&str; 8] = [
    "--help|replay",
    "--help|",
    "--help|--help",
    "--version|--version",
    "stop|--help",
    "replay|--help|--workers|1",
    "replay|--workers|1|--help",
    "forward|--help=1",
];

// The topic about which the words don't ask as they should, or of which the text doesn't tell.
fn told_otherwise(alloc: Global) -> Result<Option<Topic>, OutOfMemory> {
    for topic in TOPICS {
        let help = format!(in alloc; "{}|--help", topic.name())?;
        let version = format!(in alloc; "{}|--version", topic.name())?;
        let usage = format!(in alloc; "\nUsage: dnsreplay {}", topic.name())?;
        let is_asked = matches!(
            command_in(alloc, help.as_str())?,
            Some(Command::Help(Some(asked))) if asked == topic
        );
        let is_version = matches!(command_in(alloc, version.as_str())?, Some(Command::Version));
        if !is_asked || !is_version || !help_text(Some(topic)).contains(usage.as_str()) {
            return Ok(Some(topic));
        }
    }
    Ok(None)
}

#[test]
fn words_ask_about_each_command(rt: HostRuntime) -> Result<(), Fail> {
    let wrong = told_otherwise(rt.alloc())?;
    assert!(rt; wrong.is_none(), "{wrong:?}");
    Ok(())
}

#[test]
fn words_ask_about_the_program(rt: HostRuntime) -> Result<(), Fail> {
    assert!(rt; matches!(command_in(rt.alloc(), "--help")?, Some(Command::Help(None))));
    assert!(rt; matches!(command_in(rt.alloc(), "--version")?, Some(Command::Version)));
    assert!(rt; help_text(None).contains("\nUsage: dnsreplay COMMAND"));
    assert!(rt; VERSION == "1.0.0");
    assert!(rt; VERSION_LINE == "dnsreplay 1.0.0\n");
    Ok(())
}

#[test]
fn other_words_ask_nothing(rt: HostRuntime) -> Result<(), Fail> {
    let wrong = taken(rt.alloc(), &OTHERS)?;
    assert!(rt; wrong.is_none(), "{wrong:?}");
    Ok(())
}
