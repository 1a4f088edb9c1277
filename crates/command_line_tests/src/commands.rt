//! The eight commands whose values are numbers.
use crate::words::{command_in, taken};
use command_line::{Command, OutOfMemory, command_of};
use std::alloc::Global;
use std::test::Fail;

// Words, joined by bars, and the workers that they ask for.
const REPLAYS: [(&str, u8); 5] = [
    ("replay|--workers|2", 2),
    ("replay|--workers|4", 4),
    ("replay|--workers|32", 32),
    ("replay|--workers=007", 7),
    ("replay|--workers=0000000032", 32),
];

const SELFRUNS: [(&str, u32, u32, u32); 4] = [
    (
        "selfrun|--seed|1|--names|1000|--queries|5000",
        1,
        1_000,
        5_000,
    ),
    ("selfrun|--seed|0|--names|1|--queries|0", 0, 1, 0),
    ("selfrun|--seed|77|--names|37|--queries|500", 77, 37, 500),
    (
        "selfrun|--queries=8|--seed|4294967295|--names=4",
        u32::MAX,
        4,
        8,
    ),
];

// Words that are no command of any kind.
const STRANGERS: [&str; 7] = [
    "",
    "help",
    "-h",
    "-V",
    "Replay|--workers|1",
    "--|replay|--workers|1",
    "replay|-h",
];

// Options that are missing, twice, cut short or without a value.
const OPTIONS: [&str; 8] = [
    "replay",
    "replay|--work|1",
    "replay|1|--workers",
    "replay|--workers",
    "replay|--workers|1|1",
    "replay|--workers|1|--workers|1",
    "replay|--workers|1|--",
    "replay|--workers|--workers|1",
];

// Values that aren't 1 to 10 digits, or lie outside.
const VALUES: [&str; 8] = [
    "replay|--workers|0",
    "replay|--workers|33",
    "replay|--workers|+1",
    "replay|--workers|-1",
    "replay|--workers| 1",
    "replay|--workers|\u{661}",
    "replay|--workers=",
    "replay|--workers=00000000001",
];

// Hyphens, empty words and '=' where none belong.
const HYPHENS: [&str; 8] = [
    "replay|-w|1",
    "replay|--workers|1|-V",
    "replay|--workers|-|1",
    "replay|--workers|1|",
    "replay|--workers|",
    "replay|--workers|1|--=1",
    "replay|--workers=2=3",
    "replay|--workers|--|1",
];

const SELFRUN_OPTIONS: [&str; 7] = [
    "selfrun|--seed|0|--names|5",
    "selfrun|--seed|0|--names|0|--queries|0",
    "selfrun|--seed|0|--names|10001|--queries|0",
    "selfrun|--seed|0|--names|1|--queries|100001",
    "selfrun|--seed|4294967296|--names|1|--queries|0",
    "selfrun|--seed|0|--names|5|--queries|1|--workers|1",
    "selfrun|--seed|--names|1|--queries|1",
];

const SERVES: [(&str, u16, u16, u8, u32); 3] = [
    (
        "serve|--listen|5300|--upstream|5400|--workers|2|--datagrams|1",
        5300,
        5400,
        2,
        1,
    ),
    (
        "serve|--datagrams=5000|--workers=1|--upstream=1|--listen=65535",
        65_535,
        1,
        1,
        5_000,
    ),
    // The port after the last worker's may be upstream's.
    (
        "serve|--listen|65504|--upstream|65535|--workers|31|--datagrams|9",
        65_504,
        65_535,
        31,
        9,
    ),
];

const SERVE_OPTIONS: [&str; 8] = [
    "serve",
    "serve|--listen|0|--upstream|9|--workers|1|--datagrams|1",
    "serve|--listen|9|--upstream|0|--workers|1|--datagrams|1",
    "serve|--listen|9|--upstream|8|--workers|1|--datagrams|5001",
    "serve|--listen|9|--upstream|8|--workers|1|--datagrams|0",
    // The second worker has no port; upstream's is the only worker's, and the last one's.
    "serve|--listen|65535|--upstream|1|--workers|2|--datagrams|1",
    "serve|--listen|9|--upstream|9|--workers|1|--datagrams|1",
    "serve|--listen|9|--upstream|12|--workers|4|--datagrams|1",
];

// They have no options, and no other names.
const BARE_OPTIONS: [&str; 10] = [
    "chase|--workers|1",
    "chase|",
    "chase|--",
    "redirect|--workers=1",
    "redirect|redirect",
    "follow|1",
    "Chase",
    "redirec",
    "audit|--workers|1",
    "audits",
];

const TCPS: [(&str, u16, u32); 3] = [
    ("tcp|--listen|5300|--connections|1", 5300, 1),
    ("tcp|--connections=100|--listen=65535", 65_535, 100),
    ("tcp|--listen|0000000001|--connections=007", 1, 7),
];

// Options that are missing, twice or out of range, or that `serve` has.
const TCP_OPTIONS: [&str; 9] = [
    "tcp",
    "tcp|--listen|5300",
    "tcp|--connections|1",
    "tcp|--listen|0|--connections|1",
    "tcp|--listen|65536|--connections|1",
    "tcp|--listen|5300|--connections|0",
    "tcp|--listen|5300|--connections|101",
    "tcp|--listen|5300|--connections|1|--connections|1",
    "tcp|--listen|5300|--connections|1|--workers|1",
];

// The words that ask for another number of workers than is wanted, or for none.
fn replay_otherwise(alloc: Global) -> Result<Option<&'static str>, OutOfMemory> {
    for (text, wanted) in REPLAYS {
        let found = command_in(alloc, text)?;
        if !matches!(found, Some(Command::Replay { workers }) if workers == wanted) {
            return Ok(Some(text));
        }
    }
    Ok(None)
}

// The words that ask for another zone than is wanted, or for none.
fn selfrun_otherwise(alloc: Global) -> Result<Option<&'static str>, OutOfMemory> {
    for (text, seed, names, queries) in SELFRUNS {
        let wanted = (seed, names, queries);
        let found = match command_in(alloc, text)? {
            Some(
                Command::Selfrun {
                    seed,
                    names,
                    queries,
                },
            ) => Some((seed, names, queries)),
            _ => None,
        };
        if found != Some(wanted) {
            return Ok(Some(text));
        }
    }
    Ok(None)
}

// The words that ask for another server than is wanted, or for none.
fn serve_otherwise(alloc: Global) -> Result<Option<&'static str>, OutOfMemory> {
    for (text, listen, upstream, workers, datagrams) in SERVES {
        let wanted = (listen, upstream, workers, datagrams);
        let found = match command_in(alloc, text)? {
            Some(
                Command::Serve {
                    listen,
                    upstream,
                    workers,
                    datagrams,
                },
            ) => Some((listen, upstream, workers, datagrams)),
            _ => None,
        };
        if found != Some(wanted) {
            return Ok(Some(text));
        }
    }
    Ok(None)
}

// The words that ask for other connections than are wanted, or for none.
fn tcp_otherwise(alloc: Global) -> Result<Option<&'static str>, OutOfMemory> {
    for (text, listen, connections) in TCPS {
        let wanted = (listen, connections);
        let found = match command_in(alloc, text)? {
            Some(
                Command::Tcp {
                    listen,
                    connections,
                },
            ) => Some((listen, connections)),
            _ => None,
        };
        if found != Some(wanted) {
            return Ok(Some(text));
        }
    }
    Ok(None)
}

#[test]
fn no_words_are_no_command(rt: HostRuntime) -> Result<(), Fail> {
    let words = Vec::new(rt.alloc());
    assert!(rt; command_of(rt.alloc(), &words)?.is_none());
    Ok(())
}

#[test]
fn words_ask_for_workers(rt: HostRuntime) -> Result<(), Fail> {
    let wrong = replay_otherwise(rt.alloc())?;
    assert!(rt; wrong.is_none(), "{wrong:?}");
    Ok(())
}

#[test]
fn words_ask_for_a_made_zone(rt: HostRuntime) -> Result<(), Fail> {
    let wrong = selfrun_otherwise(rt.alloc())?;
    assert!(rt; wrong.is_none(), "{wrong:?}");
    Ok(())
}

#[test]
fn words_ask_for_a_server(rt: HostRuntime) -> Result<(), Fail> {
    let wrong = serve_otherwise(rt.alloc())?;
    assert!(rt; wrong.is_none(), "{wrong:?}");
    Ok(())
}

#[test]
fn words_ask_for_connections(rt: HostRuntime) -> Result<(), Fail> {
    let wrong = tcp_otherwise(rt.alloc())?;
    assert!(rt; wrong.is_none(), "{wrong:?}");
    Ok(())
}

#[test]
fn words_ask_for_walks_and_audits(rt: HostRuntime) -> Result<(), Fail> {
    assert!(rt; matches!(command_in(rt.alloc(), "chase")?, Some(Command::Chase)));
    assert!(rt; matches!(command_in(rt.alloc(), "redirect")?, Some(Command::Redirect)));
    assert!(rt; matches!(command_in(rt.alloc(), "follow")?, Some(Command::Follow)));
    assert!(rt; matches!(command_in(rt.alloc(), "audit")?, Some(Command::Audit)));
    Ok(())
}

// Words of a table that are a command.
fn taken_among(alloc: Global) -> Result<Option<&'static str>, OutOfMemory> {
    for texts in [
        STRANGERS.as_slice(),
        OPTIONS.as_slice(),
        VALUES.as_slice(),
        HYPHENS.as_slice(),
        SELFRUN_OPTIONS.as_slice(),
        SERVE_OPTIONS.as_slice(),
        BARE_OPTIONS.as_slice(),
        TCP_OPTIONS.as_slice(),
    ] {
        if let Some(text) = taken(alloc, texts)? {
            return Ok(Some(text));
        }
    }
    Ok(None)
}

#[test]
fn other_words_are_no_command(rt: HostRuntime) -> Result<(), Fail> {
    let wrong = taken_among(rt.alloc())?;
    assert!(rt; wrong.is_none(), "{wrong:?}");
    Ok(())
}
