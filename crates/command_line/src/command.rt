ghost use Rattle.std.specs.Prelude.{◌≡◌, ◌↔◌, ◌≤◌, ℕ, [], ◌∷◌, drop, length, IfNone, IfOk, IfSome, IsTrue, None, Some};
ghost use Rattle.std.specs.String.{string_bytes};
ghost use Rattle.command_line.specs.Words.{AreWordsOf, AsksForward, Gives, IsCommand, texts, workers_setting, seed_setting, names_setting, queries_setting, listen_setting, upstream_setting, datagrams_setting, connections_setting, HasPorts};
ghost use Rattle.command_line.specs.Faults.{IsFaultIn, IsFaultOf, IsForward};
ghost use Rattle.command_line.specs.Options.{IsBareNamed, IsTold, IsToldBy};
ghost use Rattle.command_line.specs.declared.command.Command.TheVariants.{Replay, Selfrun, Serve, Tcp, Forward};
ghost use Rattle.command_line.specs.declared.forward_settings.ForwardSettings.{ForwardSettings};

use crate::drafting::settings_of;
use crate::fault::Fault;
use crate::forward_settings::ForwardSettings;
use crate::matching::{matches_of, value_in};
use crate::refusal::Refusal;
use crate::setting::{CONNECTIONS, DATAGRAMS, LISTEN, NAMES, QUERIES, SEED, UPSTREAM, WORKERS};
use crate::topic::Topic;
use std::alloc::{AllocError, Global};

/// Memory ran out.
pub type OutOfMemory = AllocError;

/// What the words ask for.
#[derive(Debug, Drop)]
pub enum Command {
    /// Frames are replayed over this many workers, 1 to 32.
    Replay {
        workers: u8,
    },
    /// A zone of 1 to 10,000 names is made from the seed, and asked at most 100,000 queries.
    Selfrun {
        seed: u32,
        names: u32,
        queries: u32,
    },
    /// 1 to 32 workers each listen at a port of their own, from `listen` on, for 1 to 5,000
    /// datagrams; what the cache can't answer is asked at the port `upstream`.
    Serve {
        listen: u16,
        upstream: u16,
        workers: u8,
        datagrams: u32,
    },
    /// Frames are replayed over one worker, and queries answered by way of aliases too.
    Chase,
    /// Frames are replayed over one worker, and queries answered by way of a redirection too.
    Redirect,
    /// Frames are replayed over one worker, and queries answered by way of both too.
    Follow,
    /// Frames are replayed over one worker, and 1 to 100 connections, one after the other, answered
    /// at the port `listen` from what is then held.
    Tcp {
        listen: u16,
        connections: u32,
    },
    /// A recorded run is audited against a zone.
    Audit,
    /// Clients' queries are answered from the cache or forwarded, with no end.
    Forward(ForwardSettings),
    /// It is told how the command is called, or the program.
    Help(Option<Topic>),
    /// The program's version is told.
    Version,
}

/// The command that the words after the program's name are, if they are one. Each of its options
/// stands there once, in any order, as `--name value` or `--name=value`; a value is 1 to 10 ASCII
/// digits. In `forward` some stand more often, or not at all, and values are of other kinds too.
/// `OutOfMemory` comes only where memory runs out.
pub fn command_of(alloc: Global, words: &[String]) -> Result<Option<Command>, OutOfMemory>
    ensures read { IfOk result (λ found. IfSome found (AreWordsOf words.now)) }
    ensures every { (command : _) → AreWordsOf words.now command
        → IfOk result (λ found. found ≡ Some command) }
{
    if words.is_empty() {
        return Ok(None);
    }
    let first = &words[0];
    let options = after_first(words);
    if let Some(told) = told_of(first, options) {
        return Ok(Some(told));
    }
    if is_word(first, "replay") {
        return replay_of(alloc, options);
    }
    if is_word(first, "selfrun") {
        return selfrun_of(alloc, options);
    }
    if is_word(first, "serve") {
        return serve_of(alloc, options);
    }
    if is_word(first, "tcp") {
        return tcp_of(alloc, options);
    }
    if is_word(first, "forward") {
        return forward_of(alloc, options);
    }
    Ok(bare_of(first, options))
}

/// The first fault of words that begin with `forward` and are no command. Other words have none.
/// `OutOfMemory` comes only where memory runs out.
pub fn fault_of<'a>(alloc: Global, words: &'a [String]) -> Result<Option<Fault<'a>>, OutOfMemory>
    ensures told { IfOk result (λ found. IfSome found (IsFaultOf words.entry.now)) }
    ensures none { IfOk result (λ found. IfNone found
        (IsForward words.entry.now → IsCommand words.entry.now)) }
    ensures right { IsCommand words.entry.now → IfOk result (λ found. found ≡ None) }
{
    if words.is_empty() {
        return Ok(None);
    }
    let first = &words[0];
    let options = after_first(words);
    if !is_word(first, "forward") {
        return Ok(None);
    }
    if told_of(first, options).is_some() {
        return Ok(None);
    }
    fault_in(alloc, options)
}

// The first fault of the words behind `forward`.
fn fault_in<'a>(alloc: Global, options: &'a [String]) -> Result<Option<Fault<'a>>, OutOfMemory>
    ensures told { IfOk result (λ found.
        IfSome found (IsFaultIn (texts options.entry.now))) }
    ensures none { IfOk result (λ found. IfNone found
        ((settings : ForwardSettings) × AsksForward (texts options.entry.now) settings)) }
{
    match settings_of(alloc, options) {
        Ok(settings) => {
            drop(settings);
            Ok(None)
        }
        Err(Refusal::Faulty(fault)) => Ok(Some(fault)),
        Err(Refusal::OutOfMemory) => Err(AllocError),
    }
}

fn replay_of(alloc: Global, options: &[String]) -> Result<Option<Command>, OutOfMemory>
    ensures read { IfOk result (λ found. IfSome found (λ command. (workers : ℕ)
        × (command ≡ Replay workers)
        × Gives ((workers_setting, workers) ∷ []) (texts options.now))) }
    ensures every { (workers : ℕ)
        → Gives ((workers_setting, workers) ∷ []) (texts options.now)
        → IfOk result (λ found. found ≡ Some (Replay workers)) }
{
    let settings = [WORKERS];
    let Some(matches) = matches_of(alloc, &settings, options)? else {
        return Ok(None);
    };
    let Some(workers) = value_in(&matches, &settings[0]) else {
        return Ok(None);
    };
    Ok(Some(Command::Replay {
        workers: workers as u8,
    }))
}

fn selfrun_of(alloc: Global, options: &[String]) -> Result<Option<Command>, OutOfMemory>
    ensures read { IfOk result (λ found. IfSome found (λ command. (seed names queries : ℕ)
        × (command ≡ Selfrun seed names queries)
        × Gives ((seed_setting, seed) ∷ (names_setting, names)
        ∷ (queries_setting, queries) ∷ []) (texts options.now))) }
    ensures every { (seed names queries : ℕ)
        → Gives ((seed_setting, seed) ∷ (names_setting, names)
        ∷ (queries_setting, queries) ∷ []) (texts options.now)
        → IfOk result (λ found. found ≡ Some (Selfrun seed names queries)) }
{
    let settings = [SEED, NAMES, QUERIES];
    let Some(matches) = matches_of(alloc, &settings, options)? else {
        return Ok(None);
    };
    let Some(seed) = value_in(&matches, &settings[0]) else {
        return Ok(None);
    };
    let Some(names) = value_in(&matches, &settings[1]) else {
        return Ok(None);
    };
    let Some(queries) = value_in(&matches, &settings[2]) else {
        return Ok(None);
    };
    Ok(Some(Command::Selfrun {
        seed,
        names,
        queries,
    }))
}

fn serve_of(alloc: Global, options: &[String]) -> Result<Option<Command>, OutOfMemory>
    ensures read { IfOk result (λ found. IfSome found (λ command.
        (listen upstream workers datagrams : ℕ)
        × (command ≡ Serve listen upstream workers datagrams)
        × Gives ((listen_setting, listen) ∷ (upstream_setting, upstream)
        ∷ (workers_setting, workers) ∷ (datagrams_setting, datagrams) ∷ [])
        (texts options.now)
        × HasPorts listen upstream workers)) }
    ensures every { (listen upstream workers datagrams : ℕ)
        → Gives ((listen_setting, listen) ∷ (upstream_setting, upstream)
        ∷ (workers_setting, workers) ∷ (datagrams_setting, datagrams) ∷ [])
        (texts options.now)
        → HasPorts listen upstream workers
        → IfOk result (λ found. found ≡ Some (Serve listen upstream workers datagrams)) }
{
    let settings = [LISTEN, UPSTREAM, WORKERS, DATAGRAMS];
    let Some(matches) = matches_of(alloc, &settings, options)? else {
        return Ok(None);
    };
    let Some(listen) = value_in(&matches, &settings[0]) else {
        return Ok(None);
    };
    let Some(upstream) = value_in(&matches, &settings[1]) else {
        return Ok(None);
    };
    let Some(workers) = value_in(&matches, &settings[2]) else {
        return Ok(None);
    };
    let Some(datagrams) = value_in(&matches, &settings[3]) else {
        return Ok(None);
    };
    Ok(serve_at(listen, upstream, workers, datagrams))
}

// The command, if the workers' ports are ports, and upstream's is none of them.
fn serve_at(listen: u32, upstream: u32, workers: u32, datagrams: u32) -> Option<Command>
    requires listen { listen ≤ 65535 }
    requires upstream { upstream ≤ 65535 }
    requires workers { (1 ≤ workers) × (workers ≤ 32) }
    ensures read { IfSome result (λ command.
        (command ≡ Serve listen upstream workers datagrams)
        × HasPorts listen upstream workers) }
    ensures every { HasPorts listen upstream workers
        → result ≡ Some (Serve listen upstream workers datagrams) }
{
    let end = listen + workers;
    if 65_536 < end || (listen <= upstream && upstream < end) {
        return None;
    }
    Some(Command::Serve {
        listen: listen as u16,
        upstream: upstream as u16,
        workers: workers as u8,
        datagrams,
    })
}

fn tcp_of(alloc: Global, options: &[String]) -> Result<Option<Command>, OutOfMemory>
    ensures read { IfOk result (λ found. IfSome found (λ command. (listen connections : ℕ)
        × (command ≡ Tcp listen connections)
        × Gives ((listen_setting, listen) ∷ (connections_setting, connections) ∷ [])
        (texts options.now))) }
    ensures every { (listen connections : ℕ)
        → Gives ((listen_setting, listen) ∷ (connections_setting, connections) ∷ [])
        (texts options.now)
        → IfOk result (λ found. found ≡ Some (Tcp listen connections)) }
{
    let settings = [LISTEN, CONNECTIONS];
    let Some(matches) = matches_of(alloc, &settings, options)? else {
        return Ok(None);
    };
    let Some(listen) = value_in(&matches, &settings[0]) else {
        return Ok(None);
    };
    let Some(connections) = value_in(&matches, &settings[1]) else {
        return Ok(None);
    };
    Ok(Some(Command::Tcp {
        listen: listen as u16,
        connections,
    }))
}

fn forward_of(alloc: Global, options: &[String]) -> Result<Option<Command>, OutOfMemory>
    ensures read { IfOk result (λ found. IfSome found (λ command. (settings : ForwardSettings)
        × (command ≡ Forward settings) × AsksForward (texts options.now) settings)) }
    ensures every { (settings : ForwardSettings) → AsksForward (texts options.now) settings
        → IfOk result (λ found. found ≡ Some (Forward settings)) }
{
    match settings_of(alloc, options) {
        Ok(settings) => Ok(Some(Command::Forward(settings))),
        Err(Refusal::Faulty(_)) => Ok(None),
        Err(Refusal::OutOfMemory) => Err(AllocError),
    }
}

// What is told of a command, or of the program, if that is asked for.
fn told_of(first: &String, options: &[String]) -> Option<Command>
    ensures read { IfSome result (IsTold (string_bytes first.now ∷ texts options.now)) }
    ensures every { (command : _)
        → IsTold (string_bytes first.now ∷ texts options.now) command
        → result ≡ Some command }
{
    if options.is_empty() {
        return told_by(first, None);
    }
    let topic = Topic::named(first.as_str())?;
    if options.len() > 1 {
        return None;
    }
    told_by(&options[0], Some(topic))
}

fn told_by(word: &String, topic: Option<Topic>) -> Option<Command>
    ensures read { IfSome result (IsToldBy (string_bytes word.now) topic) }
    ensures every { (command : _) → IsToldBy (string_bytes word.now) topic command
        → result ≡ Some command }
{
    if is_word(word, "--help") {
        return Some(Command::Help(topic));
    }
    if is_word(word, "--version") {
        return Some(Command::Version);
    }
    None
}

// The command that has no options, if the first word is its name, and the only word.
fn bare_of(first: &String, options: &[String]) -> Option<Command>
    ensures read { IfSome result (λ command. (texts options.now ≡ [])
        × IsBareNamed (string_bytes first.now) command) }
    ensures every { (command : _) → texts options.now ≡ []
        → IsBareNamed (string_bytes first.now) command → result ≡ Some command }
{
    if options.is_empty() {
        return bare_named(first);
    }
    None
}

fn bare_named(name: &String) -> Option<Command>
    ensures read { IfSome result (IsBareNamed (string_bytes name.now)) }
    ensures every { (command : _) → IsBareNamed (string_bytes name.now) command
        → result ≡ Some command }
{
    if is_word(name, "chase") {
        return Some(Command::Chase);
    }
    if is_word(name, "redirect") {
        return Some(Command::Redirect);
    }
    if is_word(name, "follow") {
        return Some(Command::Follow);
    }
    if is_word(name, "audit") {
        return Some(Command::Audit);
    }
    None
}

fn after_first(words: &[String]) -> &[String]
    requires { 1 ≤ length words.now }
    ensures { result.now ≡ drop 1 words.now }
{
    &words[1..]
}

fn is_word(word: &String, text: &str) -> bool
    ensures { IsTrue result ↔ (string_bytes word.now ≡ text.now) }
{
    word.as_str() == text
}
