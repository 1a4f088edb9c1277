//! The words behind `forward`, taken for options with their values.
ghost use Rattle.std.specs.Prelude.{◌≡◌, ◌<◌, ◌≤◌, ◌+◌, [], ◌∷◌, drop, length, map, IfErr, IfNone, IfOk, IfSome, false};
ghost use Rattle.command_line.specs.Words.{AreOptions, BeginsWith, begins_with_hyphen, texts};
ghost use Rattle.command_line.specs.Faults.{HasNoValue};
ghost use Rattle.command_line.specs.Options.{IsFaultAt, IsSeen, IsToldFault, choice_of};

use crate::fault::Fault;
use crate::flag::Flag;
use crate::refusal::Refusal;
use std::alloc::Global;

/// An option with the text of its value.
#[derive(Clone, Copy)]
pub(crate) struct Chosen<'a> {
    pub(crate) flag: Flag,
    pub(crate) text: &'a str,
}

// What a word is by itself.
enum Seen<'a> {
    Alone { flag: Flag },
    Joined { flag: Flag, text: &'a str },
    Stray,
}

/// The options that the words are, one behind another.
pub(crate) fn choices_of<'a>(
    alloc: Global,
    words: &'a [String],
) -> Result<Vec<Chosen<'a>>, Refusal<'a>>
    ensures read { IfOk result (λ choices.
        AreOptions (map choice_of choices.items) [] (texts words.entry.now)) }
    ensures told { IfErr result (IsToldFault (texts words.entry.now)) }
{
    let mut choices = Vec::new(alloc);
    let mut at = 0;
    while at < words.len() {
        let (choice, next) = match choice_at(words, at) {
            Ok(found) => found,
            Err(fault) => return Err(Refusal::Faulty(fault)),
        };
        let Ok(()) = choices.push(choice) else {
            return Err(Refusal::OutOfMemory);
        };
        at = next;
    }
    Ok(choices)
}

// The option with which the words go on, and where they go on behind it.
fn choice_at<'a>(words: &'a [String], at: usize) -> Result<(Chosen<'a>, usize), Fault<'a>>
    requires { at < length words.now }
    ensures read { IfOk result (λ found. BeginsWith (choice_of found.0)
        (drop found.1 (texts words.entry.now)) (drop at (texts words.entry.now))) }
    ensures on { IfOk result (λ found. (at < found.1) × (found.1 ≤ length words.entry.now)) }
    ensures told { IfErr result (IsFaultAt (drop at (texts words.entry.now))) }
{
    let word = words[at].as_str();
    match seen_in(word) {
        Seen::Joined { flag, text } => Ok((Chosen { flag, text }, at + 1)),
        Seen::Alone { flag } => match value_at(words, at + 1) {
            Some(text) => Ok((Chosen { flag, text }, at + 2)),
            None => Err(Fault::Valueless { flag }),
        },
        Seen::Stray => Err(Fault::Stray { word }),
    }
}

// The value that stands there as a word of its own.
fn value_at(words: &[String], at: usize) -> Option<&str>
    requires { at ≤ length words.now }
    ensures read { IfSome result (λ text. (begins_with_hyphen text.now ≡ false)
        × (drop at (texts words.now) ≡ text.now ∷ drop (at + 1) (texts words.now))) }
    ensures none { IfNone result (HasNoValue (drop at (texts words.now))) }
{
    if at == words.len() {
        return None;
    }
    let text = words[at].as_str();
    if begins_with_hyphen(text) {
        return None;
    }
    Some(text)
}

fn begins_with_hyphen(text: &str) -> bool
    ensures { result ≡ begins_with_hyphen text.now }
{
    text.as_bytes().first() == Some(&b'-')
}

fn seen_in(word: &str) -> Seen<'_>
    ensures { IsSeen word.now result }
{
    match word.split_once('=') {
        Some((name, text)) => match Flag::named(name) {
            Some(flag) => Seen::Joined { flag, text },
            None => Seen::Stray,
        },
        None => match Flag::named(word) {
            Some(flag) => Seen::Alone { flag },
            None => Seen::Stray,
        },
    }
}
