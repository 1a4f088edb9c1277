//! Words, written with a bar between each two.
use command_line::{Command, OutOfMemory, command_of};
use std::alloc::Global;

pub(crate) fn words_in(alloc: Global, text: &str) -> Result<Vec<String>, OutOfMemory> {
    let mut words = Vec::new(alloc);
    for word in text.split('|') {
        words.push(String::from_str(alloc, word)?)?;
    }
    Ok(words)
}

pub(crate) fn command_in(alloc: Global, text: &str) -> Result<Option<Command>, OutOfMemory> {
    let words = words_in(alloc, text)?;
    command_of(alloc, &words)
}

/// The first of the texts whose words are a command.
pub(crate) fn taken(
    alloc: Global,
    texts: &[&'static str],
) -> Result<Option<&'static str>, OutOfMemory> {
    for text in texts {
        if command_in(alloc, text)?.is_some() {
            return Ok(Some(*text));
        }
    }
    Ok(None)
}
