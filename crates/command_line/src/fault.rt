use crate::cause::Cause;
use crate::flag::Flag;
use std::fmt;

/// The first fault of words that begin with `forward`. It shows itself with the faulty word.
#[derive(Clone, Copy, Debug)]
pub enum Fault<'a> {
    /// The word is no option.
    Stray {
        word: &'a str,
    },
    /// No value follows the option. A value that begins with a hyphen has to stand behind `=`.
    Valueless {
        flag: Flag,
    },
    /// The option, or its value, is wrong.
    Wrong {
        flag: Flag,
        text: &'a str,
        cause: Cause,
    },
    /// The option has to be given.
    Missing {
        flag: Flag,
    },
}

impl fmt::Display for Fault<'_> {
    fn fmt<W: fmt::Write>(&self, f: &mut fmt::Formatter<W>) -> fmt::Result {
        match self {
            Fault::Stray { word } => write!(f, "{word} is no option"),
            Fault::Valueless { flag } => write!(f, "{} has no value", flag.name()),
            Fault::Wrong { flag, text, cause } => write!(f, "{} {text} {cause}", flag.name()),
            Fault::Missing { flag } => write!(f, "{} is missing", flag.name()),
        }
    }
}
