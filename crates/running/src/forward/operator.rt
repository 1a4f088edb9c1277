use std::{fmt, io};

/// Who runs a forwarder, and reads what it says. No clause says what is read.
pub trait Operator {
    /// Milliseconds of a clock that never goes back.
    fn millis(&self) -> u64;

    /// Waits for a quarter of a second.
    fn pause(&self);

    /// Says a text of whole lines. Where nobody can be told, it is lost.
    fn tell<D: fmt::Display + Drop>(&self, text: D);

    /// Puts the text into the file `beside`, and then that file in the place of the file at the path, so that whoever reads there
    /// finds a whole text. What stands there and is no file stays, and is an error.
    fn put(&self, path: &str, beside: &str, text: &str) -> io::Result<()>;
}
