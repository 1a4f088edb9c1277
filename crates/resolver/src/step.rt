use crate::{End, Way};
use dname::Name;

/// What a name leads to: another name, or the end.
#[derive(Drop)]
pub(crate) enum Step<'a> {
    Onto { way: Way<'a>, target: Name },
    Ends { end: End<'a> },
}
