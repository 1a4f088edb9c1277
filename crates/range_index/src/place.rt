//! Where in its arc a key lies.

/// Where in its arc a key lies: at its start, or elsewhere in it.
#[derive(Clone, Copy, Debug, PartialEq, Eq, Drop)]
pub enum Place {
    Start,
    Inside,
}
