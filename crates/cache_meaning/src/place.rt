/// Where in a denial record's arc a name or its hash stands.
#[derive(Clone, Copy, Debug, PartialEq, Eq)]
pub enum Place {
    /// At the start: the record is the name's own.
    Start,
    /// Behind the start, so the name has no record of its own.
    Inside,
}
