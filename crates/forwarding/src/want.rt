/// For what memory was wanted at an answer.
#[derive(Clone, Copy, Debug, PartialEq, Eq)]
pub enum Want {
    Nothing,
    /// To read it: it was passed over, and its question waits on.
    ToRead,
    /// To store it: it was relayed and not stored.
    ToStore,
}
