/// What stands next in what came over a connection.
#[derive(Clone, Copy, Debug, PartialEq, Eq)]
pub enum Next {
    /// A whole message.
    Message,
    /// Less than a message; or the connection isn't open.
    Nothing,
    /// A whole message, where as many have no reply yet as may: the connection is closed.
    TooMany,
    /// A length that no message has: the connection is closed.
    TooSmall,
}
