use crate::file_path::FilePath;
use dname::{ItemList, Name};
use std::net::SocketAddr;

/// What `forward` is asked for.
#[derive(Debug, Drop)]
pub struct ForwardSettings {
    /// Where it listens, in the order of the words: at one to eight places, no two the same. None has port 0, stands for every
    /// address of the machine, or has an IPv4-mapped IPv6 address.
    pub listens: ItemList<SocketAddr>,
    /// The server that is asked. It is none of them, and what is said of their addresses and ports holds of its own too.
    pub upstream: SocketAddr,
    /// How many workers there are, 1 to 32.
    pub workers: u8,
    /// Up to 16 names, in the order of the words: what is at or below one of them is always asked.
    pub passes: ItemList<Name>,
    /// The file that tells the status, if one does.
    pub status: Option<FilePath>,
}
