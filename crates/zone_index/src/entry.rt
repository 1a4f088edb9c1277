use dname::{BoxedName, Octets};

/// A record of a zone.
#[derive(Debug, Drop)]
pub(crate) struct Entry {
    pub(crate) owner: BoxedName,
    pub(crate) rtype: u16,
    pub(crate) octets: Octets,
}
