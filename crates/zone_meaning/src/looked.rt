use dname::{Name, Octets, OctetsList};

/// What a table of a zone answers to a name and a type.
#[derive(Debug, Drop)]
pub enum Looked<'a> {
    /// The data of the name and type, or of the wildcard that answers for the name.
    Answer(&'a OctetsList),
    /// The data of a CNAME in place of the type; of several, the least.
    Alias(&'a Octets),
    /// The name exists, and has no data of the type.
    NoData,
    /// The name doesn't exist.
    NxDomain,
    /// The cut at or above the name, where another zone goes on.
    Referral(Name),
    /// The owner of a DNAME above the name.
    Redirect(Name),
    /// A wildcard that has NS, or a DNAME and no data of the type: the RFCs leave the answer open (RFC 4592, sections 4.2
    /// and 4.4).
    Undefined,
}
