use crate::{KeptNsec, KeptNsec3, KeptSet};

/// What an answer from the cache says.
#[derive(Clone, Copy, Debug, PartialEq, Eq)]
pub enum Kind {
    /// There is an RRset of the name and type.
    Answer,
    /// The name exists, and has no RRset of the type.
    NoData,
    /// The name doesn't exist.
    NxDomain,
}

/// A kept record that denies a name or a type.
#[derive(Debug, Drop)]
pub enum Denial<'a> {
    Nsec(&'a KeptNsec),
    Nsec3(&'a KeptNsec3),
}

/// An answer from the cache, and the kept records that prove it.
#[derive(Debug, Drop)]
pub struct Verdict<'a> {
    pub kind: Kind,
    /// The RRset that answers.
    pub answer_set: Option<&'a KeptSet>,
    /// The SOA RRset of the zone.
    pub soa: Option<&'a KeptSet>,
    /// The records of a proof of denial.
    pub first: Option<Denial<'a>>,
    pub second: Option<Denial<'a>>,
    pub third: Option<Denial<'a>>,
    /// The TTL of the answer, in seconds.
    pub ttl: u32,
}
