use arrayvec::ArrayVec;
use denial_records::{KeptSet, Kind, Verdict};
use dname::Name;

/// How many links a walk has at most.
pub const MAX_LINKS: usize = 8;

/// What leads on from a name to another.
#[derive(Drop)]
pub enum Way<'a> {
    /// The name's CNAME, with which the verdict answers: to the name that its data is.
    Alias { verdict: Verdict<'a> },
    /// A DNAME RRset above the name: to what it makes of the name.
    Dname { set: &'a KeptSet },
}

/// No way: what fills the unused places of a list of fixed size.
impl<'a> Default for Way<'a> {
    fn default() -> Way<'a> {
        Way::Alias {
            verdict: Verdict {
                kind: Kind::Answer,
                answer_set: None,
                soa: None,
                first: None,
                second: None,
                third: None,
                ttl: 0,
            },
        }
    }
}

/// What ends a walk, at its last name.
#[derive(Drop)]
pub enum End<'a> {
    /// What is proved of the question there.
    Proved { verdict: Verdict<'a> },
    /// A DNAME RRset above the name, where the CNAME is asked for that it makes.
    Made { set: &'a KeptSet },
    /// A DNAME RRset above the name that makes a name of more than 255 octets.
    TooLong { set: &'a KeptSet },
}

/// How a question's name leads to the last, and what ends the walk there. The names between aren't kept: each is told by the way
/// to it.
#[derive(Drop)]
pub struct Walk<'a> {
    /// The question's, at which it begins.
    pub name: Name,
    pub links: ArrayVec<Way<'a>, MAX_LINKS>,
    pub last_name: Name,
    pub end: End<'a>,
    /// The least TTL of what it goes by, in seconds.
    pub ttl: u32,
}
