use denial_records::KeptSet;

/// What one search for a set of an owner name and a type finds.
#[derive(Drop)]
pub struct SetAndAlias<'a> {
    /// The set itself.
    pub set: Option<&'a KeptSet>,
    /// The owner name's CNAME set: `Some(None)` where there is none, and `None` where the search doesn't tell.
    pub alias: Option<Option<&'a KeptSet>>,
}
