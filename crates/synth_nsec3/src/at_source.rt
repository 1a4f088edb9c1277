use denial_records::KeptNsec3;

/// The record that speaks of the source of synthesis: it covers the wildcard in a name error (RFC 5155, section 7.2.2), and matches
/// it where there is no data (section 7.2.5).
#[derive(Clone, Copy)]
pub(crate) struct AtSource<'a> {
    pub(crate) nsec3: &'a KeptNsec3,
}
