use denial_records::KeptNsec;

/// The record that speaks of the source of synthesis: by it no wildcard gives the name, or none the type (RFC 4035, section 5.4).
#[derive(Clone, Copy)]
pub(crate) struct AtSource<'a> {
    pub(crate) nsec: &'a KeptNsec,
}
