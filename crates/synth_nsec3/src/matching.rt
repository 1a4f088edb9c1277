use denial_records::KeptNsec3;

/// The record that matches the closest encloser, and so shows that it exists (RFC 5155, section 7.2.1).
#[derive(Clone, Copy)]
pub(crate) struct Matching<'a> {
    pub(crate) nsec3: &'a KeptNsec3,
}
