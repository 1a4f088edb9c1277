use denial_records::KeptNsec3;

/// The record that covers the next closer name, and so shows that it doesn't exist (RFC 5155, section 7.2.1).
#[derive(Clone, Copy)]
pub(crate) struct Covering<'a> {
    pub(crate) nsec3: &'a KeptNsec3,
}
