use denial_records::KeptNsec;

/// The record that covers the name, and so shows that it doesn't exist (RFC 4035, section 5.4).
#[derive(Clone, Copy)]
pub(crate) struct Covering<'a> {
    pub(crate) nsec: &'a KeptNsec,
}
