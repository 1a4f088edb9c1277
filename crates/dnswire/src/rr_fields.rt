ghost use Rattle.std.specs.Prelude.{◌≡◌, ◌≤◌, length, IfSome, IfNone, Some};
ghost use Rattle.dnswire.specs.RrHead.{AreRrFields, IsTruncated};
ghost use Rattle.dnswire.specs.declared.rr_fields.RrFields.{RrFields};

use dname::{u16_at, u32_at};

/// The octets between a record's owner name and its data (RFC 1035, section 4.1.3).
pub(crate) const RR_FIELDS_OCTETS: usize = 10;

/// What follows a record's owner name, and where its data stands (RFC 1035, section 4.1.3).
#[derive(Clone, Copy, Debug)]
pub(crate) struct RrFields {
    pub(crate) rtype: u16,
    pub(crate) class: u16,
    /// In seconds.
    pub(crate) ttl: u32,
    /// The offset of the data.
    pub(crate) data_at: usize,
    /// The offset after the data.
    pub(crate) end: usize,
}

impl RrFields {
    /// The fields at the offset after the owner name; none where the message ends within them or within the data.
    pub(crate) fn read(message: &[u8], at: usize) -> Option<RrFields>
        requires { at ≤ length message.now }
        ensures read { IfSome result (AreRrFields message.now at) }
        ensures none { IfNone result (IsTruncated message.now at) }
        ensures every { (fields : RrFields) → AreRrFields message.now at fields
            → result ≡ Some fields }
    {
        let data_at = at + RR_FIELDS_OCTETS;
        if message.len() < data_at {
            return None;
        }
        let end = data_at + usize::from(u16_at(message, at + 8));
        if message.len() < end {
            return None;
        }
        Some(RrFields {
            rtype: u16_at(message, at),
            class: u16_at(message, at + 2),
            ttl: u32_at(message, at + 4),
            data_at,
            end,
        })
    }
}
