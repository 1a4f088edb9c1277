ghost use Rattle.std.specs.Prelude.{◌≡◌};
ghost use Rattle.cache_meaning.specs.Prove.{is_forwarded};

use dname::types::{NSEC_TYPE, NSEC3_TYPE, OPT_TYPE, RRSIG_TYPE};

/// Whether queries of the type are forwarded, whatever is held: those of 0, OPT, RRSIG, NSEC, NSEC3, and of 128 to 255, which
/// ask of a server and not of a zone (RFC 6895, section 3.1).
pub fn is_forwarded(qtype: u16) -> bool
    ensures { result ≡ is_forwarded qtype }
{
    matches!(
        qtype,
        0 | OPT_TYPE | RRSIG_TYPE | NSEC_TYPE | NSEC3_TYPE | 128..=255
    )
}
