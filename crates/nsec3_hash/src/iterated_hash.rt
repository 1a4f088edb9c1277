ghost use Rattle.std.specs.Prelude.{◌≡◌, ◌++◌};
ghost use Rattle.sha1.specs.Sha1.{sha1};
ghost use Rattle.nsec3_hash.specs.IteratedHash.{hash_of};

use dname::Name;
use sha1::Sha1;

/// The hash of a name that an NSEC3 record's salt and iterations ask for (RFC 5155, section 5), by SHA-1.
/// It takes `iterations + 1` digests.
pub fn hash_name(name: &Name, salt: &[u8], iterations: u16) -> [u8; 20]
    ensures { result ≡ hash_of name.now salt.now iterations }
{
    let mut hash = salted_digest(name.wire(), salt);
    'rounds: for _ in 0..iterations {
        hash = salted_digest(&hash, salt);
    }
    hash
}

// The digest of octets with the salt after them.
fn salted_digest(octets: &[u8], salt: &[u8]) -> [u8; 20]
    ensures { result ≡ sha1 (octets.now ++ salt.now) }
{
    let mut hasher = Sha1::new();
    hasher.update(octets);
    hasher.update(salt);
    hasher.finalize()
}

#[cfg(test)]
mod tests;
