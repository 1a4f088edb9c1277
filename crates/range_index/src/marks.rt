//! Marks of names and hashes.
ghost use Rattle.std.specs.Prelude.{◌≡◌};
ghost use Rattle.range_index.specs.Marks.{hash_mark, name_mark};

use dname::Name;

/// The mark of a name, reckoned from a zone's apex: the first eight octets of its label in front of the apex.
pub fn name_mark(apex: &Name, name: &Name) -> u64
    ensures { result ≡ name_mark apex.now name.now }
{
    // That a name's labels are of octets is a clause of `wire`.
    let _wire = name.wire();
    if name.is_under(apex) {
        name.digest_below(apex)
    } else if name < apex {
        0
    } else {
        u64::MAX
    }
}

/// The mark of a hash: its first eight octets.
pub fn hash_mark(hash: &[u8; 20]) -> u64
    ensures { result ≡ hash_mark hash.now }
{
    u64::from_be_bytes([
        hash[0], hash[1], hash[2], hash[3], hash[4], hash[5], hash[6], hash[7],
    ])
}
