ghost use Rattle.std.specs.Prelude.{◌≡◌, ◌≤◌, length, drop};

/// What follows the octets before a position.
pub(crate) fn rest_of(octets: &[u8], position: usize) -> &[u8]
    requires { position ≤ length octets.now }
    ensures { result.now ≡ drop position octets.now }
{
    &octets[position..]
}
