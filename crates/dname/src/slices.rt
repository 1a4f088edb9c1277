ghost use Rattle.std.specs.Prelude.{◌≡◌, ◌+◌, ◌-◌, ◌≤◌, length, take, drop};
ghost use Rattle.byteorder.specs.Endian.{big_number};

use byteorder::{BigEndian, ByteOrder};

/// The octets from an offset on.
pub fn octets_from(octets: &[u8], at: usize) -> &[u8]
    requires { at ≤ length octets.now }
    ensures { result.now ≡ drop at octets.now }
{
    &octets[at..]
}

/// The octets from an offset on and before another.
pub fn octets_between(octets: &[u8], at: usize, end: usize) -> &[u8]
    requires order { at ≤ end }
    requires within { end ≤ length octets.now }
    ensures { result.now ≡ take (end - at) (drop at octets.now) }
{
    octets_from(octets, at).split_at(end - at).0
}

/// The number in the two octets at an offset, the highest first.
pub fn u16_at(octets: &[u8], at: usize) -> u16
    requires { at + 2 ≤ length octets.now }
    ensures { result ≡ big_number 2 (drop at octets.now) }
{
    BigEndian::read_u16(octets_from(octets, at))
}

/// The number in the four octets at an offset, the highest first.
pub fn u32_at(octets: &[u8], at: usize) -> u32
    requires { at + 4 ≤ length octets.now }
    ensures { result ≡ big_number 4 (drop at octets.now) }
{
    BigEndian::read_u32(octets_from(octets, at))
}
