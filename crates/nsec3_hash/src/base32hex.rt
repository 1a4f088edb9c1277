ghost use Rattle.std.specs.Prelude.{◌≡◌, ◌↔◌, ◌<◌, ◌%◌, ◌^◌, ℕ, List, length, map, IsSome, IfSome, Some};
ghost use Rattle.std.specs.List.{All};
ghost use Rattle.std.specs.Char.{to_ascii_lowercase};
ghost use Rattle.std.specs.Ordering.{nat_cmp};
ghost use Rattle.std.specs.Cmp.Lexicographic.{slice_cmp};
ghost use Rattle.std.specs.Int.Digits.{number_from_digits};
ghost use Rattle.dname.specs.Name.{lowered};
ghost use Rattle.nsec3_hash.specs.Base32Hex.{IsHash, digit_of, values_of, text_of, IsDigit, IsText};

/// The 32 digits of a hash in base32hex (RFC 4648, section 7), in small letters, with no padding.
pub fn to_base32hex(hash: &[u8; 20]) -> [u8; 32]
    ensures { result ≡ text_of hash.now }
{
    let mut text = [0; 32];
    'groups: for group in 0..4 {
        let number = number_of_octets(&hash[5 * group..5 * group + 5]);
        text[8 * group..8 * group + 8].copy_from_slice(&digits_of(number));
    }
    text
}

/// Reads a hash from its 32 digits in base32hex, in either case.
pub fn from_base32hex(text: &[u8]) -> Option<[u8; 20]>
    ensures read { IsSome result ↔ IsText text.now }
    ensures value { IfSome result (λ hash. text_of hash ≡ lowered text.now) }

    // The hash whose text it is, such as the one that `to_base32hex` wrote.
    ensures every_hash { (hash : List ℕ) → IsHash hash → text_of hash ≡ lowered text.now
        → result ≡ Some hash }
    ensures reads_back { (hash : List ℕ) → IsHash hash → text.now ≡ text_of hash
        → result ≡ Some hash }
{
    if text.len() != 32 {
        return None;
    }
    let mut hash = [0; 20];
    'groups: for group in 0..4 {
        let number = number_of_digits(&text[8 * group..8 * group + 8])?;
        hash[5 * group..5 * group + 5].copy_from_slice(&octets_of(number));
    }
    Some(hash)
}

/// Texts stand in the order of their hashes, both compared octet by octet. So hashed owner names sort as the hashes do
/// (RFC 5155, section 1.3).
pub fn order_law()
    ensures { (a b : List ℕ) → IsHash a → IsHash b
        → slice_cmp nat_cmp (text_of a) (text_of b) ≡ slice_cmp nat_cmp a b }
{}

// The number that five octets are, the first the highest.
fn number_of_octets(octets: &[u8]) -> u64
    requires { length octets.now ≡ 5 }
    ensures { result ≡ number_from_digits 256 octets.now }
{
    u64::from_be_bytes([
        0, 0, 0, octets[0], octets[1], octets[2], octets[3], octets[4],
    ])
}

// The last five octets of a number.
fn octets_of(number: u64) -> [u8; 5]
    requires { number < 2 ^ 40 }
    ensures size { length result ≡ 5 }
    ensures octets { All (λ octet. octet < 256) result }
    ensures value { number_from_digits 256 result ≡ number }
{
    let [_, _, _, a, b, c, d, e] = number.to_be_bytes();
    [a, b, c, d, e]
}

// The last eight digits of a number.
fn digits_of(number: u64) -> [u8; 8]
    ensures { result ≡ map digit_of (values_of 8 number) }
{
    [
        digit_of(number >> 35),
        digit_of(number >> 30),
        digit_of(number >> 25),
        digit_of(number >> 20),
        digit_of(number >> 15),
        digit_of(number >> 10),
        digit_of(number >> 5),
        digit_of(number),
    ]
}

fn digit_of(number: u64) -> u8
    ensures { result ≡ digit_of (number % 32) }
{
    let value = (number % 32) as u8;
    if value < 10 {
        b'0' + value
    } else {
        b'a' + (value - 10)
    }
}

// The number that eight digits are, in either case.
fn number_of_digits(digits: &[u8]) -> Option<u64>
    requires { length digits.now ≡ 8 }
    ensures read { IsSome result
        ↔ All (λ digit. IsDigit (to_ascii_lowercase digit)) digits.now }
    ensures small { IfSome result (λ number. number < 2 ^ 40) }
    ensures value { IfSome result (λ number.
        map digit_of (values_of 8 number) ≡ lowered digits.now) }
{
    let mut number = 0;
    for digit in digits {
        number = number * 32 + u64::from(value_of(*digit)?);
    }
    Some(number)
}

fn value_of(digit: u8) -> Option<u8>
    ensures read { IsSome result ↔ IsDigit (to_ascii_lowercase digit) }
    ensures small { IfSome result (λ value. value < 32) }
    ensures value { IfSome result (λ value. digit_of value ≡ to_ascii_lowercase digit) }
{
    match digit {
        b'0'..=b'9' => Some(digit - b'0'),
        b'a'..=b'v' => Some(digit - b'a' + 10),
        b'A'..=b'V' => Some(digit - b'A' + 10),
        _ => None,
    }
}

#[cfg(test)]
mod tests;
