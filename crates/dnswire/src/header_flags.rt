ghost use Rattle.std.specs.Prelude.{◌≡◌, ◌<◌};
ghost use Rattle.dnswire.specs.Header.{is_set, is_response, opcode_of, is_answer, has_tc, has_rd, has_ad, has_cd, low_rcode};

use crate::flags::{AD, CD, QR, RD, TC};
use std::marker::Model;

/// The opcode of a standard query (RFC 1035, section 4.1.1).
pub(crate) const STANDARD_QUERY: u8 = 0;

/// The second word of a message's header, seen as a number: QR, OPCODE, AA, TC, RD, RA, AD, CD and the low four bits of the
/// RCODE (RFC 1035, section 4.1.1; AD and CD: RFC 4035, section 3).
#[derive(Clone, Copy, Debug, PartialEq, Eq)]
pub struct HeaderFlags {
    bits: u16,
}

impl Model for HeaderFlags {
    ghost use Rattle.std.specs.Prelude.{ℕ};

    ghost Value = { ℕ };

    ghost view = { λ f. f.bits };

    ghost inverse = { λ bits. record { bits = bits } };
}

impl HeaderFlags {
    /// The flags with these bits.
    pub fn of(bits: u16) -> HeaderFlags
        ensures { result ≡ bits }
    {
        HeaderFlags { bits }
    }

    /// QR: the message is a response.
    pub fn is_response(self) -> bool
        ensures { result ≡ is_response self }
    {
        is_set(self.bits, QR)
    }

    /// The four bits after QR; 0 is a standard query.
    pub fn opcode(self) -> u8
        ensures { result ≡ opcode_of self }
    {
        (self.bits / 0x800 % 16) as u8
    }

    /// The message is a response to a standard query.
    pub fn is_answer(self) -> bool
        ensures { result ≡ is_answer self }
    {
        self.is_response() && self.opcode() == STANDARD_QUERY
    }

    /// TC: the message is truncated.
    pub fn has_tc(self) -> bool
        ensures { result ≡ has_tc self }
    {
        is_set(self.bits, TC)
    }

    /// RD: recursion is desired.
    pub fn has_rd(self) -> bool
        ensures { result ≡ has_rd self }
    {
        is_set(self.bits, RD)
    }

    /// AD: the data is authentic (RFC 4035, section 3.2.3).
    pub fn has_ad(self) -> bool
        ensures { result ≡ has_ad self }
    {
        is_set(self.bits, AD)
    }

    /// CD: checking is disabled (RFC 4035, section 3.2.2).
    pub fn has_cd(self) -> bool
        ensures { result ≡ has_cd self }
    {
        is_set(self.bits, CD)
    }

    /// The low four bits of the RCODE.
    pub fn low_rcode(self) -> u16
        ensures value { result ≡ low_rcode self }
    {
        self.bits % 16
    }
}

fn is_set(flags: u16, bit: u16) -> bool
    requires { 0 < bit }
    ensures { result ≡ is_set bit flags }
{
    flags / bit % 2 == 1
}
