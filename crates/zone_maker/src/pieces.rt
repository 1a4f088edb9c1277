ghost use Rattle.std.specs.Prelude.{◌≡◌, ◌++◌, length};
ghost use Rattle.byteorder.specs.Endian.{big_bytes};
ghost use Rattle.dname.specs.Name.{without_asterisk};
ghost use Rattle.dname.specs.declared.types.TheConstants.{IN_CLASS};
ghost use Rattle.zone_maker.specs.Made.{address_at};
ghost use Rattle.zone_maker.specs.Messages.{header_octets, signature_data, type_map};
ghost use Rattle.zone_maker.specs.Questions.{opt_octets};

use dname::Name;
use dname::types::{IN_CLASS, OPT_TYPE};

/// The data of the SOA record: the root twice, serial 1, refresh 3600, retry 600, expire 86400, minimum 300.
pub(crate) const SOA_DATA: [u8; 22] = [
    0, 0, 0, 0, 0, 1, 0, 0, 0x0e, 0x10, 0, 0, 0x02, 0x58, 0, 0x01, 0x51, 0x80, 0, 0, 0x01, 0x2c,
];

/// The address that the seed and the number i of a name give.
pub(crate) fn address_at(seed: u32, i: u32) -> [u8; 4]
    ensures { result ≡ address_at seed i }
{
    let number = (u64::from(seed) * 2_654_435_761 + u64::from(i)) % 0x100_0000;
    let [_, high, middle, low] = (number as u32).to_be_bytes();
    [10, high, middle, low]
}

/// The header of a message with one question.
pub(crate) fn header(
    id: u32,
    flags: u16,
    answers: u16,
    authorities: u16,
    additionals: u16,
) -> [u8; 12]
    ensures { result ≡ header_octets id flags answers authorities additionals }
{
    let [id_high, id_low] = ((id % 0x1_0000) as u16).to_be_bytes();
    let [flags_high, flags_low] = flags.to_be_bytes();
    let [answers_high, answers_low] = answers.to_be_bytes();
    let [authorities_high, authorities_low] = authorities.to_be_bytes();
    let [additionals_high, additionals_low] = additionals.to_be_bytes();
    [
        id_high,
        id_low,
        flags_high,
        flags_low,
        0,
        1,
        answers_high,
        answers_low,
        authorities_high,
        authorities_low,
        additionals_high,
        additionals_low,
    ]
}

/// What follows the name in a question.
pub(crate) fn question_tail(qtype: u16) -> [u8; 4]
    ensures { result ≡ big_bytes 2 qtype ++ big_bytes 2 IN_CLASS }
{
    let [type_high, type_low] = qtype.to_be_bytes();
    let [class_high, class_low] = IN_CLASS.to_be_bytes();
    [type_high, type_low, class_high, class_low]
}

/// What stands between the owner name and the data of a record that lives an hour.
pub(crate) fn record_head(rtype: u16, size: u16) -> [u8; 10]
    ensures { result
        ≡ big_bytes 2 rtype ++ big_bytes 2 IN_CLASS ++ big_bytes 4 3600 ++ big_bytes 2 size }
{
    let [type_high, type_low] = rtype.to_be_bytes();
    let [class_high, class_low] = IN_CLASS.to_be_bytes();
    let [size_high, size_low] = size.to_be_bytes();
    [
        type_high, type_low, class_high, class_low, 0, 0, 0x0e, 0x10, size_high, size_low,
    ]
}

/// The data of a signature of the owner's records of a type.
pub(crate) fn signature_data(owner: &Name, covered: u16) -> [u8; 36]
    ensures { result ≡ signature_data owner.now covered }
{
    let [covered_high, covered_low] = covered.to_be_bytes();
    let labels = signed_labels(owner);
    [
        covered_high,
        covered_low,
        13,
        labels,
        // original TTL
        0,
        0,
        0x0e,
        0x10,
        // expiration
        0x77,
        0x35,
        0x94,
        0,
        // inception
        0x35,
        0xa4,
        0xe9,
        0,
        // key tag
        0,
        1,
        // signer
        4,
        b'm',
        b'a',
        b'd',
        b'e',
        7,
        b'e',
        b'x',
        b'a',
        b'm',
        b'p',
        b'l',
        b'e',
        0,
        // signature
        0x5a,
        0x5a,
        0x5a,
        0x5a,
    ]
}

fn signed_labels(owner: &Name) -> u8
    ensures { result ≡ length (without_asterisk owner.now) }
{
    let _few = owner.labels();
    owner.owner_labels() as u8
}

/// The type bit maps of an NSEC record that has RRSIG, NSEC and the types of the first octet.
pub(crate) fn type_map(first: u8) -> [u8; 8]
    ensures { result ≡ type_map first }
{
    [0, 6, first, 0, 0, 0, 0, 3]
}

/// The OPT record of a query.
pub(crate) fn opt() -> [u8; 11]
    ensures { result ≡ opt_octets }
{
    let [type_high, type_low] = OPT_TYPE.to_be_bytes();
    [0, type_high, type_low, 0x04, 0xd0, 0, 0, 0x80, 0, 0, 0]
}
