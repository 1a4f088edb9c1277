use dname::OctetsList;
use std::test::Fail;
use zone_maker::make;

// The messages of seed 7 and four names, by a program of its own over dnspython 2.3.
const MESSAGES: [(usize, &[u8]); 5] = [
    (
        0,
        b"\0\0\x81\xa0\0\x01\0\0\0\x04\0\0\x04made\x07example\0\0\x01\0\x01\x04made\x07example\0\0\x06\0\x01\0\0\x0e\x10\0\x16\0\0\0\0\0\x01\0\0\x0e\x10\0\0\x02X\0\x01Q\x80\0\0\x01\x2c\x04made\x07example\0\0\x2e\0\x01\0\0\x0e\x10\0\x24\0\x06\x0d\x02\0\0\x0e\x10w5\x94\05\xa4\xe9\0\0\x01\x04made\x07example\0ZZZZ\x04made\x07example\0\0\x2f\0\x01\0\0\x0e\x10\0\x1e\x07n000000\x04made\x07example\0\0\x06\x22\0\0\0\0\x03\x04made\x07example\0\0\x2e\0\x01\0\0\x0e\x10\0\x24\0\x2f\x0d\x02\0\0\x0e\x10w5\x94\05\xa4\xe9\0\0\x01\x04made\x07example\0ZZZZ",
    ),
    (
        1,
        b"\0\x01\x81\xa0\0\x01\0\0\0\x04\0\0\x07n000000\x04made\x07example\0\0\x01\0\x01\x04made\x07example\0\0\x06\0\x01\0\0\x0e\x10\0\x16\0\0\0\0\0\x01\0\0\x0e\x10\0\0\x02X\0\x01Q\x80\0\0\x01\x2c\x04made\x07example\0\0\x2e\0\x01\0\0\x0e\x10\0\x24\0\x06\x0d\x02\0\0\x0e\x10w5\x94\05\xa4\xe9\0\0\x01\x04made\x07example\0ZZZZ\x07n000000\x04made\x07example\0\0\x2f\0\x01\0\0\x0e\x10\0\x20\x01x\x07n000001\x04made\x07example\0\0\x06\x40\0\0\0\0\x03\x07n000000\x04made\x07example\0\0\x2e\0\x01\0\0\x0e\x10\0\x24\0\x2f\x0d\x03\0\0\x0e\x10w5\x94\05\xa4\xe9\0\0\x01\x04made\x07example\0ZZZZ",
    ),
    (
        2,
        b"\0\x02\x81\xa0\0\x01\0\0\0\x04\0\0\x01x\x07n000001\x04made\x07example\0\0\x01\0\x01\x04made\x07example\0\0\x06\0\x01\0\0\x0e\x10\0\x16\0\0\0\0\0\x01\0\0\x0e\x10\0\0\x02X\0\x01Q\x80\0\0\x01\x2c\x04made\x07example\0\0\x2e\0\x01\0\0\x0e\x10\0\x24\0\x06\x0d\x02\0\0\x0e\x10w5\x94\05\xa4\xe9\0\0\x01\x04made\x07example\0ZZZZ\x01x\x07n000001\x04made\x07example\0\0\x2f\0\x01\0\0\x0e\x10\0\x1e\x07n000002\x04made\x07example\0\0\x06\x40\0\0\0\0\x03\x01x\x07n000001\x04made\x07example\0\0\x2e\0\x01\0\0\x0e\x10\0\x24\0\x2f\x0d\x04\0\0\x0e\x10w5\x94\05\xa4\xe9\0\0\x01\x04made\x07example\0ZZZZ",
    ),
    (
        3,
        b"\0\x03\x81\xa0\0\x01\0\0\0\x04\0\0\x07n000002\x04made\x07example\0\0\x01\0\x01\x04made\x07example\0\0\x06\0\x01\0\0\x0e\x10\0\x16\0\0\0\0\0\x01\0\0\x0e\x10\0\0\x02X\0\x01Q\x80\0\0\x01\x2c\x04made\x07example\0\0\x2e\0\x01\0\0\x0e\x10\0\x24\0\x06\x0d\x02\0\0\x0e\x10w5\x94\05\xa4\xe9\0\0\x01\x04made\x07example\0ZZZZ\x07n000002\x04made\x07example\0\0\x2f\0\x01\0\0\x0e\x10\0\x20\x01*\x07n000003\x04made\x07example\0\0\x06\x20\0\0\0\0\x03\x07n000002\x04made\x07example\0\0\x2e\0\x01\0\0\x0e\x10\0\x24\0\x2f\x0d\x03\0\0\x0e\x10w5\x94\05\xa4\xe9\0\0\x01\x04made\x07example\0ZZZZ",
    ),
    (
        4,
        b"\0\x04\x81\xa0\0\x01\0\x02\0\x04\0\0\x01*\x07n000003\x04made\x07example\0\0\x01\0\x01\x01*\x07n000003\x04made\x07example\0\0\x01\0\x01\0\0\x0e\x10\0\x04\x0a\x84S\xda\x01*\x07n000003\x04made\x07example\0\0\x2e\0\x01\0\0\x0e\x10\0\x24\0\x01\x0d\x03\0\0\x0e\x10w5\x94\05\xa4\xe9\0\0\x01\x04made\x07example\0ZZZZ\x04made\x07example\0\0\x06\0\x01\0\0\x0e\x10\0\x16\0\0\0\0\0\x01\0\0\x0e\x10\0\0\x02X\0\x01Q\x80\0\0\x01\x2c\x04made\x07example\0\0\x2e\0\x01\0\0\x0e\x10\0\x24\0\x06\x0d\x02\0\0\x0e\x10w5\x94\05\xa4\xe9\0\0\x01\x04made\x07example\0ZZZZ\x01*\x07n000003\x04made\x07example\0\0\x2f\0\x01\0\0\x0e\x10\0\x16\x04made\x07example\0\0\x06\x40\0\0\0\0\x03\x01*\x07n000003\x04made\x07example\0\0\x2e\0\x01\0\0\x0e\x10\0\x24\0\x2f\x0d\x03\0\0\x0e\x10w5\x94\05\xa4\xe9\0\0\x01\x04made\x07example\0ZZZZ",
    ),
];

fn is_at(messages: &OctetsList, place: usize, octets: &[u8]) -> bool {
    match messages.as_slice().get(place) {
        Some(message) => message.as_slice() == octets,
        None => false,
    }
}

fn first_wrong(messages: &OctetsList, wanted: &[(usize, &[u8])]) -> Option<usize> {
    for (place, octets) in wanted {
        if !is_at(messages, *place, octets) {
            return Some(*place);
        }
    }
    None
}

#[test]
fn messages_are_octet_for_octet(rt: HostRuntime) -> Result<(), Fail> {
    let made = make(rt.alloc(), 7, 4)?;
    assert!(rt; made.messages.len() == 5);
    let wrong = first_wrong(&made.messages, &MESSAGES);
    assert!(rt; wrong.is_none(), "{wrong:?}");
    Ok(())
}

#[test]
fn ten_thousand_names_are_made(rt: HostRuntime) -> Result<(), Fail> {
    let made = make(rt.alloc(), 1, 10_000)?;
    assert!(rt; made.messages.len() == 10_001);
    assert!(rt; made.zone.apex().wire() == b"\x04made\x07example\0".as_slice());
    Ok(())
}
