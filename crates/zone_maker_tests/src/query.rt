use reply_core::ReplyBuffer;
use zone_maker::question;

// Queries to the zone of seed 3 and eight names, as dnspython 2.3 writes them. Each case of a name's kind and of the first
// and the second time is there once, and the last has a number that an ID can't hold.
const QUERIES: [(u32, &[u8]); 8] = [
    (
        0,
        b"\0\0\x01\0\0\x01\0\0\0\0\0\x01\x01w\x07n000003\x04made\x07example\0\0\x01\0\x01\0\0\x29\x04\xd0\0\0\x80\0\0\0",
    ),
    (
        1,
        b"\0\x01\x01\0\0\x01\0\0\0\0\0\x01\x07n000004\x04made\x07example\0\0\x10\0\x01\0\0\x29\x04\xd0\0\0\x80\0\0\0",
    ),
    (
        2,
        b"\0\x02\x01\0\0\x01\0\0\0\0\0\x01\x07n000005\x04made\x07example\0\0\x01\0\x01\0\0\x29\x04\xd0\0\0\x80\0\0\0",
    ),
    (
        3,
        b"\0\x03\x01\0\0\x01\0\0\0\0\0\x01\x07n000006\x04made\x07example\0\0\x2b\0\x01\0\0\x29\x04\xd0\0\0\x80\0\0\0",
    ),
    (
        4,
        b"\0\x04\x01\0\0\x01\0\0\0\0\0\x01\x01w\x07n000007\x04made\x07example\0\0\x10\0\x01\0\0\x29\x04\xd0\0\0\x80\0\0\0",
    ),
    (
        5,
        b"\0\x05\x01\0\0\x01\0\0\0\0\0\x01\x01z\x07n000000\x04made\x07example\0\0\x01\0\x01\0\0\x29\x04\xd0\0\0\x80\0\0\0",
    ),
    (
        6,
        b"\0\x06\x01\0\0\x01\0\0\0\0\0\x01\x01y\x07n000001\x04made\x07example\0\0\x01\0\x01\0\0\x29\x04\xd0\0\0\x80\0\0\0",
    ),
    (
        65543,
        b"\0\x07\x01\0\0\x01\0\0\0\0\0\x01\x07n000002\x04made\x07example\0\0\x01\0\x01\0\0\x29\x04\xd0\0\0\x80\0\0\0",
    ),
];

fn is_asked(j: u32, octets: &[u8], out: &mut ReplyBuffer) -> bool {
    question(3, 8, j, out);
    out.as_slice() == octets
}

fn first_wrong(queries: &[(u32, &[u8])]) -> Option<u32> {
    let mut out = ReplyBuffer::new();
    for (j, octets) in queries {
        if !is_asked(*j, octets, &mut out) {
            return Some(*j);
        }
    }
    None
}

#[test]
fn queries_are_octet_for_octet(rt: HostRuntime) {
    let wrong = first_wrong(&QUERIES);
    assert!(rt; wrong.is_none(), "{wrong:?}");
}
