use dname::{octets_between, octets_from, u16_at, u32_at};

#[test]
fn octets_and_numbers_stand_at_their_offsets(rt: HostRuntime) {
    let octets = b"\x01\x02\x03\x04\x05\x06".as_slice();
    assert!(rt; octets_from(octets, 4) == b"\x05\x06".as_slice());
    assert!(rt; octets_between(octets, 1, 3) == b"\x02\x03".as_slice());
    let found = (u16_at(octets, 4), u32_at(octets, 1));
    assert!(rt; found == (0x0506, 0x0203_0405), "{found:?}");
}
