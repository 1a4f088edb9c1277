use denial_records::{Rrsig, SigFault};
use std::test::Fail;

// The RRSIG of RFC 4034, section 3.3, with the first octets of its signature.
const OF_HOST: &[u8] =
    b"\x00\x01\x05\x03\x00\x01\x51\x80\x3e\x7c\x9d\xd7\x3e\x55\x10\xd7\x0a\x52\x07example\x03com\x00\xa0\x90\x75\x5b";

#[test]
fn the_example_of_the_rfc_is_read(rt: HostRuntime) -> Result<(), Fail> {
    let rrsig = Rrsig::read(OF_HOST)?;
    let found = (rrsig.covered, rrsig.algorithm, rrsig.labels);
    assert!(rt; found == (1, 5, 3), "{found:?}");
    // 2003-03-22 17:31:03 and 2003-02-20 17:31:03
    let times = (rrsig.expiration, rrsig.inception);
    assert!(rt; times == (1048354263, 1045762263), "{times:?}");
    let found = (rrsig.original_ttl, rrsig.key_tag);
    assert!(rt; found == (86400, 2642), "{found:?}");
    let signer = rrsig.signer.wire();
    assert!(rt;
        signer == b"\x07example\x03com\x00".as_slice(),
        "{signer:?}"
    );
    Ok(())
}

// How many octets of the example there are, and the fault.
const SIZES: [(usize, Option<SigFault>); 5] = [
    (0, Some(SigFault::Short)),
    (17, Some(SigFault::Short)),
    (18, Some(SigFault::BadName)),
    // The root's octet is missing.
    (30, Some(SigFault::BadName)),
    // No signature.
    (31, None),
];

// The first size that has another fault, and which.
fn read_otherwise(rows: &[(usize, Option<SigFault>)]) -> Option<(usize, Option<SigFault>)> {
    for (size, fault) in rows.iter() {
        let size = (*size).min(OF_HOST.len());
        let found = Rrsig::read(&OF_HOST[..size]).err();
        if found != *fault {
            return Some((size, found));
        }
    }
    None
}

#[test]
fn each_fault_stands_at_its_place(rt: HostRuntime) {
    let wrong = read_otherwise(&SIZES);
    assert!(rt; wrong.is_none(), "{wrong:?}");
}
