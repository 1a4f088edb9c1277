use dname::{Name, arc_has};
use std::test::Fail;

// An arc's start and end, a key, and whether the arc has it; each stands for a name and for a hash.
const ARCS: [(u8, u8, u8, bool); 8] = [
    // An arc begins at its start and ends before its end.
    (b'b', b'd', b'b', true),
    (b'b', b'd', b'c', true),
    (b'b', b'd', b'd', false),
    (b'b', b'd', b'a', false),
    // The last arc goes over the end of the order.
    (b'd', b'b', b'e', true),
    (b'd', b'b', b'a', true),
    (b'd', b'b', b'c', false),
    // From a key to itself it is the whole ring.
    (b'b', b'b', b'c', true),
];

fn name(octet: u8) -> Result<Name, Fail> {
    let (name, _) = Name::read(&[1, octet, 0])?;
    Ok(name)
}

#[test]
fn arcs_have_their_keys(rt: HostRuntime) -> Result<(), Fail> {
    for (start, end, key, has) in ARCS {
        let names = (name(start)?, name(end)?, name(key)?);
        let hashes = ([start; 20], [end; 20], [key; 20]);
        let found = (
            arc_has(&names.0, &names.1, &names.2),
            arc_has(&hashes.0, &hashes.1, &hashes.2),
        );
        assert!(rt; found == (has, has), "{start} {end} {key}: {found:?}");
    }
    Ok(())
}
