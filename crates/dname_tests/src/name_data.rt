use dname::{Name, Pack, name_in, one_name_in};
use std::alloc::{AllocError, Global};
use std::test::Fail;

// Data, and the wire form of the name that it is; none is given for no name.
const DATA: [(&[u8], &[u8]); 6] = [
    (b"\x00", b"\x00"),
    (b"\x01A\x07eXample\x00", b"\x01a\x07example\x00"),
    // Nothing, no end, an octet more, a pointer.
    (b"", b""),
    (b"\x01a", b""),
    (b"\x01a\x00\x00", b""),
    (b"\xc0\x0c", b""),
];

// Whether the name has the wire form, or there is none and the wire form has no octets.
fn is(name: &Option<Name>, wire: &[u8]) -> bool {
    match name {
        Some(name) => name.wire() == wire,
        None => wire.is_empty(),
    }
}

// The first row whose data is another name.
fn read_otherwise(rows: &[(&[u8], &[u8])]) -> Option<usize> {
    for (i, (octets, wire)) in rows.iter().enumerate() {
        if !is(&name_in(octets), wire) {
            return Some(i);
        }
    }
    None
}

#[test]
fn data_is_read_whole(rt: HostRuntime) {
    let wrong = read_otherwise(&DATA);
    assert!(rt; wrong.is_none(), "{wrong:?}");
}

// Whether the items are, as one name, the wire form.
fn one_is(alloc: Global, items: &[&[u8]], wire: &[u8]) -> Result<bool, AllocError> {
    let mut pack = Pack::empty(alloc);
    for item in items {
        pack.push(item)?;
    }
    Ok(is(&one_name_in(pack.packed()), wire))
}

#[test]
fn several_items_are_no_name(rt: HostRuntime) -> Result<(), Fail> {
    let alloc = rt.alloc();
    let found = (
        one_is(alloc, &[], b"")?,
        one_is(alloc, &[b"\x01A\x00"], b"\x01a\x00")?,
        one_is(alloc, &[b"\x01a\x00", b"\x01a\x00"], b"")?,
    );
    assert!(rt; found == (true, true, true), "{found:?}");
    Ok(())
}
