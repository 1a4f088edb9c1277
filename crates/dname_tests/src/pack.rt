use dname::{Pack, Packed};
use std::alloc::{AllocError, Global};
use std::test::Fail;

fn sevens(alloc: Global, size: usize) -> Result<Vec<u8>, AllocError> {
    vec![in alloc; 7; size]
}

// Whether the pack has these strings and no more, and tells how many they are.
fn has(mut rest: Packed<'_>, pieces: &[&[u8]]) -> bool {
    let is_counted = rest.count() == pieces.len();
    for piece in pieces {
        match rest.next() {
            Some(found) => {
                if found != *piece {
                    return false;
                }
            }
            None => return false,
        }
    }
    is_counted && rest.is_empty()
}

#[test]
fn keeps_its_strings_in_order(rt: HostRuntime) -> Result<(), Fail> {
    let alloc = rt.alloc();
    let long = sevens(alloc, 300)?;
    let pieces = [
        b"one".as_slice(),
        b"".as_slice(),
        long.as_slice(),
        b"two".as_slice(),
    ];
    let mut pack = Pack::empty(alloc);
    assert!(rt; pack.packed().is_empty());
    for piece in pieces {
        pack.push(piece)?;
    }
    let copy = pack.copy(alloc)?;
    assert!(rt; has(pack.packed(), &pieces));
    assert!(rt; has(copy.packed(), &pieces), "the copy");
    Ok(())
}

#[test]
fn gives_each_string_by_its_place(rt: HostRuntime) -> Result<(), Fail> {
    let alloc = rt.alloc();
    let mut pack = Pack::empty(alloc);
    pack.push(b"one")?;
    pack.push(b"")?;
    assert!(rt; pack.packed().get(0) == b"one".as_slice());
    assert!(rt; pack.packed().get(1) == b"".as_slice());
    Ok(())
}

// The first size that no string of the pack's may have, behind a short one.
fn lost(alloc: Global, sizes: &[usize]) -> Result<Option<usize>, AllocError> {
    for size in sizes {
        let long = sevens(alloc, *size)?;
        let mut pack = Pack::empty(alloc);
        pack.push(b"one")?;
        pack.push(long.as_slice())?;
        if !has(pack.packed(), &[b"one".as_slice(), long.as_slice()]) {
            return Ok(Some(*size));
        }
    }
    Ok(None)
}

// A set of 66,560 octets (256 records that each have a name of 255), and about the length that takes nine octets.
#[test]
fn a_string_may_have_any_size(rt: HostRuntime) -> Result<(), Fail> {
    let lost = lost(rt.alloc(), &[66_560, 0xFE_FFFF, 0xFF_0000, 0x100_0000])?;
    assert!(rt; lost.is_none(), "{lost:?}");
    Ok(())
}
