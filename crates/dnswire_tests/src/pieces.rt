use dname::OutOfMemory;
use dnswire::{Rr, RrList};
use std::alloc::Global;

// The pieces, one behind the other.
pub(crate) fn joined(alloc: Global, pieces: &[&[u8]]) -> Result<Vec<u8>, OutOfMemory> {
    let mut octets = Vec::new(alloc);
    for piece in pieces {
        octets.extend_from_slice(piece)?;
    }
    Ok(octets)
}

// Three labels of 63 octets.
pub(crate) fn push_long(octets: &mut Vec<u8>) -> Result<(), OutOfMemory> {
    for _ in 0..3 {
        octets.extend_from_slice(LONG)?;
    }
    Ok(())
}

const LONG: &[u8] = b"\x3fabcdefgabcdefgabcdefgabcdefgabcdefgabcdefgabcdefgabcdefgabcdefg";

// A label of so many octets.
pub(crate) fn push_label(octets: &mut Vec<u8>, size: u8) -> Result<(), OutOfMemory> {
    octets.push(size)?;
    for _ in 0..size {
        octets.push(b'a')?;
    }
    Ok(())
}

// The record at the place, if there is one.
pub(crate) fn nth(rrs: &RrList, place: usize) -> Option<&Rr> {
    rrs.as_slice().get(place)
}

pub(crate) fn is_owner(rr: &Rr, wire: &[u8]) -> bool {
    rr.owner.name().wire() == wire
}
