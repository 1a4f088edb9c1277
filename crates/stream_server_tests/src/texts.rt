//! A long record, the answer that brings it, and the reply that has it.
use std::alloc::Global;
use std::test::Fail;

/// The parts, one behind the other.
pub fn joined(alloc: Global, parts: &[&[u8]]) -> Result<Vec<u8>, Fail> {
    let mut whole = Vec::new(alloc);
    for part in parts {
        whole.extend_from_slice(part)?;
    }
    Ok(whole)
}

/// The data of a TXT record: so many character strings of 255 octets, and one of `last`.
pub fn text_of(alloc: Global, strings: usize, last: u8) -> Result<Vec<u8>, Fail> {
    let mut text = Vec::new(alloc);
    for _ in 0..strings {
        add_string(&mut text, 255)?;
    }
    add_string(&mut text, last)?;
    Ok(text)
}

fn add_string(text: &mut Vec<u8>, size: u8) -> Result<(), Fail> {
    text.push(size)?;
    for _ in 0..size {
        text.push(b't')?;
    }
    Ok(())
}

// The length of data in two octets.
fn length_of(data: &[u8]) -> [u8; 2] {
    ((data.len() % 65_536) as u16).to_be_bytes()
}

/// An answer with that record of example, and its signature.
pub fn answer_with(alloc: Global, text: &[u8]) -> Result<Vec<u8>, Fail> {
    joined(
        alloc,
        &[
            b"\x00\x01\x81\xa0\x00\x01\x00\x02\x00\x00\x00\x00\
            \x01a\x07example\x00\x00\x10\x00\x01\
            \x07example\x00\x00\x10\x00\x01\x00\x00\x0e\x10",
            &length_of(text),
            text,
            b"\x07example\x00\x00.\x00\x01\x00\x00\x0e\x10\x00\x1f\x00\x10\x0d\x01\x00\x00\x0e\x10w5\x94\x005\xa4\xe9\x00\x00\x01\x07example\x00ZZZZ",
        ],
    )
}

/// The reply, after its length: the record ten seconds later, and OPT. It isn't truncated.
pub fn reply_with(alloc: Global, text: &[u8]) -> Result<Vec<u8>, Fail> {
    let reply = joined(
        alloc,
        &[
            b"\x124\x81\x80\x00\x01\x00\x01\x00\x00\x00\x01\
            \x07example\x00\x00\x10\x00\x01\
            \x07example\x00\x00\x10\x00\x01\x00\x00\x0e\x06",
            &length_of(text),
            text,
            b"\x00\x00)\x04\xd0\x00\x00\x00\x00\x00\x00",
        ],
    )?;
    joined(alloc, &[&length_of(&reply), &reply])
}
