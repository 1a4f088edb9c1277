//! Messages for tests, written by hand.
use std::alloc::{AllocError, Global};

/// The moment of the tests, in seconds.
pub const NOW: u32 = 1_000_000_000;

/// QR, RD, RA and AD.
pub const FLAGS: u16 = 0x81a0;

pub const EXAMPLE: &[u8] = b"\x07example\x00";

pub const A_EXAMPLE: &[u8] = b"\x01a\x07example\x00";

/// A record, and what its signature says.
#[derive(Clone, Copy)]
pub struct Row {
    pub owner: &'static [u8],
    pub rtype: u16,
    pub class: u16,
    pub ttl: u32,
    pub data: &'static [u8],
    pub labels: u8,
    pub original_ttl: u32,
    pub expiration: u32,
    pub signer: &'static [u8],
}

/// The A record of a.example.
pub const GOOD: Row = Row {
    owner: A_EXAMPLE,
    rtype: 1,
    class: 1,
    ttl: 3600,
    data: b"\xc0\x00\x02\x01",
    labels: 2,
    original_ttl: 3600,
    expiration: 2_000_000_000,
    signer: EXAMPLE,
};

/// What stands in a section of a message: the row's record, or the RRSIG of it, in its class.
#[derive(Clone, Copy)]
pub enum Part {
    Rr(Row),
    Rrsig(Row),
}

fn push_rr(octets: &mut Vec<u8>, row: &Row) -> Result<(), AllocError> {
    octets.extend_from_slice(row.owner)?;
    push_fields(octets, row.rtype, row, row.data.len())?;
    octets.extend_from_slice(row.data)
}

// Type, class, TTL and the data's length.
fn push_fields(octets: &mut Vec<u8>, rtype: u16, row: &Row, size: usize) -> Result<(), AllocError> {
    octets.extend_from_slice(&rtype.to_be_bytes())?;
    octets.extend_from_slice(&row.class.to_be_bytes())?;
    octets.extend_from_slice(&row.ttl.to_be_bytes())?;
    octets.extend_from_slice(&((size % 65536) as u16).to_be_bytes())
}

fn push_rrsig(octets: &mut Vec<u8>, row: &Row) -> Result<(), AllocError> {
    octets.extend_from_slice(row.owner)?;
    push_fields(octets, 46, row, row.signer.len().saturating_add(22))?;
    octets.extend_from_slice(&row.rtype.to_be_bytes())?;
    octets.extend_from_slice(&[13, row.labels])?;
    octets.extend_from_slice(&row.original_ttl.to_be_bytes())?;
    octets.extend_from_slice(&row.expiration.to_be_bytes())?;
    octets.extend_from_slice(b"\x35\xa4\xe9\x00\x00\x01")?;
    octets.extend_from_slice(row.signer)?;
    octets.extend_from_slice(b"\x5a\x5a\x5a\x5a")
}

fn push_parts(octets: &mut Vec<u8>, parts: &[Part]) -> Result<(), AllocError> {
    for part in parts {
        match part {
            Part::Rr(row) => push_rr(octets, row)?,
            Part::Rrsig(row) => push_rrsig(octets, row)?,
        }
    }
    Ok(())
}

/// A message that asks for the MX records of a.example, with these three sections.
pub fn message(
    alloc: Global,
    flags: u16,
    answer: &[Part],
    authority: &[Part],
    additional: &[Part],
) -> Result<Vec<u8>, AllocError> {
    let mut octets = Vec::from_slice(alloc, b"\x00\x07")?;
    octets.extend_from_slice(&flags.to_be_bytes())?;
    octets.extend_from_slice(b"\x00\x01")?;
    for section in [answer, authority, additional] {
        octets.extend_from_slice(&((section.len() % 65536) as u16).to_be_bytes())?;
    }
    octets.extend_from_slice(A_EXAMPLE)?;
    octets.extend_from_slice(b"\x00\x0f\x00\x01")?;
    for section in [answer, authority, additional] {
        push_parts(&mut octets, section)?;
    }
    Ok(octets)
}

/// The record with its RRSIG as the answer section.
pub fn alone(alloc: Global, flags: u16, row: Row) -> Result<Vec<u8>, AllocError> {
    message(alloc, flags, &[Part::Rr(row), Part::Rrsig(row)], &[], &[])
}
