use crate::pieces::{joined, nth};
use dname::OutOfMemory;
use dnswire::{WireFault, read_message};
use std::alloc::Global;
use std::test::Fail;

// What stands before a record's type: a header, at offset 12 a name to point at, as the question's, and a pointer to it.
const BEFORE: &[u8] =
    b"\x12\x34\x81\x80\x00\x01\x00\x01\x00\x00\x00\x00\x07Example\x00\x00\x10\x00\x01\xc0\x0c";

// Its class and TTL.
const BETWEEN: &[u8] = b"\x00\x01\x00\x00\x0e\x10";

// A type, whether its layout ends with whatever remains, data, and what is kept of it.
type Row<'a> = (u16, bool, &'a [u8], &'a [u8]);

// The data begins at offset 37. The pointers go to the name at 12, and where they are 37 or 39, to a name in the same data.
const DATA: [Row<'static>; 27] = [
    // Names alone (RFC 1035, section 3.3; RFC 6672, section 2.1).
    (2, false, b"\x02nS\xc0\x0c", b"\x02nS\x07Example\x00"),
    (3, false, b"\x04mAil\x00", b"\x04mAil\x00"),
    (4, false, b"\xc0\x0c", b"\x07Example\x00"),
    (5, false, b"\x03Www\xc0\x0c", b"\x03Www\x07Example\x00"),
    (7, false, b"\x01B\x00", b"\x01B\x00"),
    (8, false, b"\xc0\x0c", b"\x07Example\x00"),
    (9, false, b"\x00", b"\x00"),
    (12, false, b"\x04Host\xc0\x0c", b"\x04Host\x07Example\x00"),
    (39, false, b"\x03Sub\xc0\x0c", b"\x03Sub\x07Example\x00"),
    // The mailbox of the SOA points to its server.
    (
        6,
        false,
        b"\x02nS\xc0\x0c\x05Admin\xc0\x25\x00\x00\x00\x01\x00\x00\x0e\x10\x00\x00\x02\x58\x00\x01\x51\x80\x00\x00\x01\x2c",
        b"\x02nS\x07Example\x00\x05Admin\x02nS\x07Example\x00\x00\x00\x00\x01\x00\x00\x0e\x10\x00\x00\x02\x58\x00\x01\x51\x80\x00\x00\x01\x2c",
    ),
    // MINFO and RP.
    (14, false, b"\xc0\x0c\x00", b"\x07Example\x00\x00"),
    (
        17,
        false,
        b"\x01R\xc0\x0c\xc0\x25",
        b"\x01R\x07Example\x00\x01R\x07Example\x00",
    ),
    // MX, AFSDB, RT and KX: a preference or subtype first.
    (
        15,
        false,
        b"\x00\x0a\x02mX\xc0\x0c",
        b"\x00\x0a\x02mX\x07Example\x00",
    ),
    (18, false, b"\x00\x01\x02dB\x00", b"\x00\x01\x02dB\x00"),
    (21, false, b"\xc0\x0c\xc0\x0c", b"\xc0\x0c\x07Example\x00"),
    (
        36,
        false,
        b"\x00\x01\x02kX\xc0\x0c",
        b"\x00\x01\x02kX\x07Example\x00",
    ),
    // SIG and RRSIG: the signature isn't looked at.
    (
        24,
        true,
        b"\x00\x01\x05\x02\x00\x00\x0e\x10\x77\x35\x94\x00\x35\xa4\xe9\x00\x00\x01\xc0\x0c\xc0\x0cS",
        b"\x00\x01\x05\x02\x00\x00\x0e\x10\x77\x35\x94\x00\x35\xa4\xe9\x00\x00\x01\x07Example\x00\xc0\x0cS",
    ),
    (
        46,
        true,
        b"\x00\x06\x0d\x01\x00\x00\x0e\x10\x77\x35\x94\x00\x35\xa4\xe9\x00\x00\x01\x03Sig\xc0\x0cS",
        b"\x00\x06\x0d\x01\x00\x00\x0e\x10\x77\x35\x94\x00\x35\xa4\xe9\x00\x00\x01\x03Sig\x07Example\x00S",
    ),
    // PX.
    (
        26,
        false,
        b"\x00\x0a\x01A\xc0\x0c\x01B\xc0\x27",
        b"\x00\x0a\x01A\x07Example\x00\x01B\x01A\x07Example\x00",
    ),
    // NXT and NSEC: the bit maps remain.
    (
        30,
        true,
        b"\x04Next\xc0\x0c\x62\x01\x80\x08",
        b"\x04Next\x07Example\x00\x62\x01\x80\x08",
    ),
    (
        47,
        true,
        b"\x04Host\xc0\x0c\x00\x06\x40\x01\x00\x00\x00\x03",
        b"\x04Host\x07Example\x00\x00\x06\x40\x01\x00\x00\x00\x03",
    ),
    // SRV: the target stands after six octets.
    (
        33,
        false,
        b"\x00\x01\x00\x02\x00\x35\x03sRv\xc0\x0c",
        b"\x00\x01\x00\x02\x00\x35\x03sRv\x07Example\x00",
    ),
    // NAPTR: its character strings aren't names.
    (
        35,
        false,
        b"\x00\x64\x00\x0a\x01U\x07E2U+sIp\x02\xc0\x0c\xc0\x0c",
        b"\x00\x64\x00\x0a\x01U\x07E2U+sIp\x02\xc0\x0c\x07Example\x00",
    ),
    // Types without names: A, TXT, OPT and one for private use.
    (1, true, b"\xc0\x0c\x02\x01", b"\xc0\x0c\x02\x01"),
    (16, true, b"\x03aBc", b"\x03aBc"),
    (
        41,
        true,
        b"\x00\x0a\x00\x02\xc0\x0c",
        b"\x00\x0a\x00\x02\xc0\x0c",
    ),
    (65280, true, b"\x01X\xc0\x0c", b"\x01X\xc0\x0c"),
];

// What is read of a record of that type, of whose data the last octets stand after it: its data, or the message's fault.
fn read_before(
    alloc: Global,
    rtype: u16,
    octets: &[u8],
    left: usize,
) -> Result<Result<Vec<u8>, WireFault>, OutOfMemory> {
    let size = (octets.len().saturating_sub(left) % 0x1_0000) as u16;
    let message = joined(
        alloc,
        &[
            BEFORE,
            &rtype.to_be_bytes(),
            BETWEEN,
            &size.to_be_bytes(),
            octets,
        ],
    )?;
    match read_message(alloc, &message) {
        Ok(message) => match nth(&message.answer, 0) {
            Some(rr) => Ok(Ok(Vec::from_slice(alloc, rr.octets.as_slice())?)),
            None => Ok(Err(WireFault::BadCount)),
        },
        Err(fault) => Ok(Err(fault)),
    }
}

// Whether data that ends so many octets before the message is read as this, or refused where it isn't.
fn is_kept(
    alloc: Global,
    rtype: u16,
    octets: &[u8],
    left: usize,
    wanted: Option<&[u8]>,
) -> Result<bool, OutOfMemory> {
    match read_before(alloc, rtype, octets, left)? {
        Ok(found) => Ok(wanted == Some(found.as_slice())),
        Err(fault) => Ok(wanted.is_none() && fault == WireFault::BadData { at: 37 }),
    }
}

// Of the row's data with an octet more, as it stands, and with one less, whether each is read as it should be.
fn are_kept(alloc: Global, row: &Row<'_>) -> Result<[bool; 3], OutOfMemory> {
    let (rtype, is_open, data, kept) = *row;
    let octets = joined(alloc, &[data, b"!"])?;
    let longer = joined(alloc, &[kept, b"!"])?;
    let shorter = kept.split_last().map_or(kept, |(_, front)| front);
    let (longer, shorter) = if is_open {
        (Some(longer.as_slice()), Some(shorter))
    } else {
        (None, None)
    };
    Ok([
        is_kept(alloc, rtype, &octets, 0, longer)?,
        is_kept(alloc, rtype, &octets, 1, Some(kept))?,
        is_kept(alloc, rtype, &octets, 2, shorter)?,
    ])
}

// The first type whose data is read otherwise, and which of the three is.
fn kept_otherwise(
    alloc: Global,
    rows: &[Row<'_>],
) -> Result<Option<(u16, [bool; 3])>, OutOfMemory> {
    for row in rows {
        let found = are_kept(alloc, row)?;
        if found != [true; 3] {
            return Ok(Some((row.0, found)));
        }
    }
    Ok(None)
}

#[test]
fn data_has_the_layout_of_its_type(rt: HostRuntime) -> Result<(), Fail> {
    let wrong = kept_otherwise(rt.alloc(), &DATA)?;
    assert!(rt; wrong.is_none(), "{wrong:?}");
    Ok(())
}

// A type, the octets from offset 37 on, and how many of them, at their end, aren't the data's.
const NO_DATA: [(u16, &[u8], usize); 18] = [
    // A pointer to the start of its own run, and one after a label to itself.
    (2, b"\xc0\x25", 0),
    (2, b"\x01a\xc0\x25", 0),
    (2, b"\x01a\xc0\x27", 0),
    // A pointer forward, within the data or after it.
    (30, b"\xc0\x27\x00", 0),
    (2, b"\xc0\x27\x00", 1),
    (14, b"\x00\xc0\x28\x00", 1),
    // A second name that points to its own run.
    (17, b"\x00\xc0\x26", 0),
    (17, b"\xc0\x0c\x01a\xc0\x27", 0),
    // A name's end, its label or its pointer's second octet stands after the data.
    (2, b"\x03abc\x00", 1),
    (2, b"\x03abc\x00", 2),
    (2, b"\x01a\xc0\x0c", 1),
    (47, b"\x03abc\x00\x00\x01\x40", 4),
    // Length octets that are neither a label's nor a pointer's.
    (2, b"\x40\x00", 0),
    (2, b"\x80\x00", 0),
    // An octet of a preference, a character string's length, an octet of one, and a name are missing.
    (15, b"\x00\x00", 1),
    (35, b"\x00\x64\x00\x0a\x00\x00", 0),
    (35, b"\x00\x64\x00\x0a\x00\x00\x03abc\x00", 2),
    (35, b"\x00\x64\x00\x0a\x00\x00\x00", 0),
];

// The first row whose data isn't refused.
fn first_kept(alloc: Global, rows: &[(u16, &[u8], usize)]) -> Result<Option<usize>, OutOfMemory> {
    for (i, (rtype, octets, left)) in rows.iter().enumerate() {
        if !is_kept(alloc, *rtype, octets, *left, None)? {
            return Ok(Some(i));
        }
    }
    Ok(None)
}

#[test]
fn data_of_another_layout_is_refused(rt: HostRuntime) -> Result<(), Fail> {
    let wrong = first_kept(rt.alloc(), &NO_DATA)?;
    assert!(rt; wrong.is_none(), "{wrong:?}");
    Ok(())
}
