use dnswire::HeaderFlags;

// What the flags say: QR, the opcode, that they are an answer's, TC, RD, AD, CD and the low bits of the RCODE.
type Said = (bool, u8, bool, [bool; 4], u16);

fn said(flags: HeaderFlags) -> Said {
    (
        flags.is_response(),
        flags.opcode(),
        flags.is_answer(),
        [
            flags.has_tc(),
            flags.has_rd(),
            flags.has_ad(),
            flags.has_cd(),
        ],
        flags.low_rcode(),
    )
}

// A header's second word, and what its bits are (RFC 1035, section 4.1.1; RFC 4035, section 3).
const WORDS: [(u16, Said); 10] = [
    (0x0000, (false, 0, false, [false; 4], 0)),
    (0x8000, (true, 0, true, [false; 4], 0)),
    // Opcodes 1 and 15, of a query and of a response.
    (0x0800, (false, 1, false, [false; 4], 0)),
    (0xf800, (true, 15, false, [false; 4], 0)),
    // AA, RA and the bit that has no meaning.
    (0x84c0, (true, 0, true, [false; 4], 0)),
    (0x0200, (false, 0, false, [true, false, false, false], 0)),
    (0x0100, (false, 0, false, [false, true, false, false], 0)),
    (0x0020, (false, 0, false, [false, false, true, false], 0)),
    (0x0010, (false, 0, false, [false, false, false, true], 0)),
    // A name error.
    (0x8183, (true, 0, true, [false, true, false, false], 3)),
];

// The first word that says something else, and what.
fn said_otherwise(rows: &[(u16, Said)]) -> Option<(u16, Said)> {
    for (word, wanted) in rows {
        let found = said(HeaderFlags::of(*word));
        if found != *wanted {
            return Some((*word, found));
        }
    }
    None
}

#[test]
fn flags_have_their_bits(rt: HostRuntime) {
    let wrong = said_otherwise(&WORDS);
    assert!(rt; wrong.is_none(), "{wrong:?}");
}
