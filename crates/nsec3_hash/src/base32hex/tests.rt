use super::{from_base32hex, to_base32hex};

#[test]
fn texts_of_hashes(rt: HostRuntime) {
    let counted: [u8; 20] = [
        0, 1, 2, 3, 4, 5, 6, 7, 8, 9, 10, 11, 12, 13, 14, 15, 16, 17, 18, 19,
    ];
    let cases: [([u8; 20], &[u8; 32]); 5] = [
        ([0; 20], b"00000000000000000000000000000000"),
        ([255; 20], b"vvvvvvvvvvvvvvvvvvvvvvvvvvvvvvvv"),
        (counted, b"000g40o40k30e209185go38e1s8124gj"),
        // "fooba" of RFC 4648, section 10, four times.
        (
            *b"foobafoobafoobafooba",
            b"cpnmuoj1cpnmuoj1cpnmuoj1cpnmuoj1",
        ),
        // One bit at the end.
        (
            *b"\0\0\0\0\0\0\0\0\0\0\0\0\0\0\0\0\0\0\0\x01",
            b"00000000000000000000000000000001",
        ),
    ];
    for (hash, text) in cases {
        assert_eq!(rt; to_base32hex(&hash).as_slice(), text.as_slice());
        assert!(rt; from_base32hex(text) == Some(hash));
        let mut capitals = *text;
        capitals.make_ascii_uppercase();
        assert!(rt; from_base32hex(&capitals) == Some(hash));
    }
}

#[test]
fn what_is_read(rt: HostRuntime) {
    let cases: [(&[u8], bool); 14] = [
        (b"0p9mhaveqvm6t7vbl5lop2u3t2rp3tom", true),
        (b"35mthgpgcu1qg68fab165klnsnk3dpvl", true),
        (b"GJEQE526PLBF1G8MKLP59ENFD789NJGI", true),
        (b"2t7b4g4vsa5smi47k61mv5bv1a22bojR", true),
        (b"", false),
        // 31 digits, 33, and 40.
        (b"0p9mhaveqvm6t7vbl5lop2u3t2rp3to", false),
        (b"0p9mhaveqvm6t7vbl5lop2u3t2rp3tom0", false),
        (b"0p9mhaveqvm6t7vbl5lop2u3t2rp3tom00000000", false),
        // The octets beside the digits.
        (b"0p9mhaveqvm6t7vbl5lop2u3t2rp3tow", false),
        (b"Wp9mhaveqvm6t7vbl5lop2u3t2rp3tom", false),
        (b"0p9mhaveqvm6t7vb:5lop2u3t2rp3tom", false),
        (b"0p9mhaveqvm6t7vb/5lop2u3t2rp3tom", false),
        (b"0p9mhaveqvm6t7v@l5lop2u3t2rp3tom", false),
        (b"0p9mhaveqvm6t7v`l5lop2u3t2rp3tom", false),
    ];
    for (text, want) in cases {
        assert_eq!(rt; from_base32hex(text).is_some(), want);
    }
}
