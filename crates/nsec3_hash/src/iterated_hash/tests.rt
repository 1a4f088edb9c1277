use super::hash_name;
use crate::to_base32hex;
use dname::Name;

// The zone of RFC 5155, appendix A: salt AABBCCDD, 12 iterations.
#[test]
fn the_zone_of_the_standard(rt: HostRuntime) {
    let cases: [(&[u8], &[u8; 32]); 12] = [
        (b"\x07example\0", b"0p9mhaveqvm6t7vbl5lop2u3t2rp3tom"),
        // Letters come in any case, and the name has them lowered.
        (b"\x07EXAMPLE\0", b"0p9mhaveqvm6t7vbl5lop2u3t2rp3tom"),
        (b"\x01a\x07example\0", b"35mthgpgcu1qg68fab165klnsnk3dpvl"),
        (b"\x02ai\x07example\0", b"gjeqe526plbf1g8mklp59enfd789njgi"),
        (b"\x03ns1\x07example\0", b"2t7b4g4vsa5smi47k61mv5bv1a22bojr"),
        (b"\x03ns2\x07example\0", b"q04jkcevqvmu85r014c7dkba38o0ji5r"),
        (b"\x01w\x07example\0", b"k8udemvp1j2f7eg6jebps17vp3n8i58h"),
        (
            b"\x01*\x01w\x07example\0",
            b"r53bq7cc2uvmubfu5ocmm6pers9tk9en",
        ),
        (
            b"\x01x\x01w\x07example\0",
            b"b4um86eghhds6nea196smvmlo4ors995",
        ),
        (
            b"\x01y\x01w\x07example\0",
            b"ji6neoaepv8b5o6k4ev33abha8ht9fgc",
        ),
        (
            b"\x01x\x01y\x01w\x07example\0",
            b"2vptu5timamqttgl4luu9kg21e0aor3s",
        ),
        (b"\x02xx\x07example\0", b"t644ebqk9bibcna874givr6joj62mlhv"),
    ];
    for (wire, want) in cases {
        let Ok((name, _)) = Name::read(wire) else {
            panic!(rt; "not a name");
        };
        let hash = hash_name(&name, &[0xAA, 0xBB, 0xCC, 0xDD], 12);
        assert_eq!(rt; to_base32hex(&hash).as_slice(), want.as_slice());
    }
}

// The expected hashes are from Python's hashlib.
#[test]
fn salts_and_iterations(rt: HostRuntime) {
    let mut long_salt = [0u8; 255];
    for i in 0..255 {
        long_salt[i] = i as u8;
    }
    let cases: [(&[u8], &[u8], u16, &[u8; 32]); 6] = [
        (
            b"\x07example\0",
            b"",
            0,
            b"3msev9usmd4br9s97v51r2tdvmr9iqo1",
        ),
        (
            b"\x07example\0",
            b"",
            50,
            b"imhm0t1isq5et2nrroj26t9vu65g76a1",
        ),
        // The octets 0 to 254.
        (
            b"\x07example\0",
            &long_salt,
            0,
            b"6526ilnuqug9vckp324ss2f6mjc29hga",
        ),
        (
            b"\x07example\0",
            &long_salt,
            50,
            b"v1bcl9cg2rcufjdklvpeeiu1i3bbv747",
        ),
        // The root.
        (
            b"\0",
            &[0xAA, 0xBB, 0xCC, 0xDD],
            0,
            b"b7enbqbrjeq6786bitt2g6gqvjoviutu",
        ),
        (b"\0", b"", 1, b"fasdp12mo9fh69ahu5bseugoh3np33tc"),
    ];
    for (wire, salt, iterations, want) in cases {
        let Ok((name, _)) = Name::read(wire) else {
            panic!(rt; "not a name");
        };
        let hash = hash_name(&name, salt, iterations);
        assert_eq!(rt; to_base32hex(&hash).as_slice(), want.as_slice());
    }
}
