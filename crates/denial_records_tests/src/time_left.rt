use denial_records::remaining;

// Life, expiry, now, and the TTL.
const TIMES: [(u32, u64, u32, u32); 8] = [
    (3600, 5000, 1400, 3600),
    (3600, 5000, 1401, 3599),
    (3600, 5000, 4999, 1),
    (3600, 5000, 5000, 0),
    (3600, 5000, 5001, 0),
    // The clock stepped back.
    (3600, 5000, 0, 3600),
    (0, 5000, 1, 0),
    // Past the last second that 32 bits can tell.
    (u32::MAX, 8_589_934_590, u32::MAX, u32::MAX),
];

// The first row with another TTL, and which.
fn remaining_otherwise(rows: &[(u32, u64, u32, u32)]) -> Option<(usize, u32)> {
    for (i, (life, expiry, now, ttl)) in rows.iter().enumerate() {
        let found = remaining(*life, *expiry, *now);
        if found != *ttl {
            return Some((i, found));
        }
    }
    None
}

#[test]
fn a_ttl_falls_to_nothing_at_expiry(rt: HostRuntime) {
    let wrong = remaining_otherwise(&TIMES);
    assert!(rt; wrong.is_none(), "{wrong:?}");
}
