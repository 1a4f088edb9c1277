ghost use Rattle.std.specs.Prelude.{◌≡◌, ◌≤◌, ℕ};
ghost use Rattle.denial_records.specs.TimeLeft.{time_left};

/// The TTL of a record with a life of so many seconds that ends at the moment `expiry`, both moments in seconds of one
/// clock. A clock that steps back never raises it above the life.
pub fn remaining(life: u32, expiry: u64, now: u32) -> u32
    ensures value { result ≡ time_left life expiry now }
    ensures expired { expiry ≤ now → result ≡ 0 }
    ensures never_above_life { result ≤ life }
    ensures never_rises { (earlier : ℕ) → earlier ≤ now → result
        ≤ time_left life expiry earlier }
{
    let left = expiry.saturating_sub(u64::from(now));
    left.min(u64::from(life)) as u32
}
