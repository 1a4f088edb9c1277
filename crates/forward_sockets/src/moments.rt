//! Moments as clocks tell them.
use arrivals::Moment;
use std::time::{Clock, Duration};

/// Before any clock has told one.
pub(crate) const START: Moment = Moment {
    seconds: 0,
    millis: 0,
};

/// Goes on to what the clock says. What it doesn't say stays.
pub(crate) fn go_on<C: Clock>(moment: &mut Moment, clock: &C) {
    if let Ok(since) = clock.since_1970() {
        moment.seconds = (since.as_secs() % 0x1_0000_0000) as u32;
    }
    if let Ok(since) = clock.monotonic() {
        moment.millis = moment.millis.max(millis_of(since));
    }
}

fn millis_of(since: Duration) -> u64 {
    u64::try_from(since.as_millis()).unwrap_or(u64::MAX)
}
