use outside_core::{Clock, SystemClock};
use std::sync::atomic::{AtomicU32, Ordering};
use std::time::Duration;
use std::{io, time};

// A machine that tells one moment, past 2^32 seconds, at its second call.
#[derive(Drop)]
struct Fitful {
    calls: AtomicU32,
}

impl time::Clock for Fitful {
    fn monotonic(&self) -> io::Result<Duration> {
        Err(io::Error::from(io::ErrorKind::Unsupported))
    }

    fn since_1970(&self) -> io::Result<Duration> {
        if self.calls.fetch_add(1, Ordering::SeqCst) == 1 {
            Ok(Duration::from_secs(0x1_0000_0005))
        } else {
            Err(io::Error::from(io::ErrorKind::Unsupported))
        }
    }
}

#[test]
fn the_last_moment_stands_in(rt: HostRuntime) {
    let clock = SystemClock::over(Fitful {
        calls: AtomicU32::new(0),
    });
    let told = [clock.now(), clock.now(), clock.now()];
    assert!(rt; told == [0, 5, 5], "{told:?}");
    // This program was written after 2023.
    assert!(rt; SystemClock::over(&rt).now() > 1_700_000_000);
}
