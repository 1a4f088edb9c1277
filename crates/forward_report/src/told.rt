ghost use Rattle.std.specs.Prelude.{◌≡◌};
ghost use Rattle.forward_report.specs.Notices.{call_notice, is_due, is_minute_past, told_after};

use crate::{Call, Notice, What};

/// Between two lines on one call at least, in milliseconds.
pub const MINUTE: u64 = 60_000;

/// What was told of one call.
#[derive(Clone, Copy, Debug)]
pub struct Told {
    /// When its last line was written, in milliseconds.
    pub at: Option<u64>,
    /// How often it had failed by then.
    pub failures: u64,
}

impl Told {
    /// The line that is due.
    pub fn notice(self, now: u64, call: Call, failures: u64) -> Option<Notice>
        ensures { result ≡ call_notice now call failures self }
    {
        if !self.is_due(now, failures) {
            return None;
        }
        Some(Notice {
            what: What::Failed(call),
            count: failures - self.failures,
        })
    }

    /// What was told when that line has been written.
    pub fn after(self, now: u64, failures: u64) -> Told
        ensures { result ≡ told_after now failures self }
    {
        if !self.is_due(now, failures) {
            return self;
        }
        Told {
            at: Some(now),
            failures,
        }
    }

    fn is_due(self, now: u64, failures: u64) -> bool
        ensures { result ≡ is_due now failures self }
    {
        self.failures < failures && self.is_minute_past(now)
    }

    fn is_minute_past(self, now: u64) -> bool
        ensures { result ≡ is_minute_past now self.at }
    {
        match self.at {
            None => true,
            Some(at) => now.saturating_sub(at) >= MINUTE,
        }
    }
}
