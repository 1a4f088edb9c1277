ghost use Rattle.std.specs.Prelude.{◌≡◌};
ghost use Rattle.forward_report.specs.Notices.{falls_silent, heard_after, upstream_notice};

use crate::{Notice, What};

/// How long nothing comes of an upstream that is called silent, in milliseconds.
pub const SILENCE: u64 = 5_000;

/// When the upstream was heard of last.
#[derive(Clone, Copy, Debug)]
pub struct Heard {
    /// When a new answer of it was seen last, or the start, in milliseconds.
    pub at: u64,
    /// How many clients had got an answer by then.
    pub answers: u64,
    /// How many had been told by then that none came in time.
    pub late: u64,
    pub is_silent: bool,
}

impl Heard {
    /// The line that is due.
    pub fn notice(self, now: u64, answers: u64, late: u64) -> Option<Notice>
        ensures { result ≡ upstream_notice now answers late self }
    {
        let what = if answers == self.answers {
            if !self.falls_silent(now, late) {
                return None;
            }
            What::Silent
        } else {
            if !self.is_silent {
                return None;
            }
            What::Back
        };
        Some(Notice {
            what,
            count: late.saturating_sub(self.late),
        })
    }

    /// What was heard by then.
    pub fn after(self, now: u64, answers: u64, late: u64) -> Heard
        ensures { result ≡ heard_after now answers late self }
    {
        if answers != self.answers {
            return Heard {
                at: now,
                answers,
                late,
                is_silent: false,
            };
        }
        Heard {
            is_silent: self.is_silent || self.falls_silent(now, late),
            ..self
        }
    }

    fn falls_silent(self, now: u64, late: u64) -> bool
        ensures { result ≡ falls_silent now late self }
    {
        !self.is_silent && self.late < late && now.saturating_sub(self.at) >= SILENCE
    }
}
