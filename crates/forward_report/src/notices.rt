ghost use Rattle.std.specs.Prelude.{◌≡◌};
ghost use Rattle.forward_report.specs.Notices.{looked, nothing_told, notices_at};

use crate::heard::Heard;
use crate::told::Told;
use crate::totals::{answers, counted, failures};
use crate::{CALLS, Call, Notice, WorkerReport};
use counters::Counter;
use std::marker::Model;

/// How many lines are due at once, at most: one for each call, and one for the upstream.
pub const NOTICES: usize = CALLS + 1;

/// What was told so far of failed calls and of the upstream's silence.
///
/// For one call there is at most one line a minute. The upstream is silent where for 5 seconds no client got an answer of it, and
/// since the last that did a client was told that none came in time.
#[derive(Drop)]
pub struct Notices {
    told: [Told; CALLS],
    heard: Heard,
}

impl Model for Notices {
    ghost use Rattle.std.specs.Prelude.{◌≡◌, length};
    ghost use Rattle.forward_report.specs.Notices.{Memory};
    ghost use Rattle.forward_report.specs.declared.call.TheConstants.{CALLS};

    ghost Value = { Memory };

    ghost view = { λ n. record { told = n.told; heard = n.heard } };

    ghost invariant = { λ n. length n.told ≡ CALLS };
}

impl Notices {
    /// Nothing was told, and nothing counted, at this moment in milliseconds.
    pub fn new(now: u64) -> Notices
        ensures { result ≡ nothing_told now }
    {
        Notices {
            told: [Told {
                at: None,
                failures: 0,
            }; CALLS],
            heard: Heard {
                at: now,
                answers: 0,
                late: 0,
                is_silent: false,
            },
        }
    }

    /// The lines that are due at this moment, in milliseconds, by what the workers have counted: those on calls in the order of
    /// `Call::ALL`, and then that on the upstream.
    pub fn look(&mut self, now: u64, workers: &[WorkerReport]) -> [Option<Notice>; NOTICES]
        ensures notices { result ≡ notices_at now workers.now self.old }
        ensures after { self.new ≡ looked now workers.now self.old }
    {
        let mut notices = [None; NOTICES];
        for call in Call::ALL {
            let place = call.place();
            let failures = failures(workers, call);
            let told = self.told[place];
            notices[place] = told.notice(now, call, failures);
            self.told[place] = told.after(now, failures);
        }
        let answers = answers(workers);
        let late = counted(workers, Counter::Late);
        notices[CALLS] = self.heard.notice(now, answers, late);
        self.heard = self.heard.after(now, answers, late);
        notices
    }
}
