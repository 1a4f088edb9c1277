//! Connections whose query comes in two pieces, cut in every place, and octet by octet.
ghost use Rattle.std.specs.Prelude.{None};

use super::connections::{ANSWER, DENIED, QUERY, run_over};
use dname::OutOfMemory;
use gateway::Gateway;
use outside_core::{Failed, Sink, Source};
use running::Status;
use std::alloc::Global;
use std::sync::Wait;
use std::test::Fail;
use std::thread::Threads;

// Gives the query up to the cut and then the rest, so many octets a call at most.
#[derive(Debug, Drop)]
struct Pieces {
    given: usize,
    cut: usize,
    most: usize,
}

impl Source for Pieces {
    ghost taken = { λ _. None };

    ghost left = { λ _. None };

    ghost faults = { λ _. 0 };

    fn read(&mut self, into: &mut [u8]) -> Result<usize, Failed> {
        let end = if self.given < self.cut {
            self.cut
        } else {
            QUERY.len()
        };
        let count = end
            .saturating_sub(self.given)
            .min(self.most)
            .min(into.len());
        for i in 0..count {
            if let Some(octet) = QUERY.get(self.given.saturating_add(i)) {
                into[i] = *octet;
            }
        }
        self.given = self.given.saturating_add(count);
        Ok(count)
    }
}

// Compares what is written with the reply, and tells nothing.
#[derive(Debug, Drop)]
struct Compared {
    written: usize,
    right: bool,
}

impl Sink for Compared {
    ghost written = { λ _. None };

    ghost faults = { λ _. 0 };

    fn write(&mut self, piece: &[u8]) -> Result<usize, Failed> {
        let end = self.written.saturating_add(piece.len());
        if DENIED.get(self.written..end) != Some(piece) {
            self.right = false;
        }
        self.written = end;
        Ok(piece.len())
    }
}

// Connections of which each is cut one place later, and last those that come octet by octet.
#[derive(Debug, Drop)]
struct Cuts {
    port: Option<u16>,
    next: usize,
    // The last cut at which something else was written.
    wrong: Option<usize>,
}

impl Gateway for Cuts {
    type Source = Pieces;

    type Sink = Compared;

    ghost listens = { λ c. c.port };

    ghost came_back = { λ _. None };

    ghost failures = { λ _. 0 };

    ghost faults = { λ _. 0 };

    fn listen(&mut self, port: u16) -> Result<(), Failed> {
        self.port = Some(port);
        Ok(())
    }

    fn accept<R: Wait>(&mut self, _rt: &R) -> Result<(Pieces, Compared), Failed> {
        let cut = self.next;
        self.next = cut.saturating_add(1);
        let most = if cut < QUERY.len() { QUERY.len() } else { 1 };
        let source = Pieces {
            given: 0,
            cut,
            most,
        };
        let sink = Compared {
            written: 0,
            right: true,
        };
        Ok((source, sink))
    }

    fn part(&mut self, source: Pieces, sink: Compared) {
        if !sink.right || sink.written != DENIED.len() {
            self.wrong = Some(source.cut);
        }
    }
}

// How the run ends, how many connections it accepted, and the last that got something else.
fn served<R: Threads + Wait + Sync>(
    rt: &R,
    alloc: Global,
) -> Result<(Status, usize, Option<usize>), OutOfMemory> {
    let mut gateway = Cuts {
        port: None,
        next: 0,
        wrong: None,
    };
    let status = run_over(rt, alloc, ANSWER, 30, &mut gateway)?;
    Ok((status, gateway.next, gateway.wrong))
}

#[test]
fn a_query_may_come_cut_anywhere(rt: HostRuntime) -> Result<(), Fail> {
    let found = served(&rt, rt.alloc())?;
    assert!(rt; found == (Status::Good, 30, None), "{found:?}");
    Ok(())
}
