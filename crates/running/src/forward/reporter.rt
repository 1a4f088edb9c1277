//! What a forwarder says while it serves.
use crate::forward::status_file::StatusFile;
use crate::forward::{Operator, Outlets};
use command_line::{ForwardSettings, VERSION};
use dname::OutOfMemory;
use forward_report::{
    CacheReport, Call, Notice, Notices, What, WorkerReport, notice_text, start_text,
};
use std::alloc::Global;
use std::sync::Wait;

/// Who looks at the workers, and says what there is to say.
#[derive(Drop)]
pub(crate) struct Reporter<'a> {
    workers: u8,
    start: String,
    notices: Notices,
    file: Option<StatusFile<'a>>,
}

impl<'a> Reporter<'a> {
    pub(crate) fn of<O: Operator>(
        alloc: Global,
        settings: &'a ForwardSettings,
        operator: &O,
    ) -> Result<Reporter<'a>, OutOfMemory> {
        let file = match &settings.status {
            Some(path) => Some(StatusFile::at(alloc, path.as_str())?),
            None => None,
        };
        let listens = settings.listens.as_slice();
        let workers = usize::from(settings.workers);
        Ok(Reporter {
            workers: settings.workers,
            start: start_text(alloc, VERSION, listens, settings.upstream, workers)?,
            notices: Notices::new(operator.millis()),
            file,
        })
    }

    /// Says that the workers have begun, and then looks at them again and again, without end.
    pub(crate) fn report<R: Wait, O: Outlets>(self, rt: &R, alloc: Global, outlets: &O)
        ensures { ⊥ }
    {
        let mut reporter = self;
        outlets.tell(reporter.start.as_str());
        for _ in rt.forever() {
            outlets.pause();
            // Where there is no memory, the next look says it.
            let _said = reporter.look(alloc, outlets);
        }
        unreachable!()
    }

    // Says what there is to say now.
    fn look<O: Outlets>(&mut self, alloc: Global, outlets: &O) -> Result<(), OutOfMemory> {
        let now = outlets.millis();
        let (reports, cache) = seen(alloc, outlets, self.workers)?;
        for notice in self.notices.look(now, &reports) {
            if let Some(notice) = notice {
                tell(alloc, outlets, notice)?;
            }
        }
        if let Some(file) = &mut self.file {
            file.keep(alloc, outlets, now, &reports, cache);
        }
        Ok(())
    }
}

// What each worker counted, and what is held: as the worker saw it that saw the newest version.
fn seen<O: Outlets>(
    alloc: Global,
    outlets: &O,
    workers: u8,
) -> Result<(Vec<WorkerReport>, CacheReport), OutOfMemory> {
    let mut reports = Vec::with_capacity(alloc, usize::from(workers))?;
    let mut cache = CacheReport {
        records: 0,
        zones: 0,
        chains: 0,
        version: 0,
    };
    for worker in 0..workers {
        let shown = outlets.shown(worker);
        if shown.cache.version >= cache.version {
            cache = shown.cache;
        }
        reports.push(shown.report)?;
    }
    Ok((reports, cache))
}

// The notice's line.
fn tell<O: Outlets>(alloc: Global, outlets: &O, notice: Notice) -> Result<(), OutOfMemory> {
    let cause = cause_of(alloc, outlets, notice.what)?;
    let text = notice_text(alloc, notice, &cause)?;
    outlets.tell(text.as_str());
    Ok(())
}

fn cause_of<O: Outlets>(alloc: Global, outlets: &O, what: What) -> Result<String, OutOfMemory> {
    let What::Failed(call) = what else {
        return Ok(String::new(alloc));
    };
    match outlets.cause(call) {
        Some(error) => error.to_string(alloc),
        None => String::from_str(alloc, own_cause(call)),
    }
}

// Why a call fails without an error of the system.
fn own_cause(call: Call) -> &'static str {
    match call {
        Call::Reply => "no client waits for it",
        Call::Accept => "32 connections are open",
        Call::ReadStream =>
            "it ended early, has 33 queries without a reply, or tells too small a length",
        _ => "a cause that isn't known",
    }
}
