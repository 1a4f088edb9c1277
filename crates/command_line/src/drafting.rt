//! The settings of `forward`, taken from its options one after the other.
ghost use Rattle.std.specs.Prelude.{◌≡◌, ◌↔◌, [], map, Contains, IfErr, IfOk, IsTrue, Some};
ghost use Rattle.command_line.specs.Words.{AsksForward, IsMapped, IsPlaceText, texts};
ghost use Rattle.command_line.specs.Options.{IsDraft, IsDrawn, IsToldFault, IsToldWrong, IsUnplaced, Lacks, Takes, choice_of};

use crate::OutOfMemory;
use crate::cause::Cause;
use crate::choosing::{Chosen, choices_of};
use crate::fault::Fault;
use crate::file_path::FilePath;
use crate::flag::Flag;
use crate::forward_settings::ForwardSettings;
use crate::name_text::name_in;
use crate::refusal::Refusal;
use crate::setting::{Setting, WORKERS};
use dname::{ItemList, Name};
use std::alloc::Global;
use std::net::{IpAddr, SocketAddr};

/// The most addresses at which `forward` listens.
const MAX_LISTENS: usize = 8;
/// The most names that it passes.
const MAX_PASSES: usize = 16;

/// Settings, some of which may lack.
#[derive(Drop)]
pub(crate) struct Draft {
    listens: ItemList<SocketAddr>,
    upstream: Option<SocketAddr>,
    workers: Option<u8>,
    passes: ItemList<Name>,
    status: Option<FilePath>,
}

impl Draft {
    fn new(alloc: Global) -> Draft
        ensures { IsDraft [] result }
    {
        Draft {
            listens: ItemList::empty(alloc),
            upstream: None,
            workers: None,
            passes: ItemList::empty(alloc),
            status: None,
        }
    }

    // Sets what the option asks for, or tells what is wrong with it.
    fn take(&mut self, alloc: Global, flag: Flag, text: &str) -> Result<Option<Cause>, OutOfMemory>
        ensures { IfOk result (Takes self.old self.new (flag, text.now)) }
    {
        match flag {
            Flag::Listen => self.listen(text),
            Flag::Upstream => Ok(self.ask(text)),
            Flag::Workers => Ok(self.employ(text)),
            Flag::Pass => self.pass(text),
            Flag::Status => self.tell(alloc, text),
        }
    }

    fn listen(&mut self, text: &str) -> Result<Option<Cause>, OutOfMemory>
        ensures { IfOk result (Takes self.old self.new (Flag.Listen, text.now)) }
    {
        if self.listens.len() == MAX_LISTENS {
            return Ok(Some(Cause::TooManyListens));
        }
        let place = match place_in(text) {
            Ok(place) => place,
            Err(cause) => return Ok(Some(cause)),
        };
        if has_place(&self.listens, place) {
            return Ok(Some(Cause::ListenedTwice));
        }
        if is_place(self.upstream, place) {
            return Ok(Some(Cause::UpstreamListened));
        }
        self.listens.push(place)?;
        Ok(None)
    }

    fn ask(&mut self, text: &str) -> Option<Cause>
        ensures { Takes self.old self.new (Flag.Upstream, text.now) result }
    {
        if self.upstream.is_some() {
            return Some(Cause::GivenTwice);
        }
        let place = match place_in(text) {
            Ok(place) => place,
            Err(cause) => return Some(cause),
        };
        if has_place(&self.listens, place) {
            return Some(Cause::UpstreamListened);
        }
        self.upstream = Some(place);
        None
    }

    fn employ(&mut self, text: &str) -> Option<Cause>
        ensures { Takes self.old self.new (Flag.Workers, text.now) result }
    {
        if self.workers.is_some() {
            return Some(Cause::GivenTwice);
        }
        let Some(workers) = WORKERS.value_of(text) else {
            return Some(Cause::NoWorkers);
        };
        self.workers = Some(workers as u8);
        None
    }

    fn pass(&mut self, text: &str) -> Result<Option<Cause>, OutOfMemory>
        ensures { IfOk result (Takes self.old self.new (Flag.Pass, text.now)) }
    {
        if self.passes.len() == MAX_PASSES {
            return Ok(Some(Cause::TooManyPasses));
        }
        let Some(name) = name_in(text) else {
            return Ok(Some(Cause::NoName));
        };
        self.passes.push(name)?;
        Ok(None)
    }

    fn tell(&mut self, alloc: Global, text: &str) -> Result<Option<Cause>, OutOfMemory>
        ensures { IfOk result (Takes self.old self.new (Flag.Status, text.now)) }
    {
        if self.status.is_some() {
            return Ok(Some(Cause::GivenTwice));
        }
        if text.is_empty() {
            return Ok(Some(Cause::NoPath));
        }
        self.status = Some(FilePath::of(alloc, text)?);
        Ok(None)
    }

    // The settings, or the first option that has to be given and lacks.
    fn finished(self) -> Result<ForwardSettings, Flag>
        ensures drawn { IfOk result (IsDrawn self) }
        ensures lacks { IfErr result (Lacks self) }
    {
        if self.listens.is_empty() {
            return Err(Flag::Listen);
        }
        let Some(upstream) = self.upstream else {
            return Err(Flag::Upstream);
        };
        let Some(workers) = self.workers else {
            return Err(Flag::Workers);
        };
        Ok(ForwardSettings {
            listens: self.listens,
            upstream,
            workers,
            passes: self.passes,
            status: self.status,
        })
    }
}

/// The settings that the words behind `forward` ask for.
pub(crate) fn settings_of<'a>(
    alloc: Global,
    words: &'a [String],
) -> Result<ForwardSettings, Refusal<'a>>
    ensures read { IfOk result (AsksForward (texts words.entry.now)) }
    ensures told { IfErr result (IsToldFault (texts words.entry.now)) }
{
    let choices = choices_of(alloc, words)?;
    let draft = draft_of(alloc, &choices)?;
    match draft.finished() {
        Ok(settings) => Ok(settings),
        Err(flag) => Err(Refusal::Faulty(Fault::Missing { flag })),
    }
}

fn draft_of<'a>(alloc: Global, choices: &[Chosen<'a>]) -> Result<Draft, Refusal<'a>>
    ensures read { IfOk result (IsDraft (map choice_of choices.now)) }
    ensures told { IfErr result (IsToldWrong (map choice_of choices.now)) }
{
    let mut draft = Draft::new(alloc);
    for choice in choices {
        let Chosen { flag, text } = *choice;
        match draft.take(alloc, flag, text) {
            Ok(None) => {}
            Ok(Some(cause)) => {
                return Err(Refusal::Faulty(Fault::Wrong { flag, text, cause }));
            }
            Err(_) => return Err(Refusal::OutOfMemory),
        }
    }
    Ok(draft)
}

// The address and port that the text writes, if one may listen there, or ask.
fn place_in(text: &str) -> Result<SocketAddr, Cause>
    ensures read { IfOk result (IsPlaceText text.now) }
    ensures told { IfErr result (IsUnplaced text.now) }
{
    let Ok(place) = text.parse::<SocketAddr>() else {
        return Err(Cause::NoAddress);
    };
    if place.ip().is_unspecified() {
        return Err(Cause::EveryAddress);
    }
    if is_mapped(place) {
        return Err(Cause::MappedAddress);
    }
    if place.port() == 0 {
        return Err(Cause::NoPort);
    }
    Ok(place)
}

fn is_mapped(place: SocketAddr) -> bool
    ensures { IsTrue result ↔ IsMapped place }
{
    match place.ip() {
        IpAddr::V4(_) => false,
        IpAddr::V6(ip) => ip.to_ipv4_mapped().is_some(),
    }
}

fn has_place(places: &ItemList<SocketAddr>, place: SocketAddr) -> bool
    ensures { IsTrue result ↔ Contains places.now place }
{
    places.as_slice().contains(&place)
}

fn is_place(found: Option<SocketAddr>, place: SocketAddr) -> bool
    ensures { IsTrue result ↔ (found ≡ Some place) }
{
    found == Some(place)
}
