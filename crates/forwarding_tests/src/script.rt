//! What comes to a worker, and what it is to send.
use dname::OutOfMemory;
use forwarding::{Came, Carried, Event, MessageOctets, Moment, Receiver, Sent};
use std::alloc::Global;

/// What goes over the outlet.
#[derive(Drop)]
pub(crate) enum Step {
    /// The next event.
    Comes,
    Goes(Sent),
}

/// Events, and what is to go over the outlet, in turn.
#[derive(Drop)]
pub(crate) struct Script {
    pub(crate) events: Vec<Event>,
    pub(crate) steps: Vec<Step>,
}

impl Script {
    pub(crate) fn new(alloc: Global) -> Script {
        Script {
            events: Vec::new(alloc),
            steps: Vec::new(alloc),
        }
    }

    /// This comes next.
    pub(crate) fn comes(
        &mut self,
        moment: Moment,
        came: Came,
        octets: MessageOctets,
    ) -> Result<(), OutOfMemory> {
        self.events.push(Event {
            moment,
            came,
            octets,
        })?;
        self.steps.push(Step::Comes)?;
        Ok(())
    }

    /// This is to be sent next.
    pub(crate) fn goes(
        &mut self,
        receiver: Receiver,
        octets: MessageOctets,
    ) -> Result<(), OutOfMemory> {
        self.steps.push(Step::Goes(Sent { receiver, octets }))?;
        Ok(())
    }
}

/// The first step that went otherwise, counted from 1.
pub(crate) fn first_otherwise(carried: &[Carried], steps: &[Step]) -> Option<usize> {
    for (i, step) in steps.iter().enumerate() {
        match carried.get(i) {
            Some(carried) => {
                if !is_step(carried, step) {
                    return Some(i.wrapping_add(1));
                }
            }
            None => return Some(i.wrapping_add(1)),
        }
    }
    if carried.len() == steps.len() {
        None
    } else {
        Some(steps.len().wrapping_add(1))
    }
}

fn is_step(carried: &Carried, step: &Step) -> bool {
    match (carried, step) {
        (Carried::Received(_), Step::Comes) => true,
        (Carried::Given(sent), Step::Goes(wanted)) => {
            sent.receiver == wanted.receiver && sent.octets == wanted.octets
        }
        (Carried::Received(_), Step::Goes(_)) | (Carried::Given(_), Step::Comes) => false,
    }
}
