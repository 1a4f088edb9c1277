//! What a worker has at hand.
ghost use Rattle.std.specs.Prelude.{◌≡◌, length, IfOk};
ghost use Rattle.serving.specs.Pending.{empty_table};
ghost use Rattle.serving.specs.declared.workspace.TheConstants.{AT_ONCE};

use crate::{Deed, WorkerCore};
use dname::OutOfMemory;
use outside_core::{Datagram, Peer};
use reply_core::ReplyBuffer;
use std::alloc::Global;

/// As many datagrams are received at most before the first of them is done.
pub(crate) const AT_ONCE: usize = 16;

/// What a datagram calls for, and the octets that are sent for it, if any are.
#[derive(Drop)]
pub(crate) struct Answer {
    pub(crate) deed: Deed,
    pub(crate) octets: ReplyBuffer,
}

/// The queries that wait, and places for datagrams that come together, each with one for its answer.
#[derive(Drop)]
pub(crate) struct Workspace {
    pub(crate) core: WorkerCore,
    pub(crate) datagrams: Vec<Datagram>,
    pub(crate) answers: Vec<Answer>,
}

impl Workspace {
    /// No query waits.
    pub(crate) fn new(alloc: Global) -> Result<Workspace, OutOfMemory>
        ensures core { IfOk result (λ workspace. workspace.core ≡ empty_table) }
        ensures datagrams { IfOk result (λ workspace. length workspace.datagrams.items ≡ AT_ONCE) }
        ensures answers { IfOk result (λ workspace. length workspace.answers.items ≡ AT_ONCE) }
    {
        let core = WorkerCore::new(alloc)?;
        let mut datagrams = Vec::with_capacity(alloc, AT_ONCE)?;
        let mut answers = Vec::with_capacity(alloc, AT_ONCE)?;
        for _ in 0..AT_ONCE {
            datagrams.push(Datagram::of(Peer::Upstream, &[]))?;
            answers.push(Answer {
                deed: Deed::Quiet,
                octets: ReplyBuffer::new(),
            })?;
        }
        Ok(Workspace {
            core,
            datagrams,
            answers,
        })
    }
}
