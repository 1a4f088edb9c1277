//! Which sockets have something.
use crate::listeners::MAX_LISTENERS;
use libc::net as c;
use libc::types::pollfd;
use mio::event::Iter;
use mio::{Events, Poll};
use outside_core::OutOfMemory;
use std::alloc::Global;
use std::io;
use std::os::fd::{AsRawFd, RawFd};
use std::time::Duration;

/// What tells which sockets have something. A poll keeps watch over all but the listeners for datagrams. These are asked only when it
/// waits: each datagram that comes to a socket under watch, and each that leaves it, would cost the watch some work.
#[derive(Drop)]
pub(crate) struct Watch {
    poll: Poll,
    events: Events,
    // The poll, and the listeners for datagrams behind it.
    asked: Vec<pollfd>,
}

impl Watch {
    /// Over a poll, which tells of so many sockets at once.
    pub(crate) fn over(alloc: Global, poll: Poll, sockets: usize) -> Result<Watch, OutOfMemory> {
        let mut asked = Vec::with_capacity(alloc, 1 + MAX_LISTENERS)?;
        asked.push(asked_of(poll.as_raw_fd()))?;
        Ok(Watch {
            poll,
            events: Events::with_capacity(alloc, sockets)?,
            asked,
        })
    }

    /// The poll of all other sockets.
    pub(crate) fn poll(&self) -> &Poll {
        &self.poll
    }

    /// Asks a further listener from now on. Its number is one more than the last one's.
    pub(crate) fn add_listener(&mut self, listener: RawFd) -> Result<(), OutOfMemory> {
        Ok(self.asked.push(asked_of(listener))?)
    }

    /// Waits until a socket has something, for so many milliseconds at most, or until a signal comes.
    pub(crate) fn wait(&mut self, patience: u64) -> io::Result<()> {
        self.events.clear();
        for each in &mut self.asked {
            each.revents = 0;
        }
        wait_for(&mut self.asked, patience)?;
        if self.tells(0) {
            self.look()?;
        }
        Ok(())
    }

    /// Looks at the sockets that the poll watches.
    pub(crate) fn look(&mut self) -> io::Result<()> {
        self.poll.poll(&mut self.events, Some(Duration::ZERO))
    }

    /// Whether the listener had something at the last wait.
    pub(crate) fn has_datagram(&self, listener: u8) -> bool {
        self.tells(1 + usize::from(listener))
    }

    fn tells(&self, number: usize) -> bool {
        self.asked
            .get(number)
            .is_some_and(|asked| asked.revents != 0)
    }

    /// What the other sockets had at the last wait or look.
    pub(crate) fn events(&self) -> Iter<'_> {
        self.events.iter()
    }
}

fn asked_of(fd: RawFd) -> pollfd {
    pollfd {
        fd,
        events: c::POLLIN,
        revents: 0,
    }
}

// Waits until one of them has something, for so many milliseconds at most, or until a signal comes.
fn wait_for(asked: &mut [pollfd], patience: u64) -> io::Result<()> {
    let patience = i32::try_from(patience).unwrap_or(i32::MAX);
    if c::poll(asked, patience) >= 0 {
        return Ok(());
    }
    let error = os::errno();
    if error == libc::EINTR {
        return Ok(());
    }
    Err(io::Error::from_raw_os_error(error))
}
