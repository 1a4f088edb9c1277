//! All sockets of one worker.
ghost use Rattle.std.specs.Prelude.{◌≤◌, length, IfErr};
ghost use Rattle.arrivals.specs.declared.event.TheConstants.{MAX_MESSAGE};
ghost use Rattle.forward_sockets.specs.OpenFault.{IsFaultOf};

use crate::askings::Askings;
use crate::connection::STREAM;
use crate::listeners::Listeners;
use crate::moments::{START, go_on};
use crate::streams::{FIRST_STREAM, Streams};
use crate::watch::Watch;
use crate::{Faults, MAX_LISTENERS, OpenFault};
use arrivals::{Came, Carrier, Event, MessageOctets, Moment};
use mio::Poll;
use outside_core::MAX_DATAGRAM;
use std::alloc::Global;
use std::net::{Net, SocketAddr};
use std::thread;
use std::time::{Clock, Duration};
use stream_clients::PLACES;

// A tick comes so many milliseconds after the last one.
const TICK: u64 = 250;

// How many answers, and how many queries, are received at most between two looks at all sockets.
const ANSWERS: u32 = 256;

const QUERIES: u32 = 16;

// How many tries a receipt has, each of which may find nothing.
const TRIES: u32 = 1024;

/// The sockets of one worker: two listeners at each address at which clients ask, one for datagrams and one for streams; at most 32
/// connections of clients; and one socket at most for each of 256 slots, over which the upstream was asked last. At most 306 files are
/// open: these, the one by which the system tells what has come, and a connection that is closed at once. What streams carry takes memory
/// after `bind`, at most 140,000 octets for each, and want of it closes that stream.
#[derive(Drop)]
pub struct Sockets {
    watch: Watch,
    listeners: Listeners,
    streams: Streams,
    askings: Askings,
    // How many tries of both are left until both have their turns again.
    answers: u32,
    queries: u32,
    // Whether the next query is a stream's, where both have some.
    stream_is_next: bool,
    buffer: [u8; MAX_DATAGRAM],
    moment: Moment,
    // When the next tick is due, and whether it is.
    next_tick: u64,
    tick_is_due: bool,
    faults: Faults,
}

impl Sockets {
    /// Listens at each address for datagrams and for streams, where other sockets of the same user may listen too: the system deals
    /// clients out among them by their addresses and ports. An IPv6 address has no clients of IPv4. The upstream isn't asked yet.
    pub fn bind<N: Net>(
        net: &N,
        alloc: Global,
        addresses: &[SocketAddr],
        upstream: SocketAddr,
    ) -> Result<Sockets, OpenFault>
        requires { length addresses.now ≤ MAX_LISTENERS }
        ensures { IfErr result (IsFaultOf addresses.now) }
    {
        let poll = Poll::new(net).map_err(OpenFault::Poll)?;
        let mut watch = Watch::over(alloc, poll, FIRST_STREAM + MAX_LISTENERS + PLACES)?;
        let listeners = Listeners::bind(alloc, &mut watch, addresses)?;
        let streams = Streams::bind(alloc, watch.poll(), addresses)?;
        Ok(Sockets {
            watch,
            listeners,
            streams,
            askings: Askings::new(alloc, upstream)?,
            answers: 0,
            queries: 0,
            stream_is_next: false,
            buffer: [0; MAX_DATAGRAM],
            moment: START,
            next_tick: 0,
            tick_is_due: false,
            faults: Faults::NONE,
        })
    }

    /// Waits for what comes next, and puts it into `into`. A tick is due the first time, where a quarter of a second has gone by since
    /// the last one, and after a signal. Answers that lie at the slots' sockets come before it, 256 at most once it is due, and queries
    /// after it. Else answers come before queries too: at most 16 queries come between two looks at the slots' sockets, and in between what
    /// these are told to have. Datagrams and streams have their turns among the queries, and so have connections. Datagrams that lie at the
    /// listeners together are received together, 16 at most. Of a datagram of more than 4,096 octets the rest is lost.
    ///
    /// The moment of what comes is that of the last look at all sockets. A failed call is counted as a fault, and ends nothing but the
    /// stream where it failed. A clock that fails stands still.
    pub fn receive<C: Clock>(&mut self, clock: &C, into: &mut Event) {
        for _ in 0..TRIES {
            if let Some(came) = self.try_once(clock, &mut into.octets) {
                self.arrive(came, into);
                return;
            }
        }
        self.arrive(Came::Tick, into);
    }

    // What came, now.
    fn arrive(&mut self, came: Came, into: &mut Event) {
        if came == Came::Tick {
            self.tick_is_due = false;
            self.next_tick = self.moment.millis.saturating_add(TICK);
            self.streams.tick(self.moment.millis);
            self.askings.tick(self.moment.millis);
        }
        into.moment = self.moment;
        into.came = came;
    }

    // Reads one socket that may have something, or, where none has or each had its turn, looks at all. A tick that is due comes
    // between the answers and the queries.
    fn try_once<C: Clock>(&mut self, clock: &C, into: &mut MessageOctets) -> Option<Came> {
        if self.answers > 0 && !self.askings.ready.is_empty() {
            self.answers -= 1;
            self.listeners.send_all(&mut self.faults);
            return self.askings.receive(
                self.watch.poll(),
                &mut self.buffer,
                into,
                &mut self.faults,
            );
        }
        if self.tick_is_due {
            return Some(Came::Tick);
        }
        if self.queries > 0 && self.may_have_queries() {
            self.queries -= 1;
            return self.try_query(into);
        }
        self.look_around(clock);
        None
    }

    // Looks at all sockets, and at the clocks. Where none has something, it waits until one has or a tick is due. It is due too where the
    // clock stood still, or a signal came. The thread may have been held up, so a tick that is due wants a look behind the clocks'.
    fn look_around<C: Clock>(&mut self, clock: &C) {
        self.listeners.send_all(&mut self.faults);
        self.answers = ANSWERS;
        self.queries = QUERIES;
        let was_idle = self.is_idle();
        if was_idle {
            self.wait(clock, self.next_tick.saturating_sub(self.moment.millis));
        } else {
            // To ask them all costs more than some receipts in vain.
            self.listeners.add_turns();
        }
        let is_in_vain = self.is_idle();
        go_on(&mut self.moment, clock);
        self.tick_is_due = is_in_vain || self.moment.millis >= self.next_tick;
        if self.tick_is_due || !was_idle {
            let looked = self.watch.look();
            self.faults.wait.note(looked);
            self.mark_ready();
        }
    }

    fn is_idle(&self) -> bool {
        self.askings.ready.is_empty() && !self.may_have_queries()
    }

    fn may_have_queries(&self) -> bool {
        self.listeners.may_have_some() || !self.streams.ready.is_empty()
    }

    // Datagrams and streams have their turns, where both have one.
    fn try_query(&mut self, into: &mut MessageOctets) -> Option<Came> {
        let by_stream = self.stream_is_next || !self.listeners.may_have_some();
        if by_stream && !self.streams.ready.is_empty() {
            self.stream_is_next = false;
            self.try_stream(into)
        } else {
            self.stream_is_next = true;
            self.try_datagram(into)
        }
    }

    fn try_datagram(&mut self, into: &mut MessageOctets) -> Option<Came> {
        let client = self.listeners.receive(into, &mut self.faults)?;
        let carrier = Carrier::Datagram;
        Some(Came::Query { client, carrier })
    }

    fn try_stream(&mut self, into: &mut MessageOctets) -> Option<Came> {
        let now = self.moment.millis;
        let client = self.streams.receive(
            self.watch.poll(),
            &mut self.buffer,
            into,
            now,
            &mut self.faults,
        )?;
        let carrier = Carrier::Stream;
        Some(Came::Query { client, carrier })
    }

    // Waits until a socket has something, for so many milliseconds at most, also where the call fails.
    fn wait<C: Clock>(&mut self, clock: &C, patience: u64) {
        let waited = self.watch.wait(patience);
        if self.faults.wait.note(waited).is_none() {
            thread::sleep(clock, Duration::from_millis(patience));
        }
        for listener in 0..MAX_LISTENERS as u8 {
            if self.watch.has_datagram(listener) {
                self.listeners.ready.add(listener);
            }
        }
        self.mark_ready();
    }

    fn mark_ready(&mut self) {
        for event in self.watch.events() {
            let token = event.token().0;
            if token < FIRST_STREAM {
                self.askings.ready.add(token as u8);
            } else if token < FIRST_STREAM + 256 {
                self.streams.ready.add((token - FIRST_STREAM) as u8);
            }
        }
    }

    /// Sends a client its reply, from the address at which it asked or over its connection; by a datagram once `receive` has given all that
    /// was received together with its query, or an answer is next, or it looks at all sockets. The number of a client that asked by a
    /// datagram names nobody from then on. A reply to a number that names nobody, or that can't be sent, is dropped, and counted as a fault.
    pub fn reply(&mut self, client: u64, octets: &[u8])
        requires { length octets.now ≤ MAX_MESSAGE }
    {
        if client < STREAM {
            self.listeners.reply(client, octets, &mut self.faults);
        } else {
            let now = self.moment.millis;
            self.streams.reply(client, octets, now, &mut self.faults);
        }
    }

    /// Sends the upstream a question over a new socket at a free port, which is the slot's from then on; the slot's older one is
    /// closed. It is closed after five seconds, and a stream before that where its answer has come, it ends or fails. Where a call fails, that is counted as a fault, and the
    /// slot has no socket.
    pub fn ask(&mut self, slot: u8, carrier: Carrier, octets: &[u8])
        requires { length octets.now ≤ MAX_MESSAGE }
    {
        let now = self.moment.millis;
        self.askings.ask(
            self.watch.poll(),
            slot,
            carrier,
            octets,
            now,
            &mut self.faults,
        );
    }

    /// The calls that failed so far.
    pub fn faults(&self) -> &Faults {
        &self.faults
    }
}
