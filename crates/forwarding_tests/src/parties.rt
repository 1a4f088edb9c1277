//! Clients and the upstream: from where messages come, and to whom they go.
use forwarding::{Came, Carrier, Receiver};

/// Two clients by datagrams, and one by a stream.
pub(crate) const CLIENT: Came = Came::Query {
    client: 1,
    carrier: Carrier::Datagram,
};

pub(crate) const OTHER: Came = Came::Query {
    client: 2,
    carrier: Carrier::Datagram,
};

pub(crate) const STREAM_CLIENT: Came = Came::Query {
    client: 3,
    carrier: Carrier::Stream,
};

pub(crate) const TO_CLIENT: Receiver = Receiver::ToClient(1);

pub(crate) const TO_OTHER: Receiver = Receiver::ToClient(2);

pub(crate) const TO_STREAM_CLIENT: Receiver = Receiver::ToClient(3);

/// The upstream over the sockets of the first two slots: by datagrams, and by streams.
pub(crate) const SLOT: Came = Came::Answer {
    slot: 0,
    carrier: Carrier::Datagram,
};

pub(crate) const OTHER_SLOT: Came = Came::Answer {
    slot: 1,
    carrier: Carrier::Datagram,
};

pub(crate) const STREAM_SLOT: Came = Came::Answer {
    slot: 0,
    carrier: Carrier::Stream,
};

pub(crate) const OTHER_STREAM_SLOT: Came = Came::Answer {
    slot: 1,
    carrier: Carrier::Stream,
};

pub(crate) const UPSTREAM: Receiver = Receiver::ToUpstream {
    slot: 0,
    carrier: Carrier::Datagram,
};

pub(crate) const OTHER_UPSTREAM: Receiver = Receiver::ToUpstream {
    slot: 1,
    carrier: Carrier::Datagram,
};

pub(crate) const STREAM_UPSTREAM: Receiver = Receiver::ToUpstream {
    slot: 0,
    carrier: Carrier::Stream,
};
