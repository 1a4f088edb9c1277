//! As what an event is counted.
ghost use Rattle.std.specs.Prelude.{◌≡◌};
ghost use Rattle.forwarding.specs.Done.{counter_of, relayed_with};

use counters::Counter;
use reply_core::rcode::{NAME_ERROR, NO_ERROR, REFUSED, SERVER_FAILURE};
use resolver::Origin;

/// A query that the cache answers, by what the reply is made of.
pub(crate) fn counter_of(origin: Origin) -> Counter
    ensures { result ≡ counter_of origin }
{
    match origin {
        Origin::Set => Counter::Set,
        Origin::NoData => Counter::NoData,
        Origin::NameError => Counter::NameError,
        Origin::Wildcard => Counter::Wildcard,
        Origin::Alias { synthesized: _ } => Counter::Alias,
        Origin::Redirection { synthesized: _ } => Counter::Redirection,
    }
}

/// A client that gets an answer with the RCODE.
pub(crate) fn relayed_with(rcode: u16) -> Counter
    ensures { result ≡ relayed_with rcode }
{
    match rcode {
        NO_ERROR => Counter::RelayedNoError,
        NAME_ERROR => Counter::RelayedNameError,
        SERVER_FAILURE => Counter::RelayedServerFailure,
        REFUSED => Counter::RelayedRefused,
        _ => Counter::RelayedOther,
    }
}
