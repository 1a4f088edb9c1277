use crate::Sent;
use arrivals::Event;

/// What goes over an outlet.
#[derive(Debug, Drop)]
pub enum Carried {
    Received(Event),
    /// What was given to be sent.
    Given(Sent),
}
