use arrivals::Carrier;
use dnswire::Question;

/// A client, by its number, by what its query came, and what it asked.
#[derive(Debug, Drop)]
pub struct Client {
    pub number: u64,
    pub carrier: Carrier,
    pub question: Question,
}
