//! Where the IDs of questions come from.
use std::io;
use std::random::RandomSource;

/// IDs of two random octets each (RFC 5452, section 9.2). No clause says that they are.
#[derive(Drop)]
pub struct RandomIds<R> {
    source: R,
}

impl<R: RandomSource> RandomIds<R> {
    /// The IDs of a source, such as the runtime that `main` is given.
    pub fn over(source: R) -> RandomIds<R> {
        RandomIds { source }
    }

    /// Whether the source gives octets at all: why it doesn't.
    pub fn check(&self) -> io::Result<()> {
        let _first = id_of(&self.source)?;
        Ok(())
    }

    /// The next ID. It is 0 where the source fails, which the system's doesn't once it has given octets.
    pub fn draw(&self) -> u16 {
        id_of(&self.source).unwrap_or(0)
    }
}

fn id_of<R: RandomSource>(source: &R) -> io::Result<u16> {
    let mut octets = [0; 2];
    source.fill_bytes(&mut octets)?;
    Ok(u16::from_be_bytes(octets))
}
