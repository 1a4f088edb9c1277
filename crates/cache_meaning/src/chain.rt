/// A chain of a zone's denial records: all its NSEC records, or its NSEC3 records of one salt and one number of iterations
/// (RFC 5155, section 7.1).
#[derive(Clone, Copy, Debug)]
pub enum Chain<'a> {
    /// There is none.
    Bare,
    Nsec,
    Nsec3 {
        salt: &'a [u8],
        /// How often a hash is taken again, the first time not counted.
        iterations: u16,
    },
}
