ghost use Rattle.std.specs.Prelude.{◌≡◌, ◌↔◌, ◌+◌, ◌<◌, ◌≤◌, length, drop, IfOk, IsErrOf, Ok};
ghost use Rattle.dname.specs.Read.{StopsAt};
ghost use Rattle.dname.specs.declared.name_fault.NameFault.{NameFault};
ghost use Rattle.denial_records.specs.Rrsig.{IsRrsig};
ghost use Rattle.denial_records.specs.declared.rrsig.Rrsig.{Rrsig};
ghost use Rattle.denial_records.specs.declared.rrsig.TheConstants.{FIXED_OCTETS};

use dname::{Name, octets_from, u16_at, u32_at};

/// The octets before the signer's name.
pub(crate) const FIXED_OCTETS: usize = 18;

/// Why octets aren't the data of an RRSIG record.
#[derive(Clone, Copy, Debug, PartialEq, Eq)]
pub enum SigFault {
    /// There are fewer than 18 octets.
    Short,
    /// No name can be read after the first 18 octets.
    BadName,
}

/// The data of an RRSIG record, without the signature (RFC 4034, section 3.1).
#[derive(Debug, Drop)]
pub struct Rrsig {
    /// The type of the RRset that is signed.
    pub covered: u16,
    /// The number of the signature's algorithm.
    pub algorithm: u8,
    /// The number of labels of the owner name that was signed, the root and a leading asterisk label not counted.
    pub labels: u8,
    /// The RRset's TTL in its zone, in seconds.
    pub original_ttl: u32,
    /// The end of the signature's validity, in seconds since 1970, modulo 2^32.
    pub expiration: u32,
    /// The begin of the signature's validity, in seconds since 1970, modulo 2^32.
    pub inception: u32,
    /// The tag of the key that made the signature.
    pub key_tag: u16,
    /// The zone of that key.
    pub signer: Name,
}

impl Rrsig {
    /// Reads a record's data. The signature, which is what follows the signer's name, is not looked at.
    pub fn read(octets: &[u8]) -> Result<Rrsig, SigFault>
        ensures read { IfOk result (IsRrsig octets.now) }
        ensures short { IsErrOf result SigFault.Short ↔ (length octets.now < FIXED_OCTETS) }
        ensures bad_name { IsErrOf result SigFault.BadName ↔ ((FIXED_OCTETS ≤ length octets.now)
            × ((fault : NameFault) × StopsAt (drop FIXED_OCTETS octets.now) fault)) }

        // Data of an RRSIG record is read.
        ensures every_rrsig { (rrsig : Rrsig) → IsRrsig octets.now rrsig → result ≡ Ok rrsig }
    {
        if octets.len() < FIXED_OCTETS {
            return Err(SigFault::Short);
        }
        match Name::read(octets_from(octets, FIXED_OCTETS)) {
            Ok((signer, _)) => Ok(Rrsig {
                covered: u16_at(octets, 0),
                algorithm: octets[2],
                labels: octets[3],
                original_ttl: u32_at(octets, 4),
                expiration: u32_at(octets, 8),
                inception: u32_at(octets, 12),
                key_tag: u16_at(octets, 16),
                signer,
            }),
            Err(_) => Err(SigFault::BadName),
        }
    }
}
