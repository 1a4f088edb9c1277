ghost use Rattle.std.specs.Prelude.{◌≡◌, ◌&&◌, ◌==◌};
ghost use Rattle.std.specs.Str.{bytes_eq};
ghost use Rattle.cache_meaning.specs.Held.{zone_of, expiry_of, is_usable};

use denial_records::Record;
use dname::LentName;

/// The apex of the zone that signed the record.
pub(crate) fn zone_of(item: &Record) -> LentName<'_>
    ensures { result ≡ zone_of item.now }
{
    match item {
        Record::Set(set) => set.zone(),
        Record::Nsec(nsec) => nsec.zone(),
        Record::Nsec3(nsec3) => nsec3.zone(),
    }
}

/// The moment from which the record may not be used, in seconds.
pub(crate) fn expiry_of(item: &Record) -> u64
    ensures { result ≡ expiry_of item.now }
{
    match item {
        Record::Set(set) => set.expiry(),
        Record::Nsec(nsec) => nsec.expiry(),
        Record::Nsec3(nsec3) => nsec3.expiry(),
    }
}

/// Whether the record may be used now.
pub(crate) fn is_usable(now: u32, item: &Record) -> bool
    ensures { result ≡ is_usable now item.now }
{
    u64::from(now) < expiry_of(item)
}
