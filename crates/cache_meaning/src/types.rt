ghost use Rattle.std.specs.Prelude.{◌≡◌};
ghost use Rattle.cache_meaning.specs.Evidence.{lacks_type, deny_type, deny_type_below, hand_nothing_on};

use denial_records::LentTypes;
use dname::types::{CNAME_TYPE, DNAME_TYPE, DS_TYPE, NS_TYPE};
use dname::{LentName, Name};

/// Whether the types of the name itself deny it the type (RFC 4035, section 5.4; RFC 5155, sections 8.5 and 8.6).
pub fn deny_type(types: &LentTypes<'_>, zone: &Name, name: &Name, qtype: u16) -> bool
    ensures { result ≡ deny_type types.now zone.now name.now qtype }
{
    lacks_type(types, qtype)
        && lacks_type(types, CNAME_TYPE)
        && (lacks_type(types, NS_TYPE) || name == zone || qtype == DS_TYPE)
}

/// Whether the types of a wildcard deny the type to the names that it would give (RFC 5155, section 8.7).
pub fn deny_type_below(types: &LentTypes<'_>, qtype: u16) -> bool
    ensures { result ≡ deny_type_below types.now qtype }
{
    lacks_type(types, qtype)
        && lacks_type(types, CNAME_TYPE)
        && lacks_type(types, NS_TYPE)
        && lacks_type(types, DNAME_TYPE)
}

/// Whether the name whose types these are keeps the names below it (RFC 6840, section 4.1; RFC 5155, section 8.3).
pub fn hand_nothing_on(types: &LentTypes<'_>, zone: LentName<'_>, name: LentName<'_>) -> bool
    ensures { result ≡ hand_nothing_on types.now zone.entry name.entry }
{
    lacks_type(types, DNAME_TYPE) && (lacks_type(types, NS_TYPE) || name == zone)
}

fn lacks_type(types: &LentTypes<'_>, rtype: u16) -> bool
    ensures { result ≡ lacks_type types.now rtype }
{
    !types.has(rtype)
}
