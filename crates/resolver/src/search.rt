//! The DNAME above a name, and the CNAME set at one.
ghost use Rattle.std.specs.Prelude.{◌≡◌, IfSome};
ghost use Rattle.std.specs.Option.{option_copied};
ghost use Rattle.dname.specs.declared.types.TheConstants.{CNAME_TYPE};
ghost use Rattle.cache_meaning.specs.Evidence.{usable_set};
ghost use Rattle.cache_meaning.specs.Zones.{set_at};
ghost use Rattle.resolver.specs.Dname.{dname_of, dname_at, topmost_dname};

use crate::lent_dname::LentDname;
use cache_meaning::{that_is_usable, usable_set};
use denial_records::KeptSet;
use dname::types::{CNAME_TYPE, DNAME_TYPE};
use dname::{Name, one_name_in};
use record_store::ZoneRef;

/// The DNAME at the shortest of the names above, by one look-up for each of them at most.
pub(crate) fn topmost_dname<'a>(zone: &ZoneRef<'a>, now: u32, name: &Name) -> Option<LentDname<'a>>
    ensures { result ≡ topmost_dname zone.now.held now zone.now.apex name.now }
{
    for labels in 0..name.labels() {
        if let Some(dname) = dname_at(zone, now, &name.last(labels)) {
            return Some(dname);
        }
    }
    None
}

// The DNAME at the owner name that may be used now.
fn dname_at<'a>(zone: &ZoneRef<'a>, now: u32, owner: &Name) -> Option<LentDname<'a>>
    ensures { result ≡ dname_at zone.now.held now zone.now.apex owner.now }
{
    let set = usable_set(zone, now, owner, DNAME_TYPE)?;
    dname_of(set)
}

/// The CNAME set at the owner name that may be used now, where a search may have told of it already.
pub(crate) fn usable_alias<'a>(
    zone: &ZoneRef<'a>,
    now: u32,
    owner: &Name,
    told: Option<Option<&'a KeptSet>>,
) -> Option<&'a KeptSet>
    requires { IfSome told (λ alias.
        option_copied alias ≡ set_at zone.now.held zone.now.apex owner.now CNAME_TYPE) }
    ensures { option_copied result
        ≡ usable_set zone.now.held now zone.now.apex owner.now CNAME_TYPE }
{
    match told {
        Some(alias) => that_is_usable(alias, now),
        None => usable_set(zone, now, owner, CNAME_TYPE),
    }
}

fn dname_of<'a>(set: &'a KeptSet) -> Option<LentDname<'a>>
    ensures { result ≡ dname_of set.now }
{
    let suffix = one_name_in(set.items())?;
    Some(LentDname { set, suffix })
}
