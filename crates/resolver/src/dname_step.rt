//! Where a DNAME above a name leads.
ghost use Rattle.std.specs.Prelude.{◌≡◌, ℕ, List, Some, IfSome};
ghost use Rattle.std.specs.Option.{option_map};
ghost use Rattle.dname.specs.Name.{Label, IsUnder};
ghost use Rattle.dname.specs.NameData.{one_name_in};
ghost use Rattle.cache_meaning.specs.Zones.{zone_for};
ghost use Rattle.resolver.specs.Dname.{topmost_dname};
ghost use Rattle.resolver.specs.Walk.{by_dname, dname_step};
ghost use Rattle.resolver.specs.Lent.{made_by, step_by, Leads, TellsStep};

use crate::lent_dname::LentDname;
use crate::search::topmost_dname;
use crate::step::Step;
use crate::target::target_of;
use crate::{End, Way};
use denial_records::KeptSet;
use dname::Name;
use dname::types::CNAME_TYPE;
use record_store::ZoneRef;

/// The step by the topmost DNAME above the name.
pub(crate) fn by_dname<'a>(
    zone: &ZoneRef<'a>,
    name: &Name,
    qtype: u16,
    now: u32,
) -> Option<Step<'a>>
    requires { zone_for zone.now.held name.now qtype ≡ Some zone.now.apex }
    ensures step { option_map (step_by name.now) result
        ≡ by_dname zone.now.held now qtype name.now }
    ensures leads { IfSome result (Leads name.now) }
    ensures ttl { IfSome result (TellsStep now) }
{
    let dname = dname_above(zone, name, now)?;
    let LentDname { set, suffix } = dname;
    let target = target_of(name, &set.owner(), &suffix);
    Some(dname_step(set, target, qtype))
}

fn dname_above<'a>(zone: &ZoneRef<'a>, name: &Name, now: u32) -> Option<LentDname<'a>>
    ensures dname { result ≡ topmost_dname zone.now.held now zone.now.apex name.now }
    ensures under { IfSome result (λ dname. IsUnder name.now dname.set.owner) }
    ensures suffix { IfSome result (λ dname.
        one_name_in dname.set.items ≡ Some dname.suffix) }
{
    topmost_dname(zone, now, name)
}

// The step by a DNAME set, which makes the target of a name, or none.
fn dname_step<'a>(set: &'a KeptSet, target: Option<Name>, qtype: u16) -> Step<'a>
    ensures step { (name : List Label) → target ≡ made_by name set.now
        → step_by name result ≡ dname_step qtype set.now target }
    ensures leads { (name : List Label) → target ≡ made_by name set.now → Leads name result }
    ensures ttl { (now : ℕ) → TellsStep now result }
{
    let Some(target) = target else {
        return Step::Ends {
            end: End::TooLong { set },
        };
    };
    if qtype == CNAME_TYPE {
        return Step::Ends {
            end: End::Made { set },
        };
    }
    Step::Onto {
        way: Way::Dname { set },
        target,
    }
}
