//! A step from a name of which nothing is proved, in the zone for the question.
ghost use Rattle.std.specs.Prelude.{◌≡◌, ℕ, List, Some, IfSome};
ghost use Rattle.std.specs.Option.{option_map};
ghost use Rattle.dname.specs.Name.{Label};
ghost use Rattle.cache_meaning.specs.Ttl.{ttl_of};
ghost use Rattle.cache_meaning.specs.Zones.{zone_for};
ghost use Rattle.reply_core.specs.Shown.{shown_by};
ghost use Rattle.resolver.specs.Walk.{by_alias, alias_step, step_of};
ghost use Rattle.resolver.specs.Lent.{step_by, Leads, TellsStep};

use crate::dname_step::by_dname;
use crate::leading::alias_target;
use crate::step::Step;
use crate::{Rule, Way, prove_in};
use denial_records::Verdict;
use dname::Name;
use dname::types::{CNAME_TYPE, DS_TYPE};
use record_store::ZoneRef;

/// The step by the rule: the name's own alias, or else a DNAME above it.
pub(crate) fn step_of<'a>(
    zone: &ZoneRef<'a>,
    rule: Rule,
    name: &Name,
    qtype: u16,
    now: u32,
) -> Option<Step<'a>>
    requires { zone_for zone.now.held name.now qtype ≡ Some zone.now.apex }
    ensures step { option_map (step_by name.now) result
        ≡ step_of rule zone.now.held now qtype name.now }
    ensures leads { IfSome result (Leads name.now) }
    ensures ttl { IfSome result (TellsStep now) }
{
    if rule.takes_aliases() {
        if let Some(step) = by_alias(zone, name, qtype, now) {
            return Some(step);
        }
    }
    if rule.takes_redirections() {
        by_dname(zone, name, qtype, now)
    } else {
        None
    }
}

fn by_alias<'a>(zone: &ZoneRef<'a>, name: &Name, qtype: u16, now: u32) -> Option<Step<'a>>
    requires { zone_for zone.now.held name.now qtype ≡ Some zone.now.apex }
    ensures step { option_map (step_by name.now) result
        ≡ by_alias zone.now.held now qtype name.now }
    ensures leads { IfSome result (Leads name.now) }
    ensures ttl { IfSome result (TellsStep now) }
{
    if qtype == DS_TYPE {
        return None;
    }
    let verdict = prove_in(zone, name, CNAME_TYPE, now)?;
    alias_step(verdict)
}

fn alias_step<'a>(verdict: Verdict<'a>) -> Option<Step<'a>>
    ensures step { (name : List Label)
        → option_map (step_by name) result ≡ alias_step (shown_by verdict.entry) }
    ensures leads { (name : List Label) → IfSome result (Leads name) }
    ensures ttl { (now : ℕ) → verdict.entry.ttl ≡ ttl_of now (shown_by verdict.entry)
        → IfSome result (TellsStep now) }
{
    let target = alias_target(&verdict)?;
    Some(Step::Onto {
        way: Way::Alias { verdict },
        target,
    })
}
