//! The walk from a name on, by what a store holds.
ghost use Rattle.std.specs.Prelude.{◌≡◌, ◌↔◌, ◌≤◌, ℕ, suc, [], ◌∷◌, Some, fold, min, false, IfSome};
ghost use Rattle.std.specs.Option.{option_map};
ghost use Rattle.cache_meaning.specs.Prove.{is_forwarded};
ghost use Rattle.cache_meaning.specs.Zones.{zone_in, zone_for};
ghost use Rattle.resolver.specs.Walk.{links_of, behind, taken, beyond, walk_of, redirection_of, walk_ttl};
ghost use Rattle.resolver.specs.SoundWalk.{IsSoundWalk};
ghost use Rattle.resolver.specs.Lent.{told_by_way, told_by_end, next_by, way_by, walk_by, step_by, visit_of, within, Leads, TellsWay, TellsStep};
ghost use Rattle.resolver.specs.declared.rule.Rule.TheVariants.{Aliases};
ghost use Rattle.resolver.specs.declared.walk.Way.{Way as LentWay};

use crate::laws::each_walk_is_sound;
use crate::step::Step;
use crate::stepping::step_of;
use crate::{End, MAX_LINKS, Rule, Walk, Way, prove, prove_in};
use arrayvec::ArrayVec;
use denial_records::remaining;
use dname::Name;
use record_store::{Store, ZoneRef};

/// Goes by the rule from a name on, at a moment in seconds, to a name of which the held records prove what is asked, or to
/// where a DNAME ends the walk. None exactly where there is no walk. It takes no memory.
pub fn walk_from<'a>(
    store: &'a Store,
    rule: Rule,
    name: &Name,
    qtype: u16,
    now: u32,
) -> Option<Walk<'a>>
    ensures walk { option_map walk_by result ≡ walk_of rule store.now now name.now qtype }
    ensures ttl { IfSome result (λ walk. walk.ttl ≡ walk_ttl now (walk_by walk)) }
    ensures sound { is_forwarded qtype ≡ false
        → IfSome result (λ walk. IsSoundWalk qtype name.now (walk_by walk)) }
{
    each_walk_is_sound();
    let step = visit(store, rule, name, qtype, now)?;
    taken(store, rule, name, step, qtype, now)
}

/// The walk by aliases alone, of eight links at most. It takes no memory.
pub fn follow<'a>(store: &'a Store, name: &Name, qtype: u16, now: u32) -> Option<Walk<'a>>
    ensures walk { option_map walk_by result ≡ walk_of Aliases store.now now name.now qtype }
    ensures ttl { IfSome result (λ walk. walk.ttl ≡ walk_ttl now (walk_by walk)) }
    ensures sound { is_forwarded qtype ≡ false
        → IfSome result (λ walk. IsSoundWalk qtype name.now (walk_by walk)) }
{
    walk_from(store, Rule::Aliases, name, qtype, now)
}

/// What a DNAME above the name makes of the question, where nothing is proved of the name itself. None exactly where there is no
/// redirection. It takes no memory.
pub fn synthesise<'a>(store: &'a Store, name: &Name, qtype: u16, now: u32) -> Option<Walk<'a>>
    ensures walk { option_map walk_by result ≡ redirection_of store.now now name.now qtype }
    ensures ttl { IfSome result (λ walk. walk.ttl ≡ walk_ttl now (walk_by walk)) }
    ensures sound { is_forwarded qtype ≡ false
        → IfSome result (λ walk. IsSoundWalk qtype name.now (walk_by walk)) }
{
    each_walk_is_sound();
    let zone = store.zone_for(name, qtype)?;
    if let Some(_verdict) = prove_in(&zone, name, qtype, now) {
        return None;
    }
    beyond(store, &zone, Rule::Redirection, name, qtype, now)
}

/// The walk on from a name of which nothing is proved, in the zone for the question.
pub(crate) fn beyond<'a>(
    store: &'a Store,
    zone: &ZoneRef<'a>,
    rule: Rule,
    name: &Name,
    qtype: u16,
    now: u32,
) -> Option<Walk<'a>>
    requires { Some zone.now
        ≡ option_map (zone_in store.now) (zone_for store.now name.now qtype) }
    ensures walk { option_map walk_by result
        ≡ beyond (links_of rule) rule store.now now qtype name.now }
    ensures ttl { IfSome result (λ walk. walk.ttl ≡ walk_ttl now (walk_by walk)) }
{
    let step = step_of(zone, rule, name, qtype, now)?;
    taken(store, rule, name, step, qtype, now)
}

// What is proved of a name, or else the step from it.
fn visit<'a>(store: &'a Store, rule: Rule, name: &Name, qtype: u16, now: u32) -> Option<Step<'a>>
    ensures step { option_map (step_by name.now) result
        ≡ visit_of rule store.now now qtype name.now }
    ensures leads { IfSome result (Leads name.now) }
    ensures ttl { IfSome result (TellsStep now) }
{
    let zone = store.zone_for(name, qtype)?;
    if let Some(verdict) = prove_in(&zone, name, qtype, now) {
        let end = End::Proved { verdict };
        return Some(Step::Ends { end });
    }
    step_of(&zone, rule, name, qtype, now)
}

// The step and what comes behind it.
fn taken<'a>(
    store: &'a Store,
    rule: Rule,
    name: &Name,
    step: Step<'a>,
    qtype: u16,
    now: u32,
) -> Option<Walk<'a>>
    requires leads { Leads name.now step }
    requires ttl { TellsStep now step }
    ensures walk { (links : ℕ) → links_of rule ≡ suc links → option_map walk_by result
        ≡ taken (within links rule store.now now qtype) name.now (step_by name.now step.entry) }
    ensures ttl { IfSome result (λ walk. walk.ttl ≡ walk_ttl now (walk_by walk)) }
{
    match step {
        Step::Ends { end } => Some(ended(name, ArrayVec::new(), name.copy(), end, now)),
        Step::Onto { way, target } => behind(store, rule, name, way, target, qtype, now),
    }
}

// The way to a target and what comes behind it. The list of links is made here alone: a name that leads nowhere needs none.
fn behind<'a>(
    store: &'a Store,
    rule: Rule,
    name: &Name,
    way: Way<'a>,
    target: Name,
    qtype: u16,
    now: u32,
) -> Option<Walk<'a>>
    requires leads { target ≡ next_by name.now way }
    requires ttl { TellsWay now way }
    ensures walk { (links : ℕ) → links_of rule ≡ suc links → option_map walk_by result
        ≡ option_map (behind (record { owner = name.now; way = way_by way.entry target } ∷ []))
        (within links rule store.now now qtype target) }
    ensures ttl { IfSome result (λ walk. walk.ttl ≡ walk_ttl now (walk_by walk)) }
{
    let most = rule.links();
    let mut links = ArrayVec::new();
    links.push(way);
    let mut here = target;
    for _ in 1..most {
        match visit(store, rule, &here, qtype, now)? {
            Step::Ends { end } => return Some(ended(name, links, here, end, now)),
            Step::Onto { way, target } => {
                links.push(way);
                here = target;
            }
        }
    }
    let verdict = prove(store, &here, qtype, now)?;
    Some(ended(name, links, here, End::Proved { verdict }, now))
}

fn ended<'a>(
    name: &Name,
    links: ArrayVec<Way<'a>, MAX_LINKS>,
    last_name: Name,
    end: End<'a>,
    now: u32,
) -> Walk<'a>
    ensures name { result.name ≡ name.now }
    ensures links { result.links.items ≡ links.entry.items }
    ensures last { result.last_name ≡ last_name }
    ensures end { result.end ≡ end.entry }
    ensures ttl { result.ttl ≡ fold (λ ttl (way : LentWay). min ttl (told_by_way now way))
        (told_by_end now end.entry) links.entry.items }
{
    let ttl = least_ttl(links.as_slice(), end_ttl(&end, now), now);
    Walk {
        name: name.copy(),
        links,
        last_name,
        end,
        ttl,
    }
}

fn least_ttl(links: &[Way<'_>], last: u32, now: u32) -> u32
    ensures { result
        ≡ fold (λ ttl (way : LentWay). min ttl (told_by_way now way)) last links.now }
{
    let mut least = last;
    for way in links {
        least = least.min(way_ttl(way, now));
    }
    least
}

fn way_ttl(way: &Way<'_>, now: u32) -> u32
    ensures { result ≡ told_by_way now way.now }
{
    match way {
        Way::Alias { verdict } => verdict.ttl,
        Way::Dname { set } => remaining(set.life(), set.expiry(), now),
    }
}

fn end_ttl(end: &End<'_>, now: u32) -> u32
    ensures { result ≡ told_by_end now end.now }
{
    match end {
        End::Proved { verdict } => verdict.ttl,
        End::Made { set } => remaining(set.life(), set.expiry(), now),
        End::TooLong { set } => remaining(set.life(), set.expiry(), now),
    }
}
