//! The reply that a store gives by a rule.
ghost use Rattle.std.specs.Prelude.{◌≡◌, ◌≤◌, ◌↔◌, true, [], Some, None, is_some, MatchBool, IfSome, IsSome};
ghost use Rattle.std.specs.Option.{option_map, option_copied};
ghost use Rattle.dname.specs.declared.types.TheConstants.{CNAME_TYPE};
ghost use Rattle.dnswire.specs.declared.edns.TheConstants.{LEAST_PAYLOAD};
ghost use Rattle.cache_meaning.specs.Prove.{zone_proof};
ghost use Rattle.cache_meaning.specs.Verdict.{IsVerdictOf};
ghost use Rattle.cache_meaning.specs.Zones.{zone_in, zone_for, set_at};
ghost use Rattle.reply_core.specs.declared.draft.TheConstants.{MAX_LONG_REPLY};
ghost use Rattle.resolver.specs.Walk.{asks_a_zone, takes_aliases, links_of, beyond, walk_of};
ghost use Rattle.resolver.specs.SoundWalk.{IsSoundWalk};
ghost use Rattle.resolver.specs.WalkReply.{walk_in, walk_reply_within, walk_reply_in};
ghost use Rattle.resolver.specs.Origin.{origin_in, IsReplyOf};
ghost use Rattle.resolver.specs.declared.rule.Rule.{Rule as ARule};

use crate::laws::each_walk_is_sound;
use crate::origin::{proof_origin, uses_denials, walk_origin};
use crate::search::usable_alias;
use crate::walking::beyond;
use crate::{Origin, Rule, answer_by_set, prove, prove_by_chains, prove_in, write_walk_within};
use cache_meaning::{is_forwarded, that_is_usable};
use denial_records::{KeptSet, Verdict, remaining};
use dname::one_name_in;
use dname::types::{DS_TYPE, IN_CLASS};
use dnswire::Question;
use record_store::{Store, ZoneRef};
use reply_core::{Reply, ReplyBuffer, limit_of, write_alias_reply_within, write_reply_within};

/// From what the reply is made, where the records prove an answer at a moment, in seconds, or lead to one by the rule. Then the
/// buffer holds the reply, and else it is empty. What is proved of the question itself is asked first, and costs what it costs
/// without a rule.
pub fn walk_reply(
    store: &Store,
    rule: Rule,
    question: &Question,
    now: u32,
    out: &mut ReplyBuffer,
) -> Option<Origin>
    ensures reply { MatchBool (is_some result)
        (walk_reply_in rule store.now question.now now ≡ Some out.new)
        ((walk_reply_in rule store.now question.now now ≡ None) × (out.new ≡ [])) }
    ensures origin { result ≡ origin_in rule store.now question.now now }
    ensures sound { IfSome (walk_in rule store.now question.now now)
        (IsSoundWalk question.now.qtype question.now.name) }
{
    let limit = limit_of(question.edns);
    walk_reply_within(store, rule, question, now, limit, out)
}

/// The same within this limit.
pub fn walk_reply_within<const N: usize>(
    store: &Store,
    rule: Rule,
    question: &Question,
    now: u32,
    limit: usize,
    out: &mut Reply<N>,
) -> Option<Origin>
    requires size { N ≤ MAX_LONG_REPLY }
    requires room { limit ≤ N }
    requires least { LEAST_PAYLOAD ≤ limit }
    ensures reply { MatchBool (is_some result)
        (walk_reply_within limit rule store.now question.now now ≡ Some out.new)
        ((walk_reply_within limit rule store.now question.now now ≡ None) × (out.new ≡ [])) }
    ensures origin { result ≡ origin_in rule store.now question.now now }
    ensures sound { IfSome (walk_in rule store.now question.now now)
        (IsSoundWalk question.now.qtype question.now.name) }
{
    each_walk_is_sound();
    if !asks_a_zone(question) {
        out.clear();
        return None;
    }
    let Some(zone) = store.zone_for(&question.name, question.qtype) else {
        out.clear();
        return None;
    };
    reply_from(store, &zone, rule, question, now, limit, out)
}

// The same of a question that asks a zone, which this is.
fn reply_from<'s, const N: usize>(
    store: &'s Store,
    zone: &ZoneRef<'s>,
    rule: Rule,
    question: &Question,
    now: u32,
    limit: usize,
    out: &mut Reply<N>,
) -> Option<Origin>
    requires size { N ≤ MAX_LONG_REPLY }
    requires room { limit ≤ N }
    requires least { LEAST_PAYLOAD ≤ limit }
    requires zone { Some zone.now ≡ option_map (zone_in store.now)
        (zone_for store.now question.now.name question.now.qtype) }
    ensures { IsReplyOf limit question.now now
        (walk_of rule store.now now question.now.name question.now.qtype) result out.new }
{
    if rule.takes_aliases() {
        return reply_with_aliases(store, zone, rule, question, now, limit, out);
    }
    if let Some(verdict) = prove_in(zone, &question.name, question.qtype, now) {
        write_reply_within(limit, question, &verdict, out);
        return Some(proof_origin(&verdict));
    }
    reply_by_walk(store, zone, rule, question, now, limit, out)
}

// The same by a rule that takes aliases: one search looks for the question's own set and for its name's CNAME set.
fn reply_with_aliases<'s, const N: usize>(
    store: &'s Store,
    zone: &ZoneRef<'s>,
    rule: Rule,
    question: &Question,
    now: u32,
    limit: usize,
    out: &mut Reply<N>,
) -> Option<Origin>
    requires size { N ≤ MAX_LONG_REPLY }
    requires room { limit ≤ N }
    requires least { LEAST_PAYLOAD ≤ limit }
    requires zone { Some zone.now ≡ option_map (zone_in store.now)
        (zone_for store.now question.now.name question.now.qtype) }
    requires takes { takes_aliases rule ≡ true }
    ensures { IsReplyOf limit question.now now
        (walk_of rule store.now now question.now.name question.now.qtype) result out.new }
{
    let found = zone.set_and_alias_at(&question.name, question.qtype);
    if let Some(verdict) = prove_with(zone, found.set, question, now) {
        write_reply_within(limit, question, &verdict, out);
        return Some(proof_origin(&verdict));
    }
    if let Some(origin) = reply_by_alias(store, zone, question, found.alias, now, limit, out) {
        return Some(origin);
    }
    reply_by_walk(store, zone, rule, question, now, limit, out)
}

// What the zone's records prove of the question, whose own set was looked up.
fn prove_with<'s>(
    zone: &ZoneRef<'s>,
    found: Option<&'s KeptSet>,
    question: &Question,
    now: u32,
) -> Option<Verdict<'s>>
    requires { option_copied found
        ≡ set_at zone.now.held zone.now.apex question.now.name question.now.qtype }
    ensures proved { IfSome result (IsVerdictOf now (zone_proof
        zone.now.held now zone.now.apex question.now.name question.now.qtype)) }
    ensures exact { IsSome result ↔ IsSome (zone_proof
        zone.now.held now zone.now.apex question.now.name question.now.qtype) }
{
    if let Some(set) = that_is_usable(found, now) {
        return Some(answer_by_set(set, now));
    }
    prove_by_chains(zone, &question.name, question.qtype, now)
}

// The same where the question's own CNAME set leads to a name of which something is proved, as most do. Else the buffer holds what
// it held. A search may have told of that set already.
fn reply_by_alias<'s, const N: usize>(
    store: &'s Store,
    zone: &ZoneRef<'s>,
    question: &Question,
    told: Option<Option<&'s KeptSet>>,
    now: u32,
    limit: usize,
    out: &mut Reply<N>,
) -> Option<Origin>
    requires room { limit ≤ N }
    requires least { LEAST_PAYLOAD ≤ limit }
    requires zone { Some zone.now ≡ option_map (zone_in store.now)
        (zone_for store.now question.now.name question.now.qtype) }
    requires told { IfSome told (λ alias. option_copied alias
        ≡ set_at zone.now.held zone.now.apex question.now.name CNAME_TYPE) }
    ensures done { IsSome result → (rule : ARule) → takes_aliases rule ≡ true
        → IsReplyOf limit question.now now
        (beyond (links_of rule) rule store.now now question.now.qtype question.now.name)
        result out.new }
    ensures same { result ≡ None → out.new ≡ out.old }
{
    if question.qtype == DS_TYPE {
        return None;
    }
    let Some(set) = usable_alias(zone, now, &question.name, told) else {
        return None;
    };
    let found = one_name_in(set.items());
    let Some(target) = &found else {
        return None;
    };
    let Some(verdict) = prove(store, target, question.qtype, now) else {
        return None;
    };
    let ttl = verdict.ttl.min(remaining(set.life(), set.expiry(), now));
    write_alias_reply_within(limit, question, set, target, &verdict, ttl, out);
    Some(Origin::Alias {
        synthesized: uses_denials(&verdict),
    })
}

// Where nothing is proved of the question itself: the reply of whatever walk there is, which is more to hold.
#[inline(never)]
fn reply_by_walk<'s, const N: usize>(
    store: &'s Store,
    zone: &ZoneRef<'s>,
    rule: Rule,
    question: &Question,
    now: u32,
    limit: usize,
    out: &mut Reply<N>,
) -> Option<Origin>
    requires size { N ≤ MAX_LONG_REPLY }
    requires room { limit ≤ N }
    requires least { LEAST_PAYLOAD ≤ limit }
    requires zone { Some zone.now ≡ option_map (zone_in store.now)
        (zone_for store.now question.now.name question.now.qtype) }
    ensures { IsReplyOf limit question.now now
        (beyond (links_of rule) rule store.now now question.now.qtype question.now.name)
        result out.new }
{
    let Some(walk) = beyond(store, zone, rule, &question.name, question.qtype, now) else {
        out.clear();
        return None;
    };
    write_walk_within(limit, question, &walk, out);
    Some(walk_origin(&walk))
}

fn asks_a_zone(question: &Question) -> bool
    ensures { result ≡ asks_a_zone question.now.qtype question.now.qclass }
{
    question.qclass == IN_CLASS && !is_forwarded(question.qtype)
}
