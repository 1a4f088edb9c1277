//! The reply that a walk gives.
ghost use Rattle.std.specs.Prelude.{◌≡◌, ◌≤◌, ◌++◌, ℕ, List, [], length, take, unwrap_or};
ghost use Rattle.std.specs.List.{flat_map};
ghost use Rattle.dname.specs.Name.{Label};
ghost use Rattle.dnswire.specs.declared.edns.TheConstants.{LEAST_PAYLOAD};
ghost use Rattle.dnswire.specs.declared.question.Question.{Question as Asked};
ghost use Rattle.reply_core.specs.Kept.{owner_of, listed};
ghost use Rattle.reply_core.specs.Reply.{ReplyRecord, wants_dnssec, rcode_of, set_records, proof_records};
ghost use Rattle.reply_core.specs.Sections.{HasWrittenWithin};
ghost use Rattle.reply_core.specs.Shown.{shown_by, denial_in};
ghost use Rattle.reply_core.specs.declared.draft.TheConstants.{MAX_LONG_REPLY};
ghost use Rattle.resolver.specs.WalkReply.{dname_records, made_records, way_records, end_records, walk_answers, end_denials, are_new, denials_after, end_soa, end_rcode, walk_within, walk_octets};
ghost use Rattle.resolver.specs.Lent.{made_by, next_by, way_by, links_by, end_by, walk_by, one_alias, dnames_by, denials_in, denials_by};

use crate::leading::{made_name, next_name};
use crate::once::{go_by, is_among};
use crate::{End, Walk, Way};
use denial_records::{Denial, KeptSet, Kind, Verdict};
use dname::Name;
use dnswire::Question;
use reply_core::rcode::{NAME_ERROR, NO_ERROR, YX_DOMAIN};
use reply_core::{Reply, ReplyBuffer, Sections, limit_of};

/// Writes the reply that the walk gives to the question, with the walk's TTL, in place of what the buffer held.
pub fn write_walk(question: &Question, walk: &Walk<'_>, out: &mut ReplyBuffer)
    ensures { out.new ≡ walk_octets question.now (walk_by walk.now) walk.now.ttl }
{
    write_walk_within(limit_of(question.edns), question, walk, out);
}

/// The same within this limit.
pub fn write_walk_within<const N: usize>(
    limit: usize,
    question: &Question,
    walk: &Walk<'_>,
    out: &mut Reply<N>,
)
    requires size { N ≤ MAX_LONG_REPLY }
    requires room { limit ≤ N }
    requires least { LEAST_PAYLOAD ≤ limit }
    ensures value { out.new ≡ walk_within limit question.now (walk_by walk.now) walk.now.ttl }
    ensures within_limit { length out.new ≤ limit }
{
    let rcode = end_rcode(&walk.end);
    let mut sections = Sections::begin_within(limit, question, rcode, walk.ttl);
    put_answers(&mut sections, walk);
    put_soa(&mut sections, &walk.end);
    put_denials(&mut sections, walk.links.as_slice(), &walk.end);
    sections.finish(out);
}

/// The same, of a walk by aliases.
pub fn write_trail(question: &Question, trail: &Walk<'_>, out: &mut ReplyBuffer)
    ensures { out.new ≡ walk_octets question.now (walk_by trail.now) trail.now.ttl }
{
    write_walk(question, trail, out);
}

/// The same, of a redirection.
pub fn write_redirected(question: &Question, redirected: &Walk<'_>, out: &mut ReplyBuffer)
    ensures { out.new ≡ walk_octets question.now (walk_by redirected.now) redirected.now.ttl }
{
    write_walk(question, redirected, out);
}

// The records of each link, and those that answer at the end.
fn put_answers<const N: usize>(sections: &mut Sections<'_, N>, walk: &Walk<'_>)
    ensures { (limit : ℕ) (question : Asked) (rcode ttl : ℕ)
        → HasWrittenWithin limit question rcode ttl [] [] sections.old
        → HasWrittenWithin limit question rcode ttl
        (walk_answers (wants_dnssec question) (walk_by walk.now)) [] sections.new }
{
    let links = walk.links.as_slice();
    let mut owner = walk.name.copy();
    for place in 0..links.len() {
        let way = &links[place];
        put_way(sections, first_of(links, place), &owner, way);
        owner = next_name(&owner, way);
    }
    put_end(sections, links, &walk.last_name, &walk.end);
}

fn put_way<const N: usize>(
    sections: &mut Sections<'_, N>,
    earlier: &[Way<'_>],
    name: &Name,
    way: &Way<'_>,
)
    ensures { (limit : ℕ) (question : Asked) (rcode ttl : ℕ) (answers : List ReplyRecord)
        → HasWrittenWithin limit question rcode ttl answers [] sections.old
        → HasWrittenWithin limit question rcode ttl
        (answers ++ way_records (wants_dnssec question) (dnames_by earlier.now) name.now
        (way_by way.now (next_by name.now way.now))) [] sections.new }
{
    match way {
        Way::Alias { verdict } => sections.put_answer(name, verdict.answer_set),
        Way::Dname { set } => put_made(sections, earlier, name, set),
    }
}

fn put_end<const N: usize>(
    sections: &mut Sections<'_, N>,
    earlier: &[Way<'_>],
    name: &Name,
    end: &End<'_>,
)
    ensures { (limit : ℕ) (question : Asked) (rcode ttl : ℕ) (answers : List ReplyRecord)
        → HasWrittenWithin limit question rcode ttl answers [] sections.old
        → HasWrittenWithin limit question rcode ttl
        (answers ++ end_records (wants_dnssec question) (dnames_by earlier.now) name.now
        (end_by name.now end.now)) [] sections.new }
{
    match end {
        End::Proved { verdict } => sections.put_answer(name, verdict.answer_set),
        End::Made { set } => put_made(sections, earlier, name, set),
        End::TooLong { set } => put_dname(sections, earlier, set),
    }
}

// A DNAME set, and the CNAME that it makes.
fn put_made<const N: usize>(
    sections: &mut Sections<'_, N>,
    earlier: &[Way<'_>],
    name: &Name,
    set: &KeptSet,
)
    ensures { (limit : ℕ) (question : Asked) (rcode ttl : ℕ) (answers : List ReplyRecord)
        → HasWrittenWithin limit question rcode ttl answers [] sections.old
        → HasWrittenWithin limit question rcode ttl
        (answers ++ made_records (wants_dnssec question) (dnames_by earlier.now) name.now set.now
        (unwrap_or (made_by name.now set.now) name.now)) [] sections.new }
{
    put_dname(sections, earlier, set);
    sections.put_alias(name, &made_name(name, set));
}

// A DNAME set, unless an earlier link goes by it.
fn put_dname<const N: usize>(sections: &mut Sections<'_, N>, earlier: &[Way<'_>], set: &KeptSet)
    ensures { (limit : ℕ) (question : Asked) (rcode ttl : ℕ) (answers : List ReplyRecord)
        → HasWrittenWithin limit question rcode ttl answers [] sections.old
        → HasWrittenWithin limit question rcode ttl
        (answers ++ dname_records (wants_dnssec question) (dnames_by earlier.now) set.now) []
        sections.new }
{
    if !go_by(earlier, set) {
        sections.put_answer(&set.owner().name(), Some(set));
    }
}

// The SOA set of the last proof.
fn put_soa<const N: usize>(sections: &mut Sections<'_, N>, end: &End<'_>)
    ensures { (name : List Label) (limit : ℕ) (question : Asked) (rcode ttl : ℕ)
        (answers : List ReplyRecord)
        → HasWrittenWithin limit question rcode ttl answers [] sections.old
        → HasWrittenWithin limit question rcode ttl answers (flat_map (λ soa. set_records
        (wants_dnssec question) (owner_of soa) soa) (listed (end_soa (end_by name end.now))))
        sections.new }
{
    match end {
        End::Proved { verdict } => sections.put_soa(verdict.soa),
        End::Made { set: _ } | End::TooLong { set: _ } => {}
    }
}

// The denial records of the links and of the end, each once.
fn put_denials<const N: usize>(sections: &mut Sections<'_, N>, links: &[Way<'_>], end: &End<'_>)
    ensures { (name last : List Label) (limit : ℕ) (question : Asked) (rcode ttl : ℕ)
        (answers authorities : List ReplyRecord)
        → HasWrittenWithin limit question rcode ttl answers authorities sections.old
        → HasWrittenWithin limit question rcode ttl answers (authorities ++ flat_map (proof_records
        (wants_dnssec question))
        (denials_after [] (links_by name links.now) (end_by last end.now))) sections.new }
{
    for place in 0..links.len() {
        put_those_of_way(sections, first_of(links, place), &links[place]);
    }
    put_those_of_end(sections, links, end);
}

fn first_of<'a, 'b>(links: &'b [Way<'a>], count: usize) -> &'b [Way<'a>]
    requires { count ≤ length links.now }
    ensures { result.now ≡ take count links.now }
{
    &links[..count]
}

fn put_those_of_way<const N: usize>(
    sections: &mut Sections<'_, N>,
    earlier: &[Way<'_>],
    way: &Way<'_>,
)
    ensures { (limit : ℕ) (question : Asked) (rcode ttl : ℕ)
        (answers authorities : List ReplyRecord)
        → HasWrittenWithin limit question rcode ttl answers authorities sections.old
        → HasWrittenWithin limit question rcode ttl answers (authorities ++ flat_map (proof_records
        (wants_dnssec question)) (are_new (denials_by earlier.now) (denials_in way.now)))
        sections.new }
{
    match way {
        Way::Alias { verdict } => put_new_denials(sections, earlier, verdict),
        Way::Dname { set: _ } => {}
    }
}

fn put_those_of_end<const N: usize>(
    sections: &mut Sections<'_, N>,
    earlier: &[Way<'_>],
    end: &End<'_>,
)
    ensures { (name : List Label) (limit : ℕ) (question : Asked) (rcode ttl : ℕ)
        (answers authorities : List ReplyRecord)
        → HasWrittenWithin limit question rcode ttl answers authorities sections.old
        → HasWrittenWithin limit question rcode ttl answers (authorities ++ flat_map (proof_records
        (wants_dnssec question)) (are_new (denials_by earlier.now)
        (end_denials (end_by name end.now)))) sections.new }
{
    match end {
        End::Proved { verdict } => put_new_denials(sections, earlier, verdict),
        End::Made { set: _ } | End::TooLong { set: _ } => {}
    }
}

// The denial records of a verdict that no earlier link has.
fn put_new_denials<const N: usize>(
    sections: &mut Sections<'_, N>,
    earlier: &[Way<'_>],
    verdict: &Verdict<'_>,
)
    ensures { (limit : ℕ) (question : Asked) (rcode ttl : ℕ)
        (answers authorities : List ReplyRecord)
        → HasWrittenWithin limit question rcode ttl answers authorities sections.old
        → HasWrittenWithin limit question rcode ttl answers (authorities ++ flat_map (proof_records
        (wants_dnssec question)) (are_new (denials_by earlier.now) (shown_by verdict.now).denials))
        sections.new }
{
    put_new_denial(sections, earlier, &verdict.first);
    put_new_denial(sections, earlier, &verdict.second);
    put_new_denial(sections, earlier, &verdict.third);
}

fn put_new_denial<const N: usize>(
    sections: &mut Sections<'_, N>,
    earlier: &[Way<'_>],
    place: &Option<Denial<'_>>,
)
    ensures { (limit : ℕ) (question : Asked) (rcode ttl : ℕ)
        (answers authorities : List ReplyRecord)
        → HasWrittenWithin limit question rcode ttl answers authorities sections.old
        → HasWrittenWithin limit question rcode ttl answers (authorities ++ flat_map (proof_records
        (wants_dnssec question)) (are_new (denials_by earlier.now) (denial_in place.now)))
        sections.new }
{
    let Some(denial) = place else {
        return;
    };
    if !is_among(earlier, denial) {
        sections.put_denial(place);
    }
}

// The RCODE of the last name, or that a target is too long.
fn end_rcode(end: &End<'_>) -> u16
    ensures value { (name : List Label) → result ≡ end_rcode (end_by name end.now) }
    ensures small { result ≤ 15 }
{
    match end {
        End::Proved { verdict } => rcode_of(verdict.kind),
        End::Made { set: _ } => NO_ERROR,
        End::TooLong { set: _ } => YX_DOMAIN,
    }
}

fn rcode_of(kind: Kind) -> u16
    ensures value { result ≡ rcode_of kind }
    ensures small { result ≤ 15 }
{
    match kind {
        Kind::NxDomain => NAME_ERROR,
        Kind::NoData | Kind::Answer => NO_ERROR,
    }
}
