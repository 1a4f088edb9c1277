ghost use Rattle.std.specs.Prelude.{◌≡◌, [], ◌∷◌, IfSome, IsTrue, if◌then◌else◌, Some, None};
ghost use Rattle.std.specs.Option.{option_or, option_and_then};
ghost use Rattle.dname.specs.Name.{Label, asterisk};
ghost use Rattle.cache_meaning.specs.Lent.{parameters_by};
ghost use Rattle.cache_meaning.specs.Evidence.{nsec3_matches, nsec3_covers};
ghost use Rattle.cache_meaning.specs.Nsec3Steps.{nsec3s_once, no_data_by_match, shows_encloser, no_data_by_wildcard, name_error, denial_at_source, denial_below, by_cover, by_enclosers, nsec3_proof};
ghost use Rattle.soundness.specs.Steps.{IsAsked};
ghost use Rattle.soundness.specs.Sound.{IsSound};
ghost use Rattle.synth_nsec3.specs.ChainAt.{chain_at, speaker};
ghost use Rattle.synth_nsec3.specs.Nsec3Evidence.{record_of, Says, IsFound, IsAskedOf};
ghost use Rattle.synth_nsec3.specs.declared.nsec3_evidence.Nsec3Evidence.{Nsec3Evidence};

use crate::at_source::AtSource;
use crate::covering::Covering;
use crate::hashed_chain::HashedChain;
use crate::matching::Matching;
use crate::nsec3_evidence::{Asked, Nsec3Evidence};
use cache_meaning::{
    Denials, HeldZone, Proven, answer_by_wildcard, deny_type, deny_type_below, hand_nothing_on,
    name_error, no_data, wildcard_below,
};
use denial_records::KeptNsec3;
use dname::Name;
use encloser::{Ancestors, next_closer};
use soundness::each_nsec3_proof_is_sound;

/// What the zone's NSEC3 records of the salt and the number of iterations prove of the name and type at a moment, in seconds
/// (RFC 5155, section 8; RFC 8198, sections 5.2 and 5.3); none exactly where they prove nothing. It takes no memory, and
/// hashes no name twice, and none that no step asks of.
pub fn judge<'a, Z: HeldZone<'a>>(
    zone: &Z,
    salt: &[u8],
    iterations: u16,
    name: &Name,
    qtype: u16,
    now: u32,
) -> Option<Proven<'a>>
    ensures proof { result
        ≡ nsec3_proof (Z.zone zone.now).held now (Z.zone zone.now).apex
        (parameters_by salt.now iterations) name.now qtype }
    ensures sound { IsAsked (Z.zone zone.now).apex name.now qtype
        → IfSome result (IsSound name.now qtype) }
{
    each_nsec3_proof_is_sound();
    let chain = HashedChain {
        zone,
        salt,
        iterations,
        moment: now,
    };
    nsec3_proof(&chain, name, qtype)
}

fn nsec3_proof<'a, Z: HeldZone<'a>>(
    chain: &HashedChain<'_, Z>,
    name: &Name,
    qtype: u16,
) -> Option<Proven<'a>>
    ensures { let at = chain_at Z.zone chain.now in
        result ≡ nsec3_proof at.held at.moment at.apex at.parameters name.now qtype }
{
    let evidence = chain.evidence(name);
    if let Some(proof) = at_name(chain, name, qtype, evidence) {
        return Some(proof);
    }
    by_enclosers(chain, name, qtype, evidence)
}

// By what the record that speaks of the name says of it.
fn at_name<'a, Z: HeldZone<'a>>(
    chain: &HashedChain<'_, Z>,
    name: &Name,
    qtype: u16,
    evidence: Option<Nsec3Evidence<'a>>,
) -> Option<Proven<'a>>
    requires { IsFound (chain_at Z.zone chain.now) name.now evidence }
    ensures { let at = chain_at Z.zone chain.now in
        result ≡ option_and_then
        (no_data_by_match at.held at.moment at.apex at.parameters name.now qtype)
        (speaker at name.now) }
{
    match evidence {
        Some(Nsec3Evidence::Matches(matching)) => { no_data_by_match(chain, name, qtype, matching) }
        _ => None,
    }
}

// Where the record matches the name: it may deny it the type.
fn no_data_by_match<'a, Z: HeldZone<'a>>(
    chain: &HashedChain<'_, Z>,
    name: &Name,
    qtype: u16,
    matching: &'a KeptNsec3,
) -> Option<Proven<'a>>
    requires { IsTrue (nsec3_matches (chain_at Z.zone chain.now).parameters matching.now name.now) }
    ensures { let at = chain_at Z.zone chain.now in
        result
        ≡ no_data_by_match at.held at.moment at.apex at.parameters name.now qtype matching.now }
{
    if deny_type(&matching.types(), chain.apex(), name, qtype) {
        no_data(chain.zone, chain.moment, Denials::nsec3(matching))
    } else {
        None
    }
}

// By the ancestors of the name, each as the encloser of its next closer name. What was found of the one is what the next
// turn asks of.
fn by_enclosers<'a, Z: HeldZone<'a>>(
    chain: &HashedChain<'_, Z>,
    name: &Name,
    qtype: u16,
    evidence: Option<Nsec3Evidence<'a>>,
) -> Option<Proven<'a>>
    requires { IsFound (chain_at Z.zone chain.now) name.now evidence }
    ensures { let at = chain_at Z.zone chain.now in
        result ≡ by_enclosers at.held at.moment at.apex at.parameters qtype name.now }
{
    if !name.is_under(chain.apex()) {
        return None;
    }
    let mut asked = Asked::Before(evidence);
    for encloser in Ancestors::of(name, chain.apex()) {
        let closer = next_closer(name, &encloser);
        let (proof, of_encloser) = at_encloser(chain, qtype, &closer, &encloser, asked);
        if let Some(proof) = proof {
            return Some(proof);
        }
        asked = of_encloser;
    }
    None
}

// By the record that speaks of the next closer name. What the chain says of the encloser comes too, if it was asked of.
fn at_encloser<'a, Z: HeldZone<'a>>(
    chain: &HashedChain<'_, Z>,
    qtype: u16,
    next_closer: &Name,
    encloser: &Name,
    asked: Asked<'a>,
) -> (Option<Proven<'a>>, Asked<'a>)
    requires asked { IsAskedOf (chain_at Z.zone chain.now) next_closer.now asked }
    requires below { (label : Label) × (next_closer.now ≡ label ∷ encloser.now) }
    ensures proof { let at = chain_at Z.zone chain.now in
        result.0 ≡ option_and_then
        (by_cover at.held at.moment at.apex at.parameters qtype next_closer.now encloser.now)
        (speaker at next_closer.now) }
    ensures asked { IsAskedOf (chain_at Z.zone chain.now) encloser.now result.1 }
{
    match asked.evidence(chain, next_closer) {
        Some(Nsec3Evidence::Covers(nsec3)) => {
            by_cover(chain, qtype, next_closer, encloser, Covering { nsec3 })
        }
        _ => (None, Asked::NotYet),
    }
}

// Where the record covers the next closer name: the encloser's wildcard answers, or is denied.
fn by_cover<'a, Z: HeldZone<'a>>(
    chain: &HashedChain<'_, Z>,
    qtype: u16,
    next_closer: &Name,
    encloser: &Name,
    covering: Covering<'a>,
) -> (Option<Proven<'a>>, Asked<'a>)
    requires covered { IsFound (chain_at Z.zone chain.now) next_closer.now
        (Some (Nsec3Evidence.Covers covering.nsec3)) }
    requires below { (label : Label) × (next_closer.now ≡ label ∷ encloser.now) }
    ensures proof { let at = chain_at Z.zone chain.now in
        result.0
        ≡ by_cover at.held at.moment at.apex at.parameters qtype next_closer.now encloser.now
        covering.entry.nsec3.now }
    ensures asked { IsAskedOf (chain_at Z.zone chain.now) encloser.now result.1 }
{
    let source = wildcard_below(next_closer, encloser);
    let denials = Denials::nsec3(covering.nsec3);
    if let Some(proof) = answer_by_wildcard(chain.zone, chain.moment, qtype, &source, denials) {
        return (Some(proof), Asked::NotYet);
    }
    let found = chain.evidence(encloser);
    let of_source = asked_before(chain, next_closer, &source, covering);
    let proof = denial_below(chain, qtype, encloser, &source, covering, found, of_source);
    (proof, Asked::Before(found))
}

// Of the wildcard the chain was asked where it is the next closer name itself.
fn asked_before<'a, Z: HeldZone<'a>>(
    chain: &HashedChain<'_, Z>,
    next_closer: &Name,
    source: &Name,
    covering: Covering<'a>,
) -> Asked<'a>
    requires { IsFound (chain_at Z.zone chain.now) next_closer.now
        (Some (Nsec3Evidence.Covers covering.nsec3)) }
    ensures { IsAskedOf (chain_at Z.zone chain.now) source.now result }
{
    if source == next_closer {
        Asked::Before(Some(Nsec3Evidence::Covers(covering.nsec3)))
    } else {
        Asked::NotYet
    }
}

// By what the record that speaks of the encloser says of it.
fn denial_below<'a, Z: HeldZone<'a>>(
    chain: &HashedChain<'_, Z>,
    qtype: u16,
    encloser: &Name,
    source: &Name,
    covering: Covering<'a>,
    evidence: Option<Nsec3Evidence<'a>>,
    of_source: Asked<'a>,
) -> Option<Proven<'a>>
    requires found { IsFound (chain_at Z.zone chain.now) encloser.now evidence }
    requires asked { IsAskedOf (chain_at Z.zone chain.now) source.now of_source }
    requires wildcard { source.now ≡ asterisk ∷ encloser.now }
    ensures { let at = chain_at Z.zone chain.now in
        result
        ≡ denial_below at.held at.moment at.apex at.parameters qtype encloser.now
        covering.entry.nsec3.now }
{
    match evidence {
        Some(Nsec3Evidence::Matches(nsec3)) => {
            let matching = Matching { nsec3 };
            below_encloser(
                chain, qtype, encloser, source, matching, covering, of_source,
            )
        }
        _ => None,
    }
}

// Where the record matches the encloser: it may hand no names on.
fn below_encloser<'a, Z: HeldZone<'a>>(
    chain: &HashedChain<'_, Z>,
    qtype: u16,
    encloser: &Name,
    source: &Name,
    matching: Matching<'a>,
    covering: Covering<'a>,
    of_source: Asked<'a>,
) -> Option<Proven<'a>>
    requires asked { IsAskedOf (chain_at Z.zone chain.now) source.now of_source }
    requires matches { IsTrue
        (nsec3_matches (chain_at Z.zone chain.now).parameters matching.nsec3.now encloser.now) }
    requires wildcard { source.now ≡ asterisk ∷ encloser.now }
    ensures { let at = chain_at Z.zone chain.now in
        result
        ≡ (if shows_encloser at.parameters at.apex encloser.now matching.entry.nsec3.now
        then denial_at_source at.held at.moment at.apex at.parameters qtype
        (asterisk ∷ encloser.now) matching.entry.nsec3.now covering.entry.nsec3.now
        else None) }
{
    let types = matching.nsec3.types();
    if hand_nothing_on(&types, chain.apex().lent(), encloser.lent()) {
        denial_at_source(chain, qtype, source, matching, covering, of_source)
    } else {
        None
    }
}

// By what the record that speaks of the wildcard says of it.
fn denial_at_source<'a, Z: HeldZone<'a>>(
    chain: &HashedChain<'_, Z>,
    qtype: u16,
    source: &Name,
    matching: Matching<'a>,
    covering: Covering<'a>,
    of_source: Asked<'a>,
) -> Option<Proven<'a>>
    requires { IsAskedOf (chain_at Z.zone chain.now) source.now of_source }
    ensures { let at = chain_at Z.zone chain.now in
        result
        ≡ denial_at_source at.held at.moment at.apex at.parameters qtype source.now
        matching.entry.nsec3.now covering.entry.nsec3.now }
{
    let evidence = of_source.evidence(chain, source)?;
    denial_by(chain, qtype, source, matching, covering, evidence)
}

fn denial_by<'a, Z: HeldZone<'a>>(
    chain: &HashedChain<'_, Z>,
    qtype: u16,
    source: &Name,
    matching: Matching<'a>,
    covering: Covering<'a>,
    evidence: Nsec3Evidence<'a>,
) -> Option<Proven<'a>>
    requires { Says (chain_at Z.zone chain.now) source.now evidence }
    ensures { let at = chain_at Z.zone chain.now in
        result ≡ option_or
        (no_data_by_wildcard at.held at.moment at.apex at.parameters qtype source.now
        matching.entry.nsec3.now covering.entry.nsec3.now (record_of evidence.entry))
        (name_error at.held at.moment at.apex at.parameters source.now matching.entry.nsec3.now
        covering.entry.nsec3.now (record_of evidence.entry)) }
{
    match evidence {
        Nsec3Evidence::Matches(nsec3) => {
            no_data_by_wildcard(chain, qtype, source, matching, covering, AtSource { nsec3 })
        }
        Nsec3Evidence::Covers(nsec3) => {
            let denials = each_once(matching, covering, AtSource { nsec3 });
            name_error(chain.zone, chain.moment, denials)
        }
        Nsec3Evidence::Spans(_) => None,
    }
}

// Where the record matches the wildcard: it may deny it the type.
fn no_data_by_wildcard<'a, Z: HeldZone<'a>>(
    chain: &HashedChain<'_, Z>,
    qtype: u16,
    source: &Name,
    matching: Matching<'a>,
    covering: Covering<'a>,
    at_source: AtSource<'a>,
) -> Option<Proven<'a>>
    requires { IsTrue
        (nsec3_matches (chain_at Z.zone chain.now).parameters at_source.nsec3.now source.now) }
    ensures { let at = chain_at Z.zone chain.now in
        result
        ≡ no_data_by_wildcard at.held at.moment at.apex at.parameters qtype source.now
        matching.entry.nsec3.now covering.entry.nsec3.now at_source.entry.nsec3.now }
{
    if deny_type_below(&at_source.nsec3.types(), qtype) {
        let denials = each_once(matching, covering, at_source);
        no_data(chain.zone, chain.moment, denials)
    } else {
        None
    }
}

// The records of a denial below an encloser, in the order of their roles.
fn each_once<'a>(
    matching: Matching<'a>,
    covering: Covering<'a>,
    at_source: AtSource<'a>,
) -> Denials<'a>
    ensures { result ≡ nsec3s_once (matching.entry.nsec3.now ∷ covering.entry.nsec3.now
        ∷ at_source.entry.nsec3.now ∷ []) }
{
    Denials::nsec3s_once(matching.nsec3, covering.nsec3, at_source.nsec3)
}
