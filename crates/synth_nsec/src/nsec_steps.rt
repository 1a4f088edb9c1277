ghost use Rattle.std.specs.Prelude.{◌≡◌, [], ◌∷◌, IfSome, IsTrue};
ghost use Rattle.std.specs.Option.{option_or};
ghost use Rattle.cache_meaning.specs.Zones.{IsInArc};
ghost use Rattle.cache_meaning.specs.Evidence.{nsec_matches, nsec_covers};
ghost use Rattle.cache_meaning.specs.NsecSteps.{nsecs_once, no_data_by_match, no_data_by_wildcard, name_error, denial_at_source, by_cover, nsec_steps, nsec_proof};
ghost use Rattle.soundness.specs.Steps.{IsAsked};
ghost use Rattle.soundness.specs.Sound.{IsSound};
ghost use Rattle.synth_nsec.specs.NsecEvidence.{record_of, Says};

use crate::at_source::AtSource;
use crate::covering::Covering;
use crate::nsec_evidence::{NsecEvidence, nsec_evidence};
use crate::source::source_of;
use cache_meaning::{
    Denials, HeldZone, Proven, answer_by_wildcard, deny_type, deny_type_below, name_error, no_data,
};
use denial_records::KeptNsec;
use dname::Name;
use soundness::each_nsec_proof_is_sound;

/// What the zone's NSEC records prove of the name and type at a moment, in seconds (RFC 4035, section 5.4; RFC 8198,
/// sections 5.1 and 5.3); none exactly where they prove nothing. It takes no memory.
pub fn judge<'a, Z: HeldZone<'a>>(zone: &Z, name: &Name, qtype: u16, now: u32) -> Option<Proven<'a>>
    ensures proof { result
        ≡ nsec_proof (Z.zone zone.now).held now (Z.zone zone.now).apex name.now qtype }
    ensures sound { IsAsked (Z.zone zone.now).apex name.now qtype
        → IfSome result (IsSound name.now qtype) }
{
    each_nsec_proof_is_sound();
    nsec_proof(zone, now, name, qtype)
}

fn nsec_proof<'a, Z: HeldZone<'a>>(
    zone: &Z,
    now: u32,
    name: &Name,
    qtype: u16,
) -> Option<Proven<'a>>
    ensures { result
        ≡ nsec_proof (Z.zone zone.now).held now (Z.zone zone.now).apex name.now qtype }
{
    let evidence = nsec_evidence(zone, now, name)?;
    nsec_steps(zone, now, name, qtype, evidence)
}

// By what the record that speaks of the name says of it.
fn nsec_steps<'a, Z: HeldZone<'a>>(
    zone: &Z,
    now: u32,
    name: &Name,
    qtype: u16,
    evidence: NsecEvidence<'a>,
) -> Option<Proven<'a>>
    requires { Says name.now evidence }
    ensures { result
        ≡ nsec_steps (Z.zone zone.now).held now (Z.zone zone.now).apex name.now qtype
        (record_of evidence.entry) }
{
    match evidence {
        NsecEvidence::Matches(matching) => no_data_by_match(zone, now, name, qtype, matching),
        NsecEvidence::ShowsEmpty(covering) => no_data(zone, now, Denials::nsec(covering)),
        NsecEvidence::Covers(nsec) => by_cover(zone, now, name, qtype, Covering { nsec }),
    }
}

// Where the record matches the name: it may deny it the type.
fn no_data_by_match<'a, Z: HeldZone<'a>>(
    zone: &Z,
    now: u32,
    name: &Name,
    qtype: u16,
    matching: &'a KeptNsec,
) -> Option<Proven<'a>>
    requires { IsTrue (nsec_matches matching.now name.now) }
    ensures { result
        ≡ no_data_by_match (Z.zone zone.now).held now (Z.zone zone.now).apex name.now qtype
        matching.now }
{
    if deny_type(&matching.types(), zone.apex(), name, qtype) {
        no_data(zone, now, Denials::nsec(matching))
    } else {
        None
    }
}

// Where the record covers the name: the wildcard answers, or is denied.
fn by_cover<'a, Z: HeldZone<'a>>(
    zone: &Z,
    now: u32,
    name: &Name,
    qtype: u16,
    covering: Covering<'a>,
) -> Option<Proven<'a>>
    requires inside { IsInArc name.now covering.nsec.now }
    requires covered { IsTrue (nsec_covers covering.nsec.now name.now) }
    ensures { result
        ≡ by_cover (Z.zone zone.now).held now (Z.zone zone.now).apex name.now qtype
        covering.entry.nsec.now }
{
    let source = source_of(covering, name);
    let denials = Denials::nsec(covering.nsec);
    if let Some(proof) = answer_by_wildcard(zone, now, qtype, &source, denials) {
        return Some(proof);
    }
    denial_at_source(zone, now, qtype, &source, covering)
}

// By what the record that speaks of the wildcard says of it.
fn denial_at_source<'a, Z: HeldZone<'a>>(
    zone: &Z,
    now: u32,
    qtype: u16,
    source: &Name,
    covering: Covering<'a>,
) -> Option<Proven<'a>>
    ensures { result
        ≡ denial_at_source (Z.zone zone.now).held now (Z.zone zone.now).apex qtype source.now
        covering.entry.nsec.now }
{
    let evidence = nsec_evidence(zone, now, source)?;
    denial_by(zone, now, qtype, source, covering, evidence)
}

fn denial_by<'a, Z: HeldZone<'a>>(
    zone: &Z,
    now: u32,
    qtype: u16,
    source: &Name,
    covering: Covering<'a>,
    evidence: NsecEvidence<'a>,
) -> Option<Proven<'a>>
    requires { Says source.now evidence }
    ensures { result ≡ option_or
        (no_data_by_wildcard (Z.zone zone.now).held now (Z.zone zone.now).apex qtype source.now
        covering.entry.nsec.now (record_of evidence.entry))
        (name_error (Z.zone zone.now).held now (Z.zone zone.now).apex source.now
        covering.entry.nsec.now (record_of evidence.entry)) }
{
    match evidence {
        NsecEvidence::Matches(nsec) => {
            no_data_by_wildcard(zone, now, qtype, source, covering, AtSource { nsec })
        }
        NsecEvidence::ShowsEmpty(nsec) => {
            no_data(zone, now, each_once(covering, AtSource { nsec }))
        }
        NsecEvidence::Covers(nsec) => {
            name_error(zone, now, each_once(covering, AtSource { nsec }))
        }
    }
}

// Where the record matches the wildcard: it may deny it the type.
fn no_data_by_wildcard<'a, Z: HeldZone<'a>>(
    zone: &Z,
    now: u32,
    qtype: u16,
    source: &Name,
    covering: Covering<'a>,
    at_source: AtSource<'a>,
) -> Option<Proven<'a>>
    requires { IsTrue (nsec_matches at_source.nsec.now source.now) }
    ensures { result
        ≡ no_data_by_wildcard (Z.zone zone.now).held now (Z.zone zone.now).apex qtype source.now
        covering.entry.nsec.now at_source.entry.nsec.now }
{
    if deny_type_below(&at_source.nsec.types(), qtype) {
        no_data(zone, now, each_once(covering, at_source))
    } else {
        None
    }
}

// The records of a denial of a name that doesn't exist, in the order of their roles.
fn each_once<'a>(covering: Covering<'a>, at_source: AtSource<'a>) -> Denials<'a>
    ensures { result ≡ nsecs_once (covering.entry.nsec.now ∷ at_source.entry.nsec.now ∷ []) }
{
    Denials::nsecs_once(covering.nsec, at_source.nsec)
}
