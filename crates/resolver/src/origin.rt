//! From what a reply is made.
ghost use Rattle.std.specs.Prelude.{◌≡◌, List};
ghost use Rattle.std.specs.List.{list_any};
ghost use Rattle.dname.specs.Name.{Label};
ghost use Rattle.denial_records.specs.declared.verdict.Kind.TheVariants.{Answer};
ghost use Rattle.reply_core.specs.Shown.{shown_by};
ghost use Rattle.resolver.specs.Origin.{is_any, has_denials, proof_origin, end_origin, way_origin, origin_of, is_synthesized};
ghost use Rattle.resolver.specs.WalkReply.{end_denials};
ghost use Rattle.resolver.specs.Lent.{way_by, links_by, end_by, walk_by, denials_in};
ghost use Rattle.resolver.specs.declared.walk.Way.{Way as LentWay};

use crate::{End, Walk, Way};
use denial_records::{Kind, Verdict};

/// From what a reply from held records is made.
#[derive(Clone, Copy, Debug, PartialEq, Eq)]
pub enum Origin {
    /// A set that is held for the name and type (RFC 1034, section 5.3.3).
    Set,
    /// A denial of the type (RFC 8198, sections 5.1 and 5.2).
    NoData,
    /// A denial of the name (RFC 8198, sections 5.1 and 5.2).
    NameError,
    /// A wildcard's set, and the denial of what would go before it (RFC 8198, section 5.3).
    Wildcard,
    /// The name's alias leads on (RFC 1034, section 3.6.2). It is synthesized where a denial or a wildcard has part in it.
    Alias { synthesized: bool },
    /// A DNAME set above the name leads on, or makes the name too long (RFC 6672, sections 2.2 and 3.2). It is synthesized where a
    /// denial or a wildcard has part in it.
    Redirection { synthesized: bool },
}

impl Origin {
    /// Whether a denial or a wildcard has part in the reply (RFC 8198, section 5).
    pub fn is_synthesized(self) -> bool
        ensures { result ≡ is_synthesized self }
    {
        match self {
            Origin::Set => false,
            Origin::NoData => true,
            Origin::NameError => true,
            Origin::Wildcard => true,
            Origin::Alias { synthesized } => synthesized,
            Origin::Redirection { synthesized } => synthesized,
        }
    }
}

/// From what the reply of a walk is made.
pub(crate) fn walk_origin(walk: &Walk<'_>) -> Origin
    ensures { result ≡ origin_of (walk_by walk.now) }
{
    let links = walk.links.as_slice();
    match links.first() {
        Some(way) => way_origin(way, has_denials(links, &walk.end)),
        None => end_origin(&walk.end),
    }
}

/// From what the reply of a verdict is made.
pub(crate) fn proof_origin(verdict: &Verdict<'_>) -> Origin
    ensures { result ≡ proof_origin (shown_by verdict.now).kind (shown_by verdict.now).denials }
{
    match verdict.kind {
        Kind::Answer => answer_origin(verdict),
        Kind::NoData => Origin::NoData,
        Kind::NxDomain => Origin::NameError,
    }
}

fn answer_origin(verdict: &Verdict<'_>) -> Origin
    ensures { result ≡ proof_origin Answer (shown_by verdict.now).denials }
{
    if uses_denials(verdict) {
        Origin::Wildcard
    } else {
        Origin::Set
    }
}

fn way_origin(way: &Way<'_>, synthesized: bool) -> Origin
    ensures { (next : List Label) → result ≡ way_origin (way_by way.now next) synthesized }
{
    match way {
        Way::Alias { verdict: _ } => Origin::Alias { synthesized },
        Way::Dname { set: _ } => Origin::Redirection { synthesized },
    }
}

fn end_origin(end: &End<'_>) -> Origin
    ensures { (name : List Label) → result ≡ end_origin (end_by name end.now) }
{
    match end {
        End::Proved { verdict } => proof_origin(verdict),
        End::Made { set: _ } => Origin::Redirection { synthesized: false },
        End::TooLong { set: _ } => Origin::Redirection { synthesized: false },
    }
}

// Whether a denial has part in a walk of these links and this end.
fn has_denials(links: &[Way<'_>], end: &End<'_>) -> bool
    ensures { (name last : List Label)
        → result ≡ has_denials (links_by name links.now) (end_by last end.now) }
{
    has_denials_before(links) || has_denials_at(end)
}

fn has_denials_before(links: &[Way<'_>]) -> bool
    ensures { result ≡ list_any (λ (way : LentWay). is_any (denials_in way)) links.now }
{
    for way in links {
        if goes_by_denials(way) {
            return true;
        }
    }
    false
}

fn goes_by_denials(way: &Way<'_>) -> bool
    ensures { result ≡ is_any (denials_in way.now) }
{
    match way {
        Way::Alias { verdict } => uses_denials(verdict),
        Way::Dname { set: _ } => false,
    }
}

fn has_denials_at(end: &End<'_>) -> bool
    ensures { (name : List Label) → result ≡ is_any (end_denials (end_by name end.now)) }
{
    match end {
        End::Proved { verdict } => uses_denials(verdict),
        End::Made { set: _ } => false,
        End::TooLong { set: _ } => false,
    }
}

/// Whether a denial has part in what a verdict proves.
pub(crate) fn uses_denials(verdict: &Verdict<'_>) -> bool
    ensures { result ≡ is_any (shown_by verdict.now).denials }
{
    verdict.first.is_some() || (verdict.second.is_some() || verdict.third.is_some())
}
