//! Where a link leads.
ghost use Rattle.std.specs.Prelude.{◌≡◌, unwrap_or};
ghost use Rattle.reply_core.specs.Shown.{shown_by};
ghost use Rattle.resolver.specs.Walk.{alias_target};
ghost use Rattle.resolver.specs.Lent.{made_by, next_by};

use crate::Way;
use crate::target::made_by;
use denial_records::{KeptSet, Kind, Verdict};
use dname::{Name, one_name_in};

/// The name to which a link leads from a name.
pub(crate) fn next_name(name: &Name, way: &Way<'_>) -> Name
    ensures { result ≡ next_by name.now way.now }
{
    match way {
        Way::Alias { verdict } => name_or(alias_target(verdict), name),
        Way::Dname { set } => made_name(name, set),
    }
}

/// The name that a DNAME set makes of a name, which is the name itself where it makes none.
pub(crate) fn made_name(name: &Name, set: &KeptSet) -> Name
    ensures { result ≡ unwrap_or (made_by name.now set.now) name.now }
{
    name_or(made_by(name, set), name)
}

/// Where an answer with a CNAME leads.
pub(crate) fn alias_target(verdict: &Verdict<'_>) -> Option<Name>
    ensures { result
        ≡ alias_target (shown_by verdict.now).kind (shown_by verdict.now).answer }
{
    match verdict.kind {
        Kind::Answer => one_name_in(verdict.answer_set?.items()),
        Kind::NoData | Kind::NxDomain => None,
    }
}

fn name_or(found: Option<Name>, other: &Name) -> Name
    ensures { result ≡ unwrap_or found other.now }
{
    match found {
        Some(name) => name,
        None => other.copy(),
    }
}
