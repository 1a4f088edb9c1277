//! What is wrong with the records that a reply uses.
ghost use Rattle.std.specs.Prelude.{◌≡◌, ◌<◌, ◌↔◌, true, List, None, get_or, IsTrue, IfOk, IfSome, is_some};
ghost use Rattle.std.specs.List.{All};
ghost use Rattle.std.specs.Option.{option_map, option_copied};
ghost use Rattle.dname.specs.Name.{Label};
ghost use Rattle.denial_records.specs.Proof.{used_in, denied_by};
ghost use Rattle.denial_records.specs.declared.record.Record.TheVariants.{Set};
ghost use Rattle.cache_meaning.specs.Held.{parameters_of};
ghost use Rattle.zone_meaning.specs.Zone.{Zone};
ghost use Rattle.soundness.specs.True.{IsTrueOf, IsClashFreeFor};
ghost use Rattle.reply_core.specs.Shown.{shown_by};
ghost use Rattle.run_audit.specs.Faults.{IsFaultOf, IsFirstOf, parts_of};

use denial_records::{Denial, KeptNsec3, KeptSet, Verdict};
use dname::{Name, OutOfMemory};
use zone_index::ZoneSearch;

/// What is wrong with the records that a reply uses.
#[derive(Clone, Copy, Debug, PartialEq, Eq)]
pub(crate) enum Fault {
    /// The one at this place among them, from 0, is the first that isn't true of the zone.
    Record { used: u8 },
    /// All are true, and a name of the zone is taken by its hash for another that the question turns on.
    Clash,
}

/// How many parts a verdict has: the set that answers, the SOA, and three records of a denial.
const PARTS: usize = 5;

/// What is wrong with the records of a verdict for the name, by the zone that is searched.
pub(crate) fn fault_of(
    search: &mut ZoneSearch<'_>,
    verdict: &Verdict<'_>,
    name: &Name,
) -> Result<Option<Fault>, OutOfMemory>
    ensures fault { IfOk result (IsFaultOf search.old name.now (shown_by verdict.now)) }
    ensures same { search.new ≡ search.old }
{
    if let Some(used) = first_false(search, verdict)? {
        return Ok(Some(Fault::Record { used }));
    }
    if are_free(search, verdict, name)? {
        Ok(None)
    } else {
        Ok(Some(Fault::Clash))
    }
}

// The place of the first used record that isn't true of the zone.
fn first_false(
    search: &mut ZoneSearch<'_>,
    verdict: &Verdict<'_>,
) -> Result<Option<u8>, OutOfMemory>
    ensures first { IfOk result (IsFirstOf search.old (shown_by verdict.now)) }
    ensures same { search.new ≡ search.old }
{
    let mut used: u8 = 0;
    for part in 0..PARTS {
        if !is_part_true(search, verdict, part)? {
            return Ok(Some(used));
        }
        if has_part(verdict, part) {
            used += 1;
        }
    }
    Ok(None)
}

fn has_part(verdict: &Verdict<'_>, part: usize) -> bool
    requires { part < 5 }
    ensures { result ≡ is_some (get_or (parts_of verdict.now) part None) }
{
    match part {
        0 => verdict.answer_set.is_some(),
        1 => verdict.soa.is_some(),
        2 => verdict.first.is_some(),
        3 => verdict.second.is_some(),
        _ => verdict.third.is_some(),
    }
}

// Whether the part is true of the zone, if it is there.
fn is_part_true(
    search: &mut ZoneSearch<'_>,
    verdict: &Verdict<'_>,
    part: usize,
) -> Result<bool, OutOfMemory>
    requires { part < 5 }
    ensures is { IfOk result (λ is. IsTrue is
        ↔ IfSome (get_or (parts_of verdict.now) part None) (IsTrueOf search.old)) }
    ensures same { search.new ≡ search.old }
{
    match part {
        0 => is_set_true(search, verdict.answer_set),
        1 => is_set_true(search, verdict.soa),
        2 => is_denial_true(search, &verdict.first),
        3 => is_denial_true(search, &verdict.second),
        _ => is_denial_true(search, &verdict.third),
    }
}

fn is_set_true(search: &ZoneSearch<'_>, set: Option<&KeptSet>) -> Result<bool, OutOfMemory>
    ensures { IfOk result (λ is. IsTrue is
        ↔ IfSome (option_map Set (option_copied set.entry)) (IsTrueOf search.now)) }
{
    match set {
        Some(set) => search.is_true_set(set),
        None => Ok(true),
    }
}

fn is_denial_true(
    search: &mut ZoneSearch<'_>,
    denial: &Option<Denial<'_>>,
) -> Result<bool, OutOfMemory>
    ensures is { IfOk result (λ is. IsTrue is
        ↔ IfSome (option_map denied_by denial.now) (IsTrueOf search.old)) }
    ensures same { search.new ≡ search.old }
{
    match denial {
        Some(denial) => search.is_true_denial(denial),
        None => Ok(true),
    }
}

// Whether by no hash of the denial's records a name of the zone is taken for another that the question turns on.
fn are_free(
    search: &mut ZoneSearch<'_>,
    verdict: &Verdict<'_>,
    name: &Name,
) -> Result<bool, OutOfMemory>
    ensures free { IfOk result (λ free. IsTrue free
        ↔ All (IsClashFreeFor search.old name.now) (used_in (shown_by verdict.now))) }
    ensures same { search.new ≡ search.old }
{
    if !is_free(search, &verdict.first, name)? {
        return Ok(false);
    }
    if !is_free_too(search, &verdict.first, &verdict.second, name)? {
        return Ok(false);
    }
    is_free_too(search, &verdict.second, &verdict.third, name)
}

fn is_free(
    search: &mut ZoneSearch<'_>,
    denial: &Option<Denial<'_>>,
    name: &Name,
) -> Result<bool, OutOfMemory>
    ensures free { IfOk result (λ free. IsTrue free
        ↔ IfSome (option_map denied_by denial.now) (IsClashFreeFor search.old name.now)) }
    ensures same { search.new ≡ search.old }
{
    match denial {
        Some(denial) => search.is_clash_free(denial, name),
        None => Ok(true),
    }
}

// The same, where it is so of the record before. Names that are hashed in one way are hashed once.
fn is_free_too(
    search: &mut ZoneSearch<'_>,
    before: &Option<Denial<'_>>,
    denial: &Option<Denial<'_>>,
    name: &Name,
) -> Result<bool, OutOfMemory>
    requires { IfSome (option_map denied_by before.now) (IsClashFreeFor search.old name.now) }
    ensures free { IfOk result (λ free. IsTrue free
        ↔ IfSome (option_map denied_by denial.now) (IsClashFreeFor search.old name.now)) }
    ensures same { search.new ≡ search.old }
{
    if are_hashed_alike(before, denial) {
        return Ok(true);
    }
    is_free(search, denial, name)
}

// Whether both are NSEC3 records by which names are hashed in one way.
fn are_hashed_alike(one: &Option<Denial<'_>>, other: &Option<Denial<'_>>) -> bool
    ensures { result ≡ true → (zone : Zone) (name : List Label)
        → IfSome (option_map denied_by one.now) (IsClashFreeFor zone name)
        → IfSome (option_map denied_by other.now) (IsClashFreeFor zone name) }
{
    let Some(Denial::Nsec3(one)) = one else {
        return false;
    };
    let Some(Denial::Nsec3(other)) = other else {
        return false;
    };
    have_one_hash(one, other)
}

fn have_one_hash(one: &KeptNsec3, other: &KeptNsec3) -> bool
    ensures { IsTrue result ↔ (parameters_of one.now ≡ parameters_of other.now) }
{
    let same = one.salt() == other.salt();
    same && one.iterations() == other.iterations()
}
