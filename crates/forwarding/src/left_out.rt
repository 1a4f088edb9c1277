//! Which records of an answer aren't stored.
ghost use Rattle.std.specs.Prelude.{◌≡◌, ◌||◌};
ghost use Rattle.dname.specs.NameData.{one_name_in};
ghost use Rattle.forwarding.specs.Passed.{is_above_passed, is_left_out, is_passed, is_target, leads_to_passed};

use crate::PassedNames;
use denial_records::{KeptSet, Record};
use dname::types::{CNAME_TYPE, DNAME_TYPE};
use dname::{Name, one_name_in};

/// Whether the record stands at or below a passed name, or leads there.
pub(crate) fn is_left_out(passed: &PassedNames, kept: &Record) -> bool
    ensures { result ≡ is_left_out passed.now kept.now }
{
    match kept {
        Record::Set(set) => passed.has(&set.owner()) || leads_to_passed(passed, set),
        Record::Nsec(nsec) => passed.has(&nsec.owner()),
        Record::Nsec3(nsec3) => passed.has(&nsec3.zone()),
    }
}

fn leads_to_passed(passed: &PassedNames, set: &KeptSet) -> bool
    ensures { result ≡ leads_to_passed passed.now set.now }
{
    match set.rtype() {
        CNAME_TYPE => is_alias_to_passed(passed, set),
        DNAME_TYPE => is_redirection_to_passed(passed, set),
        _ => false,
    }
}

fn is_alias_to_passed(passed: &PassedNames, set: &KeptSet) -> bool
    ensures { result ≡ is_target (is_passed passed.now) (one_name_in set.now.items) }
{
    match one_name_in(set.items()) {
        Some(target) => passed.has(&target.lent()),
        None => false,
    }
}

fn is_redirection_to_passed(passed: &PassedNames, set: &KeptSet) -> bool
    ensures { result ≡ is_target
        (λ name. is_passed passed.now name || is_above_passed passed.now name)
        (one_name_in set.now.items) }
{
    match one_name_in(set.items()) {
        Some(target) => touches_passed(passed, &target),
        None => false,
    }
}

// Whether a passed name is at, below or above the name.
fn touches_passed(passed: &PassedNames, name: &Name) -> bool
    ensures { result ≡ (is_passed passed.now name.now || is_above_passed passed.now name.now) }
{
    passed.has(&name.lent()) || passed.has_below(&name.lent())
}
