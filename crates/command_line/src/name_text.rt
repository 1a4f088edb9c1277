//! Domain names in text.
ghost use Rattle.std.specs.Prelude.{◌≡◌, ◌↔◌, ◌<◌, ◌==◌, ℕ, List, length, IfNone, IfSome, IsTrue};
ghost use Rattle.std.specs.List.{position_or_len, slice_split};
ghost use Rattle.dname.specs.Name.{Label};
ghost use Rattle.command_line.specs.Words.{AreLabelsOf, IsLabelText, IsNameText, is_label_octet, without_dot};

use dname::{Name, octets_between, octets_from};

// The most octets of a name's text without a dot at its end.
const MAX_OCTETS: usize = 253;

/// The name that the text writes, if it writes one below the root.
pub(crate) fn name_in(text: &str) -> Option<Name>
    ensures read { IfSome result (IsNameText text.now) }
    ensures none { IfNone result ((name : List Label) → IsNameText text.now name → ⊥) }
{
    let octets = without_dot(text.as_bytes());
    if octets.len() > MAX_OCTETS {
        return None;
    }
    name_of(octets)
}

fn without_dot(octets: &[u8]) -> &[u8]
    ensures { result.now ≡ without_dot octets.now }
{
    let Some((last, front)) = octets.split_last() else {
        return octets;
    };
    if *last == b'.' { front } else { octets }
}

// The name whose labels stand between the dots.
fn name_of(octets: &[u8]) -> Option<Name>
    ensures read { IfSome result
        (AreLabelsOf (slice_split (λ octet. octet == 46) octets.now)) }
    ensures none { IfNone result ((name : List Label)
        → AreLabelsOf (slice_split (λ octet. octet == 46) octets.now) name → ⊥) }
{
    let end = first_dot(octets);
    let label = octets_between(octets, 0, end);
    if !is_label(label) {
        return None;
    }
    if end == octets.len() {
        return Name::root().child(label);
    }
    let above = name_of(octets_from(octets, end + 1))?;
    above.child(label)
}

// Where the first dot stands, or else the end.
fn first_dot(octets: &[u8]) -> usize
    ensures { result ≡ position_or_len (λ octet. octet == 46) octets.now }
{
    match octets.iter().position(|octet| *octet == b'.') {
        Some(place) => place,
        None => octets.len(),
    }
}

fn is_label(octets: &[u8]) -> bool
    ensures { IsTrue result ↔ IsLabelText octets.now }
{
    if octets.is_empty() || octets.len() > 63 {
        return false;
    }
    octets.iter().all(|octet| is_label_octet(*octet))
}

fn is_label_octet(octet: u8) -> bool
    ensures { result ≡ is_label_octet octet }
{
    octet.is_ascii_alphanumeric() || octet == b'-' || octet == b'_'
}
