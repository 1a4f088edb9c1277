ghost use Rattle.std.specs.Prelude.{◌≡◌, ◌≢◌, ◌≤◌, ◌↔◌, ◌∷◌, length, IsSome, IfSome};
ghost use Rattle.dname.specs.Name.{wire_of, IsUnder, asterisk};
ghost use Rattle.encloser.specs.Encloser.{IsCommonEncloser, encloser_of, IsNextCloser, next_closer_of};

use dname::{LentName, Name};

/// The longest name that `name` is under, and `owner` or `next` too: the longer of two common ancestors. It is `name`
/// itself where one of the two is under it. Where the two are the ends of an NSEC that covers `name`, and `name` doesn't
/// exist, it is the closest encloser (RFC 4592, section 3.3.1).
pub fn common_encloser(name: &Name, owner: &LentName<'_>, next: &LentName<'_>) -> Name
    ensures longest { IsCommonEncloser name.now owner.now next.now result }
    ensures value { result ≡ encloser_of name.now owner.now next.now }
{
    let lent = name.lent();
    longer(lent.common(owner), lent.common(next)).name()
}

/// The name of one label more than `encloser` that `name` is at or below (RFC 5155, section 1.3).
pub fn next_closer(name: &Name, encloser: &Name) -> Name
    requires under { IsUnder name.now encloser.now }
    requires apart { name.now ≢ encloser.now }
    ensures one_more { IsNextCloser name.now encloser.now result }
    ensures value { result ≡ next_closer_of name.now encloser.now }
{
    name.last(encloser.labels() + 1)
}

/// The wildcard below the closest encloser, which is the source of synthesis if it exists (RFC 4592, section 3.3.1);
/// none where the encloser's wire form has more than 253 octets.
pub fn wildcard_of(encloser: &Name) -> Option<Name>
    ensures room { IsSome result ↔ (length (wire_of encloser.now) ≤ 253) }
    ensures value { IfSome result (λ wildcard. wildcard ≡ asterisk ∷ encloser.now) }
{
    encloser.star()
}

// Of two names above one, the longer.
fn longer<'a>(first: LentName<'a>, second: LentName<'a>) -> LentName<'a>
    ensures first { IsUnder first.entry second.entry → result ≡ first.entry }
    ensures second { (IsUnder first.entry second.entry → ⊥) → result ≡ second.entry }
{
    if first.is_under(&second) {
        first
    } else {
        second
    }
}
