ghost use Rattle.std.specs.Prelude.{◌≡◌, ◌≢◌, ◌≤◌, ◌↔◌, List, ◌∷◌, ◌++◌, length};
ghost use Rattle.std.specs.List.{Contains};
ghost use Rattle.dname.specs.Name.{Label, wire_of, IsName, IsUnder, asterisk};
ghost use Rattle.encloser.specs.Encloser.{IsCommonEncloser, encloser_of, IsNextCloser, next_closer_of, ancestors};

/// Three names have one common encloser, and `encloser_of` computes it. It is above the name where neither of the two
/// others is under the name.
pub fn one_common_encloser()
    ensures value { (name owner next : List Label)
        → IsCommonEncloser name owner next (encloser_of name owner next) }
    ensures one { (name owner next encloser other : List Label)
        → IsCommonEncloser name owner next encloser → IsCommonEncloser name owner next other
        → encloser ≡ other }
    ensures apart { (name owner next encloser : List Label)
        → IsCommonEncloser name owner next encloser
        → (IsUnder owner name → ⊥) → (IsUnder next name → ⊥) → name ≢ encloser }
{}

/// A name has one next closer name for each encloser above it, and `next_closer_of` computes it.
pub fn one_next_closer()
    ensures value { (name encloser : List Label)
        → IsUnder name encloser → name ≢ encloser
        → IsNextCloser name encloser (next_closer_of name encloser) }
    ensures one { (name encloser closer other : List Label)
        → IsNextCloser name encloser closer → IsNextCloser name encloser other → closer
        ≡ other }
{}

/// An encloser above a name leaves room for its wildcard, and the wildcard is a name.
pub fn wildcard_fits()
    ensures room { (name encloser : List Label)
        → IsName name → IsUnder name encloser → name ≢ encloser
        → length (wire_of encloser) ≤ 253 }
    ensures is_name { (name encloser : List Label)
        → IsName name → IsUnder name encloser → name ≢ encloser
        → IsName (asterisk ∷ encloser) }
{}

/// The ancestors are the names above the name that are at or below the apex, and no others. The next closer name of each
/// is the one before it, and of the first the name itself; behind the first stand its own ancestors.
pub fn ancestors_in_turn()
    ensures all { (name apex other : List Label)
        → Contains (ancestors name apex) other
        ↔ (IsUnder name other × (name ≢ other) × IsUnder other apex) }
    ensures in_turn { (name apex closer encloser : List Label) (front rest : List (List Label))
        → name ∷ ancestors name apex ≡ front ++ closer ∷ encloser ∷ rest
        → IsNextCloser name encloser closer }
    ensures first { (name apex encloser : List Label) (rest : List (List Label))
        → ancestors name apex ≡ encloser ∷ rest
        → IsNextCloser name encloser name × (rest ≡ ancestors encloser apex) }
{}
