ghost use Rattle.std.specs.Prelude.{◌≡◌, ◌≤◌, ℕ, List, ◌∷◌, length};
ghost use Rattle.dname.specs.Name.{Label, IsName, asterisk, wire_of};
ghost use Rattle.zone_meaning.specs.Zone.{Zone, IsBelow, Exists};
ghost use Rattle.zone_meaning.specs.Lookup.{LooksUp, Answer, NoData, NxDomain, IsClosestEncloser};
ghost use Rattle.zone_meaning.specs.Consistent.{SetPart, IsConsistentSet};
ghost use Rattle.zone_meaning.specs.Hashed.{Nsec3Part, IsConsistentNsec3, IsClashFree};
ghost use Rattle.zone_meaning.specs.HashedDenial.{IsHashedMatchWithoutType, IsNoHashedName, IsNextCloserMissing, IsHashedNameError, IsHashedWildcardWithoutType, IsHashedWildcardAnswer};

/// An NSEC3 with the name's hash that lacks the type proves that there is no data, whatever its Opt-Out flag.
pub fn no_data_by_a_hashed_match()
    ensures { (zone : Zone) (nsec3 : Nsec3Part) (name : List Label) (rtype : ℕ)
        → IsConsistentNsec3 zone nsec3 → IsClashFree zone nsec3.hash name
        → IsHashedMatchWithoutType nsec3 name rtype → LooksUp zone name rtype NoData }
{}

/// A name whose hash is inside the arc of a true NSEC3 with Opt-Out clear doesn't exist.
pub fn no_name_by_a_hash()
    ensures { (zone : Zone) (nsec3 : Nsec3Part) (name : List Label)
        → IsConsistentNsec3 zone nsec3 → IsNoHashedName nsec3 name → Exists zone name
        → ⊥ }
{}

/// An ancestor that exists, and below which the next closer name doesn't, is the closest encloser. There is one alone, so
/// the order in which ancestors are tried means nothing, and the wildcard below it fits a name.
pub fn hashed_closest_encloser()
    ensures is_closest { (zone : Zone) (closer : Nsec3Part) (name ancestor : List Label)
        → IsConsistentNsec3 zone closer → IsNextCloserMissing closer name ancestor
        → Exists zone ancestor → IsClosestEncloser zone name ancestor }
    ensures one { (zone : Zone) (closer another : Nsec3Part) (name x y : List Label)
        → IsConsistentNsec3 zone closer → IsConsistentNsec3 zone another
        → IsNextCloserMissing closer name x → IsNextCloserMissing another name y
        → Exists zone x → Exists zone y → x ≡ y }
    ensures above { (closer : Nsec3Part) (name ancestor : List Label)
        → IsNextCloserMissing closer name ancestor → IsBelow name ancestor }
    ensures wildcard_fits { (closer : Nsec3Part) (name ancestor : List Label)
        → IsName name → IsNextCloserMissing closer name ancestor
        → length (wire_of (asterisk ∷ ancestor)) ≤ 255 }
{}

/// A name whose next closer name doesn't exist, below a name that exists and has no wildcard, is a name error.
pub fn hashed_name_error()
    ensures { (zone : Zone) (closer matching source : Nsec3Part) (name encloser : List Label)
        (rtype : ℕ)
        → IsConsistentNsec3 zone closer → IsConsistentNsec3 zone matching
        → IsConsistentNsec3 zone source → IsClashFree zone matching.hash name
        → IsHashedNameError closer matching source name encloser
        → LooksUp zone name rtype NxDomain }
{}

/// A name whose next closer name doesn't exist has the answers of the wildcard below the name above that.
pub fn hashed_wildcard()
    ensures answer { (zone : Zone) (closer : Nsec3Part) (set : SetPart)
        (name encloser : List Label) (rtype : ℕ)
        → IsConsistentNsec3 zone closer → IsConsistentSet zone set
        → IsHashedWildcardAnswer closer set name encloser rtype
        → LooksUp zone name rtype (Answer set.items) }
    ensures no_data { (zone : Zone) (closer source : Nsec3Part) (name encloser : List Label)
        (rtype : ℕ)
        → IsConsistentNsec3 zone closer → IsConsistentNsec3 zone source
        → IsClashFree zone source.hash name
        → IsHashedWildcardWithoutType closer source name encloser rtype
        → LooksUp zone name rtype NoData }
{}
