ghost use Rattle.std.specs.Prelude.{◌≤◌, ◌≡◌, ℕ, List, ◌∷◌, length};
ghost use Rattle.dname.specs.Arc.{IsInside};
ghost use Rattle.dname.specs.Name.{Label, IsName, wire_of, IsUnder, IsCommon, asterisk, canonical_cmp};
ghost use Rattle.dname.specs.declared.types.TheConstants.{CNAME_TYPE};
ghost use Rattle.zone_meaning.specs.Zone.{Zone, IsZone, IsBelow, IsBar, IsCut, IsLive, IsProofType, HasType, Exists};
ghost use Rattle.zone_meaning.specs.Lookup.{LooksUp, Answer, NoData, NxDomain, IsClosestEncloser};
ghost use Rattle.zone_meaning.specs.Consistent.{NsecPart, SetPart, IsConsistentNsec, IsConsistentSet};
ghost use Rattle.zone_meaning.specs.Denial.{IsMatchWithoutType, SpeaksBelow, IsNoName, IsEmptyName, IsEncloserBy, IsMissingName, IsNameError, IsWildcardWithoutType, IsEmptyWildcard, IsWildcardAnswer};

/// An NSEC of the name that lacks the type proves that there is no data, in every zone that it is true of.
pub fn no_data_by_a_match()
    ensures { (zone : Zone) (nsec : NsecPart) (name : List Label) (rtype : ℕ)
        → IsZone zone → IsConsistentNsec zone nsec → IsMatchWithoutType nsec name rtype
        → LooksUp zone name rtype NoData }
{}

/// Above a name inside the arc of a true NSEC there is no bar, unless the owner is one and above it.
pub fn no_bar_above()
    ensures { (zone : Zone) (nsec : NsecPart) (name : List Label) → IsConsistentNsec zone nsec
        → IsInside canonical_cmp nsec.owner nsec.next name → SpeaksBelow nsec name
        → (bar : List Label) → IsBar zone bar → IsBelow name bar → ⊥ }
{}

/// A name inside the arc of a true NSEC exists where the next owner is below it, and then has no records, and not else.
pub fn existence_inside()
    ensures no_name { (zone : Zone) (nsec : NsecPart) (name : List Label)
        → IsConsistentNsec zone nsec → IsNoName nsec name → Exists zone name → ⊥ }
    ensures empty_name { (zone : Zone) (nsec : NsecPart) (name : List Label) (rtype : ℕ)
        → IsConsistentNsec zone nsec → IsUnder name zone.apex → IsEmptyName nsec name
        → LooksUp zone name rtype NoData }
{}

/// The closest encloser of a name that doesn't exist is the longer of the common ancestors with the owner and with the
/// next owner of the NSEC, and the wildcard below it fits a name.
pub fn closest_encloser()
    ensures is_closest { (zone : Zone) (nsec : NsecPart) (name encloser : List Label)
        → IsZone zone → IsConsistentNsec zone nsec → IsMissingName nsec name encloser
        → IsClosestEncloser zone name encloser }
    ensures with_owner { (nsec : NsecPart) (name first second : List Label)
        → IsCommon name nsec.owner first → IsCommon name nsec.next second
        → length second ≤ length first → IsEncloserBy nsec name first }
    ensures with_next { (nsec : NsecPart) (name first second : List Label)
        → IsCommon name nsec.owner first → IsCommon name nsec.next second
        → length first ≤ length second → IsEncloserBy nsec name second }
    ensures one { (nsec : NsecPart) (name x y : List Label)
        → IsEncloserBy nsec name x → IsEncloserBy nsec name y → x ≡ y }
    ensures wildcard_fits { (nsec : NsecPart) (name encloser : List Label)
        → IsName name → IsNoName nsec name → IsEncloserBy nsec name encloser
        → length (wire_of (asterisk ∷ encloser)) ≤ 255 }
{}

/// A name that doesn't exist, and has no wildcard, is a name error.
pub fn name_error()
    ensures { (zone : Zone) (nsec source : NsecPart) (name encloser : List Label) (rtype : ℕ)
        → IsZone zone → IsConsistentNsec zone nsec → IsConsistentNsec zone source
        → IsNameError nsec source name encloser → LooksUp zone name rtype NxDomain }
{}

/// Where the wildcard lacks the type, or is empty, there is no data.
pub fn no_data_by_a_wildcard()
    ensures without_type { (zone : Zone) (nsec source : NsecPart) (name encloser : List Label)
        (rtype : ℕ)
        → IsZone zone → IsConsistentNsec zone nsec → IsConsistentNsec zone source
        → IsWildcardWithoutType nsec source name encloser rtype
        → LooksUp zone name rtype NoData }
    ensures empty { (zone : Zone) (nsec source : NsecPart) (name encloser : List Label)
        (rtype : ℕ)
        → IsZone zone → IsConsistentNsec zone nsec → IsConsistentNsec zone source
        → IsEmptyWildcard nsec source name encloser → LooksUp zone name rtype NoData }
{}

/// A true set answers with just its data, at its owner, and where it is the wildcard's at a name that doesn't exist.
pub fn answer_by_a_set()
    ensures at_its_owner { (zone : Zone) (set : SetPart) → IsZone zone
        → IsConsistentSet zone set
        → LooksUp zone set.owner set.rtype (Answer set.items) }
    ensures by_a_wildcard { (zone : Zone) (nsec : NsecPart) (set : SetPart)
        (name encloser : List Label) (rtype : ℕ)
        → IsZone zone → IsConsistentNsec zone nsec → IsConsistentSet zone set
        → IsWildcardAnswer nsec set name encloser rtype
        → LooksUp zone name rtype (Answer set.items) }
{}

/// Of a type that proves others a live name has no data, since a zone here has none: such a query is no matter of a
/// lookup.
pub fn no_data_of_a_proof_type()
    ensures { (zone : Zone) (name : List Label) (rtype : ℕ) → IsZone zone → IsLive zone name
        → (IsCut zone name → ⊥) → (HasType zone name CNAME_TYPE → ⊥)
        → IsProofType rtype
        → LooksUp zone name rtype NoData }
{}
