ghost use Rattle.std.specs.Prelude.{ℕ, List};
ghost use Rattle.dname.specs.Name.{Label};
ghost use Rattle.zone_meaning.specs.Zone.{Zone, IsSameZone, IsZone};
ghost use Rattle.zone_meaning.specs.Lookup.{Looked, LooksUp};
ghost use Rattle.zone_meaning.specs.Consistent.{SetPart, NsecPart, IsConsistentSet, IsConsistentNsec};
ghost use Rattle.zone_meaning.specs.Hashed.{Nsec3Part, IsConsistentNsec3, IsClashFree};

/// The order in which a zone's records are listed means nothing, nor how often each one is.
pub fn order_means_nothing()
    ensures zone { (zone other : Zone) → IsSameZone zone other → IsZone zone → IsZone other }
    ensures lookup { (zone other : Zone) → IsSameZone zone other
        → (name : List Label) (rtype : ℕ) (answer : Looked) → LooksUp zone name rtype answer
        → LooksUp other name rtype answer }
    ensures set { (zone other : Zone) → IsSameZone zone other → (set : SetPart)
        → IsConsistentSet zone set → IsConsistentSet other set }
    ensures nsec { (zone other : Zone) → IsSameZone zone other → (nsec : NsecPart)
        → IsConsistentNsec zone nsec → IsConsistentNsec other nsec }
    ensures nsec3 { (zone other : Zone) → IsSameZone zone other → (nsec3 : Nsec3Part)
        → IsConsistentNsec3 zone nsec3 → IsConsistentNsec3 other nsec3 }
    ensures clashes { (zone other : Zone) → IsSameZone zone other
        → (hash : List Label → List ℕ) (name : List Label)
        → IsClashFree zone hash name → IsClashFree other hash name }
{}
