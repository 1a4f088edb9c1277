ghost use Rattle.std.specs.Prelude.{ℕ, List};
ghost use Rattle.dname.specs.Name.{Label, IsUnder};
ghost use Rattle.zone_meaning.specs.Zone.{Zone};
ghost use Rattle.zone_meaning.specs.Lookup.{Looked, LooksUp, IsSameAnswer};

/// A lookup has one answer at most, the order and repeats of its data aside.
pub fn one_answer()
    ensures { (zone : Zone) (name : List Label) (rtype : ℕ) (answer another : Looked)
        → LooksUp zone name rtype answer → LooksUp zone name rtype another
        → IsSameAnswer answer another }
{}

/// A lookup of a name at or below the apex has an answer.
pub fn some_answer()
    ensures { (zone : Zone) (name : List Label) (rtype : ℕ) → IsUnder name zone.apex
        → (answer : Looked) × LooksUp zone name rtype answer }
{}
