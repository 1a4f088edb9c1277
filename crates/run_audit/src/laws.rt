ghost use Rattle.run_audit.specs.Clauses.{ClausesSayFit};
ghost use Rattle.run_audit.specs.Upheld.{YesIsUpheld};

/// A run fits where, and only where, it breaks no clause.
pub fn clauses_say_fit()
    ensures { ClausesSayFit }
{}

/// Where an audit finds yes, the zone looks each reply's question up to what the reply says, also where the reply was cut. So
/// there is no finding that a lookup differs.
pub fn yes_is_upheld()
    ensures { YesIsUpheld }
{}
