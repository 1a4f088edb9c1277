ghost use Rattle.std.specs.Prelude.{◌≡◌};
ghost use Rattle.run_audit.specs.Clauses.{clause_number};

/// A clause of what fits, in the order in which they are tried.
#[derive(Clone, Copy, Debug, PartialEq, Eq)]
pub enum Clause {
    /// There is one output frame for each input frame, of the same worker, which is one of 32.
    Frames,
    /// The versions of the placed batches are the numbers from 1 on, each once.
    Versions,
    /// Each output frame is that of its input frame, at its version.
    Outcomes,
    /// Each worker's calls are in its order.
    Order,
}

impl Clause {
    /// Its number, from 1 on.
    pub fn number(self) -> u8
        ensures { result ≡ clause_number self }
    {
        match self {
            Clause::Frames => 1,
            Clause::Versions => 2,
            Clause::Outcomes => 3,
            Clause::Order => 4,
        }
    }
}
