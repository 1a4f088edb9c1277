ghost use Rattle.std.specs.Prelude.{◌≡◌, ◌≤◌};
ghost use Rattle.resolver.specs.Walk.{links_of, takes_aliases, takes_redirections};

/// What a walk may go by, and how often.
#[derive(Clone, Copy, Debug, PartialEq, Eq)]
pub enum Rule {
    /// By the CNAMEs of names alone, eight times at most.
    Aliases,
    /// By a DNAME alone, once.
    Redirection,
    /// By either, eight times at most.
    Both,
}

impl Rule {
    pub(crate) fn links(self) -> usize
        ensures value { result ≡ links_of self }
        ensures few { result ≤ 8 }
    {
        match self {
            Rule::Aliases => 8,
            Rule::Redirection => 1,
            Rule::Both => 8,
        }
    }

    pub(crate) fn takes_aliases(self) -> bool
        ensures { result ≡ takes_aliases self }
    {
        match self {
            Rule::Aliases => true,
            Rule::Redirection => false,
            Rule::Both => true,
        }
    }

    pub(crate) fn takes_redirections(self) -> bool
        ensures { result ≡ takes_redirections self }
    {
        match self {
            Rule::Aliases => false,
            Rule::Redirection => true,
            Rule::Both => true,
        }
    }
}
