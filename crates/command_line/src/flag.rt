ghost use Rattle.std.specs.Prelude.{◌≡◌, IfNone, IfSome};
ghost use Rattle.command_line.specs.Words.{flag_name};
ghost use Rattle.command_line.specs.declared.flag.Flag.{Flag};

/// An option of `forward`.
#[derive(Clone, Copy, Debug, PartialEq, Eq)]
pub enum Flag {
    /// An address and a port at which to listen.
    Listen,
    /// The address and the port that is asked.
    Upstream,
    /// How many workers there are.
    Workers,
    /// A name that is passed.
    Pass,
    /// The file that tells the status.
    Status,
}

impl Flag {
    /// The option as a word.
    pub fn name(self) -> &'static str
        ensures { result.now ≡ flag_name self }
    {
        match self {
            Flag::Listen => "--listen",
            Flag::Upstream => "--upstream",
            Flag::Workers => "--workers",
            Flag::Pass => "--pass",
            Flag::Status => "--status",
        }
    }

    /// The option that the word is, if it is one.
    pub(crate) fn named(word: &str) -> Option<Flag>
        ensures read { IfSome result (λ flag. word.now ≡ flag_name flag) }
        ensures none { IfNone result ((flag : Flag) → word.now ≡ flag_name flag → ⊥) }
    {
        if word == "--listen" {
            return Some(Flag::Listen);
        }
        if word == "--upstream" {
            return Some(Flag::Upstream);
        }
        if word == "--workers" {
            return Some(Flag::Workers);
        }
        if word == "--pass" {
            return Some(Flag::Pass);
        }
        if word == "--status" {
            return Some(Flag::Status);
        }
        None
    }
}
