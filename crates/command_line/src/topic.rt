ghost use Rattle.std.specs.Prelude.{◌≡◌, IfNone, IfSome};
ghost use Rattle.command_line.specs.Words.{topic_name};
ghost use Rattle.command_line.specs.declared.topic.Topic.{Topic};

/// A command that one may ask about.
#[derive(Clone, Copy, Debug, PartialEq, Eq)]
pub enum Topic {
    Replay,
    Selfrun,
    Serve,
    Chase,
    Redirect,
    Follow,
    Tcp,
    Audit,
    Forward,
}

impl Topic {
    /// The command's name as a word.
    pub fn name(self) -> &'static str
        ensures { result.now ≡ topic_name self }
    {
        match self {
            Topic::Replay => "replay",
            Topic::Selfrun => "selfrun",
            Topic::Serve => "serve",
            Topic::Chase => "chase",
            Topic::Redirect => "redirect",
            Topic::Follow => "follow",
            Topic::Tcp => "tcp",
            Topic::Audit => "audit",
            Topic::Forward => "forward",
        }
    }

    /// The command that the word names, if it names one.
    pub(crate) fn named(word: &str) -> Option<Topic>
        ensures read { IfSome result (λ topic. word.now ≡ topic_name topic) }
        ensures none { IfNone result ((topic : Topic) → word.now ≡ topic_name topic → ⊥) }
    {
        if word == "replay" {
            return Some(Topic::Replay);
        }
        if word == "selfrun" {
            return Some(Topic::Selfrun);
        }
        if word == "serve" {
            return Some(Topic::Serve);
        }
        if word == "chase" {
            return Some(Topic::Chase);
        }
        if word == "redirect" {
            return Some(Topic::Redirect);
        }
        if word == "follow" {
            return Some(Topic::Follow);
        }
        if word == "tcp" {
            return Some(Topic::Tcp);
        }
        if word == "audit" {
            return Some(Topic::Audit);
        }
        if word == "forward" {
            return Some(Topic::Forward);
        }
        None
    }
}
