ghost use Rattle.std.specs.Prelude.{◌≡◌, ℕ, IfSome, IfNone};
ghost use Rattle.command_line.specs.Words.{IsValue};
ghost use Rattle.command_line.specs.Options.{setting_of};

/// An option of a command: its name without the two hyphens, and the range of its values.
#[derive(Clone, Copy)]
pub(crate) struct Setting<'a> {
    pub(crate) name: &'a str,
    pub(crate) least: u32,
    pub(crate) most: u32,
}

pub(crate) const WORKERS: Setting<'static> = Setting {
    name: "workers",
    least: 1,
    most: 32,
};

pub(crate) const SEED: Setting<'static> = Setting {
    name: "seed",
    least: 0,
    most: u32::MAX,
};

pub(crate) const NAMES: Setting<'static> = Setting {
    name: "names",
    least: 1,
    most: 10_000,
};

pub(crate) const QUERIES: Setting<'static> = Setting {
    name: "queries",
    least: 0,
    most: 100_000,
};

pub(crate) const LISTEN: Setting<'static> = Setting {
    name: "listen",
    least: 1,
    most: 65_535,
};

pub(crate) const UPSTREAM: Setting<'static> = Setting {
    name: "upstream",
    least: 1,
    most: 65_535,
};

pub(crate) const DATAGRAMS: Setting<'static> = Setting {
    name: "datagrams",
    least: 1,
    most: 5_000,
};

pub(crate) const CONNECTIONS: Setting<'static> = Setting {
    name: "connections",
    least: 1,
    most: 100,
};

impl<'a> Setting<'a> {
    /// The value that the text spells, if it is one of the option's.
    pub(crate) fn value_of(&self, text: &str) -> Option<u32>
        ensures read { IfSome result (IsValue (setting_of self.now) text.now) }
        ensures none { IfNone result ((value : ℕ)
            → IsValue (setting_of self.now) text.now value → ⊥) }
    {
        let (least, most) = (self.least, self.most);
        // A plus before the digits would be read too.
        if text.len() > 10 || text.as_bytes().first() == Some(&b'+') {
            return None;
        }
        let Ok(value) = text.parse::<u32>() else {
            return None;
        };
        if value < least || most < value {
            return None;
        }
        Some(value)
    }
}
