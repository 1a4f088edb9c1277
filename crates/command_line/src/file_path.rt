ghost use Rattle.std.specs.Prelude.{◌≡◌, IfOk};

use crate::OutOfMemory;
use std::alloc::Global;
use std::marker::Model;

/// The path of a file, seen as its octets.
#[derive(Debug, Drop)]
pub struct FilePath {
    path: String,
}

impl Model for FilePath {
    ghost use Rattle.std.specs.Prelude.{List, ℕ, string_bytes};

    ghost Value = { List ℕ };

    ghost view = { λ p. string_bytes p.path };
}

impl FilePath {
    pub(crate) fn of(alloc: Global, text: &str) -> Result<FilePath, OutOfMemory>
        ensures { IfOk result (λ path. path ≡ text.now) }
    {
        Ok(FilePath {
            path: String::from_str(alloc, text)?,
        })
    }

    pub fn as_str(&self) -> &str
        ensures { result.now ≡ self.now }
    {
        self.path.as_str()
    }
}
