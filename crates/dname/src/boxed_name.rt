ghost use Rattle.std.specs.Prelude.{◌≡◌, IfOk};

use crate::{Name, OutOfMemory};
use std::alloc::Global;
use std::marker::Model;

/// A name in a block of memory of its own, so that what has it is small and is moved cheaply. Seen as the name.
#[derive(Debug, Drop)]
pub struct BoxedName {
    name: Box<Name>,
}

impl Model for BoxedName {
    ghost use Rattle.std.specs.Prelude.{List, ℕ};

    ghost Value = { List (List ℕ) };

    ghost view = { λ b. b.name.value };
}

impl BoxedName {
    /// The name, moved into its block.
    pub fn of(alloc: Global, name: Name) -> Result<BoxedName, OutOfMemory>
        ensures { IfOk result (λ boxed. boxed ≡ name) }
    {
        Ok(BoxedName {
            name: Box::new(alloc, name)?,
        })
    }

    /// The name itself, lent.
    pub fn name(&self) -> &Name
        ensures { result.now ≡ self.now }
    {
        &self.name
    }
}
