//! What is done with versions.
ghost use Rattle.std.specs.Prelude.{◌≡◌, MatchBool, IfOk};
ghost use Rattle.cache_versions.specs.Kin.{Begins, IsSame, Kin};

use super::Recorded;
use std::alloc::AllocError;
use std::sync::Arc;

impl<S, B> Recorded<S, B> {
    /// One more owner. There is none where `Arc` gives none.
    pub fn again(&self) -> Result<Recorded<S, B>, AllocError>
        ensures { IfOk result (λ r. IsSame self.now r) }
    {
        Ok(Recorded {
            version: Arc::try_clone(&self.version)?,
            front: self.front.again(),
        })
    }
}

/// Whether the second of two versions of one book begins with the first. Else the first begins
/// with the second.
pub fn reaches<S, B>(first: &Recorded<S, B>, second: &Recorded<S, B>) -> bool
    requires { Kin first.now second.now }
    ensures { MatchBool result (Begins first.now second.now) (Begins second.now first.now) }
{
    let mut both = first.front.again();
    both.learn(&second.front);
    if first.version.number <= second.version.number {
        true
    } else {
        false
    }
}
