//! The rule of the published version, and what each step tells.
ghost use Rattle.std.specs.Prelude.{[]};
ghost use Rattle.cache_versions.specs.Kin.{Kept, Looks, Meets, known, content_of};

use crate::state::State;
use crate::version::{Content, Known, KnownOf, Recorded, RecordedOf};
use atomic_table::{Join, Split};
use crossbeam_utils::rule::{Outcome, Protocol};
use left_right::Absorb;
use std::alloc::AllocError;

/// An operation is a whole version, which takes the place of the one before.
impl<S: Drop, B> Absorb<Recorded<S, B>> for Recorded<S, B> {
    type State = Content<S, B>;

    ghost state = { content_of };

    ghost applied = { λ _ next. content_of next };

    fn absorb_first(
        &mut self,
        operation: &Recorded<S, B>,
        _other: &Recorded<S, B>,
    ) -> Result<(), AllocError> {
        *self = operation.again()?;
        Ok(())
    }
}

/// Each version is of one book.
pub struct OneBook;

impl<S: State> Protocol<RecordedOf<S>, KnownOf<S>> for OneBook {
    ghost holds = { Kept S.after S.BATCHES };

    ghost first = { known [] };
}

/// A read, or a publication.
pub struct Look;

impl<S: State> Outcome<RecordedOf<S>, KnownOf<S>> for Look {
    ghost then = { Looks S.after S.BATCHES };
}

/// The publication by which the writer comes to know the first version.
pub struct Meet;

impl<S, B> Outcome<Recorded<S, B>, Known<S, B>> for Meet {
    ghost then = { Meets };
}

/// Both ends know what the one knew.
pub struct Copies;

impl<S, B> Split<Known<S, B>> for Copies {
    ghost left = { λ k. k };

    ghost right = { λ k. k };
}

/// What the other knew.
pub struct Replaces;

impl<S, B> Join<Known<S, B>> for Replaces {
    ghost both = { λ _ l. l };

    ghost spent = { known [] };
}
