//! What lies under the lock: the writer, and the word of the book.
ghost use Rattle.std.specs.Prelude.{◌≡◌};
ghost use Rattle.cache_versions.specs.Book.{head_of};

use crate::book::Head;
use crate::rule::OneBook;
use crate::state::State;
use crate::version::{ContentOf, KnownOf, RecordedOf};
use left_right::Absorb;
use left_right::writer::Writer;
use std::alloc::Global;

mod steps;

pub type Pen<S> = Writer<RecordedOf<S>, RecordedOf<S>, KnownOf<S>, OneBook, Global>;

/// It is not `Drop`: end it by `end` or `into_last`.
pub struct Desk<S: State>
where
    RecordedOf<S>: Absorb<RecordedOf<S>, State = ContentOf<S>>,
{
    pub writer: Pen<S>,
    pub head: Head<S::Batch>,
    ghost head_is: { head ≡ head_of writer.desk.shown.value.front.book },
}
