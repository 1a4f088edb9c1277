//! The marks of a key and of a span, by which most comparisons are told.
ghost use Rattle.std.specs.Prelude.{◌≡◌, ◌<◌};
ghost use Rattle.std.specs.declared.cmp.Ordering.TheVariants.{Less, Greater};
ghost use Rattle.range_index.specs.Steps.{Tell};

use crate::RingSpan;
use std::cmp::Ordering;

/// The marks of a key, and of a span's start and end, from one origin. Equal ones tell nothing.
#[derive(Clone, Copy)]
pub(crate) struct SpanMarks {
    pub(crate) key: u64,
    pub(crate) start: u64,
    pub(crate) end: u64,
}

/// Marks that tell nothing of any key and span.
pub(crate) const SILENT: SpanMarks = SpanMarks {
    key: 0,
    start: 0,
    end: 0,
};

/// How the span's start compares with the key.
pub(crate) fn start_to_key<T, R: RingSpan<T>>(span: &T, key: &R::Key, marks: SpanMarks) -> Ordering
    requires { Tell R.Key.Ord.cmp R.start R.end key.now span.now marks.key marks.start marks.end }
    ensures { result ≡ R.Key.Ord.cmp (R.start span.now) key.now }
{
    if marks.start < marks.key {
        Ordering::Less
    } else {
        R::compare_start(span, key)
    }
}

/// How its end does.
pub(crate) fn end_to_key<T, R: RingSpan<T>>(span: &T, key: &R::Key, marks: SpanMarks) -> Ordering
    requires { Tell R.Key.Ord.cmp R.start R.end key.now span.now marks.key marks.start marks.end }
    ensures { result ≡ R.Key.Ord.cmp (R.end span.now) key.now }
{
    if marks.key < marks.end {
        Ordering::Greater
    } else if marks.end < marks.key {
        Ordering::Less
    } else {
        R::compare_end(span, key)
    }
}

/// How its start compares with its end.
pub(crate) fn start_to_end<T, R: RingSpan<T>>(span: &T, marks: SpanMarks) -> Ordering
    requires plain { marks.start < marks.end
        → R.Key.Ord.cmp (R.start span.now) (R.end span.now) ≡ Less }
    requires over { marks.end < marks.start
        → R.Key.Ord.cmp (R.start span.now) (R.end span.now) ≡ Greater }
    ensures { result ≡ R.Key.Ord.cmp (R.start span.now) (R.end span.now) }
{
    if marks.start < marks.end {
        Ordering::Less
    } else if marks.end < marks.start {
        Ordering::Greater
    } else {
        R::compare_ends(span)
    }
}
