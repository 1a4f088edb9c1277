//! Spans between two keys of an order.
ghost use Rattle.std.specs.Prelude.{◌≡◌, ◌<◌, ℕ};
ghost use Rattle.std.specs.declared.cmp.Ordering.TheVariants.{Less};

use page_list::{MarkedList, Marking};
use std::cmp::Ordering;
use std::marker::PhantomData;

/// How entries are spans, as a type of its own, so that one type of entries may be spans in several ways. What is known of an
/// entry's arc: from its start on, and before its end. Where the end isn't after the start, the arc goes over the end of the
/// order, and one whose start is its end is the whole ring.
///
/// The spans of a list are compared in place. Keys by value are asked for only of a new span, whose keys are sought.
///
/// A key has a mark of eight octets, by which it is sought first. It is reckoned from an origin, as a name's from a zone's apex,
/// and the spans of a list have one origin.
pub trait RingSpan<T> {
    type Key: Ord + Drop;

    ghost start: { T → Self.Key };

    ghost end: { T → Self.Key };

    ghost origin: { T → Self.Key };

    ghost mark: { Self.Key → Self.Key → ℕ };

    fn start_key(span: &T) -> Self::Key
        ensures { result ≡ start span.now };

    fn end_key(span: &T) -> Self::Key
        ensures { result ≡ end span.now };

    fn origin(span: &T) -> Self::Key
        ensures { result ≡ origin span.now };

    fn compare_start(span: &T, key: &Self::Key) -> Ordering
        ensures { result ≡ Self.Key.Ord.cmp (start span.now) key.now };

    fn compare_end(span: &T, key: &Self::Key) -> Ordering
        ensures { result ≡ Self.Key.Ord.cmp (end span.now) key.now };

    /// How the span's start compares with its end.
    fn compare_ends(span: &T) -> Ordering
        ensures { result ≡ Self.Key.Ord.cmp (start span.now) (end span.now) };

    fn mark(within: &Self::Key, key: &Self::Key) -> u64
        ensures { result ≡ mark within.now key.now };

    ghost marks_rise: { (origin one other : Self.Key)
        → mark origin one < mark origin other → Self.Key.Ord.cmp one other ≡ Less };
}

/// Spans in order of start.
pub(crate) type SpanList<T, R> = MarkedList<T, ByStart<R>>;

/// The mark of a span: that of its start. Its note is the mark of its end.
#[derive(Drop)]
pub struct ByStart<R> {
    spans: PhantomData<R>,
}

impl<T, R: RingSpan<T>> Marking<T> for ByStart<R> {
    ghost mark = { λ span. R.mark (R.origin span) (R.start span) };

    ghost note = { λ span. R.mark (R.origin span) (R.end span) };

    fn mark(span: &T) -> u64 {
        R::mark(&R::origin(span), &R::start_key(span))
    }

    fn note(span: &T) -> u64 {
        R::mark(&R::origin(span), &R::end_key(span))
    }
}
