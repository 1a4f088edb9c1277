//! Places in lists of spans that don't meet, found by search.
ghost use Rattle.std.specs.Prelude.{◌≡◌, ◌<◌, ◌≤◌, ◌+◌, true, length, IfSome, MatchOption, slice_index_or};
ghost use Rattle.std.specs.Arc.{arc_value};
ghost use Rattle.std.specs.List.{prefix_len};
ghost use Rattle.std.specs.List.Sorted.{IsPartitionedBy};
ghost use Rattle.std.specs.Ordering.{is_le, is_lt};
ghost use Rattle.dname.specs.Arc.{arc_has};
ghost use Rattle.range_index.specs.Arcs.{span_has, starts_elsewhere, AreOfOrigin, IsArcs};
ghost use Rattle.range_index.specs.Steps.{IsCandidate, IsCut, Tell};
ghost use Rattle.range_index.specs.Place.{place_of};

use crate::ring_span::SpanList;
use crate::span_marks::{SILENT, SpanMarks, end_to_key, start_to_end, start_to_key};
use crate::{Place, RingSpan};
use std::cmp::Ordering;
use std::sync::Arc;

// How many spans start at the key or before it.
pub(crate) fn starts_upto<T: Drop, R: RingSpan<T>>(
    list: &SpanList<T, R>,
    origin: &R::Key,
    key: &R::Key,
) -> usize
    requires origin { AreOfOrigin R.origin R.mark origin.now list.now }
    requires parted { IsPartitionedBy
        (λ span. is_le (R.Key.Ord.cmp (R.start span) key.now)) list.now }
    ensures value { result ≡ prefix_len
        (λ span. is_le (R.Key.Ord.cmp (R.start span) key.now)) list.now }
    ensures in_range { result ≤ length list.now }
{
    list.find_at(
        R::mark(origin, key),
        |span| R::compare_start(span, key).is_le(),
    )
}

// How many spans start before the key.
pub(crate) fn starts_before<T: Drop, R: RingSpan<T>>(
    list: &SpanList<T, R>,
    origin: &R::Key,
    key: &R::Key,
) -> usize
    requires origin { AreOfOrigin R.origin R.mark origin.now list.now }
    requires parted { IsPartitionedBy
        (λ span. is_lt (R.Key.Ord.cmp (R.start span) key.now)) list.now }
    ensures value { result ≡ prefix_len
        (λ span. is_lt (R.Key.Ord.cmp (R.start span) key.now)) list.now }
    ensures in_range { result ≤ length list.now }
{
    list.find_at(
        R::mark(origin, key),
        |span| R::compare_start(span, key).is_lt(),
    )
}

/// The one span of a list that can have a key, its place, whether it starts at the key or before it, and the marks of both.
#[derive(Drop)]
pub(crate) struct OneSpan<'a, T> {
    pub(crate) place: usize,
    pub(crate) span: &'a Arc<T>,
    pub(crate) started: bool,
    pub(crate) marks: SpanMarks,
}

// The last span that starts at the key or before it.
fn last_upto<'a, T: Drop, R: RingSpan<T>>(
    list: &'a SpanList<T, R>,
    origin: &R::Key,
    key: &R::Key,
) -> Option<OneSpan<'a, T>>
    requires origin { AreOfOrigin R.origin R.mark origin.now list.now }
    requires parted { IsPartitionedBy
        (λ span. is_le (R.Key.Ord.cmp (R.start span) key.now)) list.now }
    ensures place { MatchOption result
        (prefix_len (λ span. is_le (R.Key.Ord.cmp (R.start span) key.now)) list.now ≡ 0)
        (λ last. last.place + 1
        ≡ prefix_len (λ span. is_le (R.Key.Ord.cmp (R.start span) key.now)) list.now) }
    ensures in_range { IfSome result (λ last. last.place < length list.now) }
    ensures span { IfSome result (λ last. arc_value last.span.now
        ≡ slice_index_or list.now last.place (arc_value last.span.now)) }
    ensures started { IfSome result (λ last. last.started ≡ true) }
    ensures marks { IfSome result (λ last. Tell R.Key.Ord.cmp R.start R.end key.now
        (arc_value last.span.now) last.marks.key last.marks.start last.marks.end) }
{
    let mark = R::mark(origin, key);
    match list.last_at(mark, |span| R::compare_start(span, key).is_le()) {
        Some(last) => Some(OneSpan {
            place: last.place,
            span: last.share,
            started: true,
            marks: SpanMarks {
                key: mark,
                start: last.mark,
                end: last.note,
            },
        }),
        None => None,
    }
}

pub(crate) fn candidate<'a, T: Drop, R: RingSpan<T>>(
    list: &'a SpanList<T, R>,
    origin: &R::Key,
    key: &R::Key,
) -> OneSpan<'a, T>
    requires origin { AreOfOrigin R.origin R.mark origin.now list.now }
    requires some { 0 < length list.now }
    requires arcs { IsArcs R.Key.Ord.cmp R.start R.end list.now }
    ensures only { IsCandidate (span_has R.Key.Ord.cmp R.start R.end key.now)
        (λ span. is_le (R.Key.Ord.cmp (R.start span) key.now)) list.now
        result.place result.started }
    ensures span { arc_value result.span.now
        ≡ slice_index_or list.now result.place (arc_value result.span.now) }
    ensures marks { Tell R.Key.Ord.cmp R.start R.end key.now (arc_value result.span.now)
        result.marks.key result.marks.start result.marks.end }
{
    match last_upto(list, origin, key) {
        Some(last) => last,
        None => {
            let place = list.len() - 1;
            OneSpan {
                place,
                span: list.get(place),
                started: false,
                marks: SILENT,
            }
        }
    }
}

// The places from which on and before which spans start at the key.
pub(crate) fn starting_at<T: Drop, R: RingSpan<T>>(
    list: &SpanList<T, R>,
    origin: &R::Key,
    key: &R::Key,
) -> (usize, usize)
    requires origin { AreOfOrigin R.origin R.mark origin.now list.now }
    requires arcs { IsArcs R.Key.Ord.cmp R.start R.end list.now }
    ensures { IsCut (starts_elsewhere R.Key.Ord.cmp R.start key.now) list.now result.0 result.1 }
{
    (
        starts_before(list, origin, key),
        starts_upto(list, origin, key),
    )
}

// Whether the span's arc has the key; `started` says whether it starts at the key or before it.
pub(crate) fn span_has<T: Drop, R: RingSpan<T>>(
    span: &T,
    key: &R::Key,
    started: bool,
    marks: SpanMarks,
) -> bool
    requires started { started ≡ is_le (R.Key.Ord.cmp (R.start span.now) key.now) }
    requires marks { Tell R.Key.Ord.cmp R.start R.end key.now span.now
        marks.key marks.start marks.end }
    ensures { result ≡ span_has R.Key.Ord.cmp R.start R.end key.now span.now }
{
    let before_end = end_to_key::<T, R>(span, key, marks).is_gt();
    if started == before_end {
        return started;
    }
    // only over the end of the order is one of the two enough
    !start_to_end::<T, R>(span, marks).is_lt()
}

pub(crate) fn place_in<T: Drop, R: RingSpan<T>>(
    span: &T,
    key: &R::Key,
    started: bool,
    marks: SpanMarks,
) -> Place
    requires started { started ≡ is_le (R.Key.Ord.cmp (R.start span.now) key.now) }
    requires marks { Tell R.Key.Ord.cmp R.start R.end key.now span.now
        marks.key marks.start marks.end }
    ensures { result ≡ place_of (R.Key.Ord.cmp (R.start span.now) key.now) }
{
    if started && start_to_key::<T, R>(span, key, marks) == Ordering::Equal {
        Place::Start
    } else {
        Place::Inside
    }
}
