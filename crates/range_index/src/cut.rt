//! The spans that a new one meets, cut out of a list.
ghost use Rattle.std.specs.Prelude.{◌≡◌, ◌<◌, ◌≤◌, [], ◌∷◌, true, false, length, map, IfOk};
ghost use Rattle.std.specs.Ordering.{is_lt};
ghost use Rattle.std.specs.Arc.{arc_value};
ghost use Rattle.dname.specs.Arc.{arc_has};
ghost use Rattle.range_index.specs.Arcs.{span_has, is_apart, AreOfOrigin, IsArcs, FailInRuns, arcs_with};
ghost use Rattle.range_index.specs.Steps.{IsTrimmed, IsPlainMet, IsOverMet};

use crate::ring_span::SpanList;
use crate::search::{span_has, starts_before};
use crate::span_marks::SILENT;
use crate::{Met, OutOfMemory, RingSpan};
use std::alloc::Global;
use std::sync::Arc;

pub(crate) fn list_with<T: Drop, R: RingSpan<T>>(
    alloc: Global,
    list: &SpanList<T, R>,
    span: Arc<T>,
) -> Result<(SpanList<T, R>, Met), OutOfMemory>
    requires origin { AreOfOrigin R.origin R.mark (R.origin (arc_value span)) list.now }
    requires arcs { IsArcs R.Key.Ord.cmp R.start R.end list.now }
    ensures list { IfOk result (λ made.
        made.0 ≡ arcs_with R.Key.Ord.cmp R.start R.end (arc_value span) list.now) }
    ensures met { IfOk result (λ made.
        FailInRuns (is_apart R.Key.Ord.cmp R.start R.end (arc_value span)) list.now
        made.1.from made.1.to made.1.last) }
{
    if R::compare_ends(&span).is_lt() {
        with_plain(alloc, list, span)
    } else {
        with_over(alloc, list, span)
    }
}

// For a new span that ends after its start. It takes the place of the first run.
fn with_plain<T: Drop, R: RingSpan<T>>(
    alloc: Global,
    list: &SpanList<T, R>,
    span: Arc<T>,
) -> Result<(SpanList<T, R>, Met), OutOfMemory>
    requires origin { AreOfOrigin R.origin R.mark (R.origin (arc_value span)) list.now }
    requires arcs { IsArcs R.Key.Ord.cmp R.start R.end list.now }
    requires plain { is_lt (R.Key.Ord.cmp (R.start (arc_value span)) (R.end (arc_value span)))
        ≡ true }
    ensures list { IfOk result (λ made.
        made.0 ≡ arcs_with R.Key.Ord.cmp R.start R.end (arc_value span) list.now) }
    ensures met { IfOk result (λ made.
        FailInRuns (is_apart R.Key.Ord.cmp R.start R.end (arc_value span)) list.now
        made.1.from made.1.to made.1.last) }
{
    let met = plain_met::<T, R>(list, &span);
    let made = if met.last < list.len() {
        let list = list.without_run(alloc, met.last, list.len())?;
        list.into_with_one(alloc, met.from, met.to, span)?
    } else {
        list.with_one(alloc, met.from, met.to, span)?
    };
    Ok((made, met))
}

fn plain_met<T: Drop, R: RingSpan<T>>(list: &SpanList<T, R>, span: &T) -> Met
    requires origin { AreOfOrigin R.origin R.mark (R.origin span.now) list.now }
    requires arcs { IsArcs R.Key.Ord.cmp R.start R.end list.now }
    requires plain { is_lt (R.Key.Ord.cmp (R.start span.now) (R.end span.now)) ≡ true }
    ensures { IsPlainMet (is_apart R.Key.Ord.cmp R.start R.end span.now) list.now span.now
        (arcs_with R.Key.Ord.cmp R.start R.end span.now list.now)
        result.from result.to result.last }
{
    let (origin, start) = (R::origin(span), R::start_key(span));
    let from = trimmed(list, 0, starts_before(list, &origin, &start), &start);
    let to = starts_before(list, &origin, &R::end_key(span));
    let last = trimmed(list, to, list.len(), &start);
    Met { from, to, last }
}

// For a new span that goes over the end of the order. It comes last.
fn with_over<T: Drop, R: RingSpan<T>>(
    alloc: Global,
    list: &SpanList<T, R>,
    span: Arc<T>,
) -> Result<(SpanList<T, R>, Met), OutOfMemory>
    requires origin { AreOfOrigin R.origin R.mark (R.origin (arc_value span)) list.now }
    requires arcs { IsArcs R.Key.Ord.cmp R.start R.end list.now }
    requires over { is_lt (R.Key.Ord.cmp (R.start (arc_value span)) (R.end (arc_value span)))
        ≡ false }
    ensures list { IfOk result (λ made.
        made.0 ≡ arcs_with R.Key.Ord.cmp R.start R.end (arc_value span) list.now) }
    ensures met { IfOk result (λ made.
        FailInRuns (is_apart R.Key.Ord.cmp R.start R.end (arc_value span)) list.now
        made.1.from made.1.to made.1.last) }
{
    let met = over_met::<T, R>(list, &span);
    let made = list.with_one(alloc, met.last, list.len(), span)?;
    let made = if met.to > 0 {
        made.into_without_run(alloc, 0, met.to)?
    } else {
        made
    };
    Ok((made, met))
}

fn over_met<T: Drop, R: RingSpan<T>>(list: &SpanList<T, R>, span: &T) -> Met
    requires origin { AreOfOrigin R.origin R.mark (R.origin span.now) list.now }
    requires arcs { IsArcs R.Key.Ord.cmp R.start R.end list.now }
    requires over { is_lt (R.Key.Ord.cmp (R.start span.now) (R.end span.now)) ≡ false }
    ensures front { result.from ≡ 0 }
    ensures met { IsOverMet (is_apart R.Key.Ord.cmp R.start R.end span.now) list.now span.now
        (arcs_with R.Key.Ord.cmp R.start R.end span.now list.now) result.to result.last }
{
    let (origin, start) = (R::origin(span), R::start_key(span));
    let last = trimmed(list, 0, starts_before(list, &origin, &start), &start);
    let to = starts_before(list, &origin, &R::end_key(span)).min(last);
    Met { from: 0, to, last }
}

// The places from `low` up to `high`, without the last where its span has the key.
fn trimmed<T: Drop, R: RingSpan<T>>(
    list: &SpanList<T, R>,
    low: usize,
    high: usize,
    key: &R::Key,
) -> usize
    requires order { low ≤ high }
    requires in_range { high ≤ length list.now }
    ensures { IsTrimmed (span_has R.Key.Ord.cmp R.start R.end key.now) list.now low high result }
{
    if low == high {
        return high;
    }
    let last: &T = list.get(high - 1);
    let started = R::compare_start(last, key).is_le();
    if span_has::<T, R>(last, key, started, SILENT) {
        high - 1
    } else {
        high
    }
}
