//! Spans that don't meet, in order of start.
ghost use Rattle.std.specs.Prelude.{◌≡◌, ◌<◌, [], ◌∷◌, length, filter, slice_index_or, MatchOption, IfSome, IfOk, Bool};
ghost use Rattle.std.specs.Fn.{FnReturnsAt};
ghost use Rattle.std.specs.Arc.{arc_value};
ghost use Rattle.dname.specs.Arc.{arc_has};
ghost use Rattle.range_index.specs.Arcs.{span_has, is_apart, starts_elsewhere, AreOfOrigin, IsArcs, FailInRuns, arcs_with};
ghost use Rattle.range_index.specs.Place.{place_of};

use crate::cut::list_with;
use crate::kept::kept_shares;
use crate::ring_span::SpanList;
use crate::search::{OneSpan, candidate, place_in, span_has, starting_at};
use crate::{Met, OutOfMemory, Place, RingSpan};
use page_list::Iter;
use std::alloc::Global;
use std::marker::Model;
use std::sync::Arc;

/// Spans whose arcs don't meet, seen as their list in order of start. A change makes another list, which shares with it
/// what it doesn't touch.
#[derive(Drop)]
pub struct Arcs<T: Drop, R: RingSpan<T>> {
    list: SpanList<T, R>,
}

impl<T: Drop, R: RingSpan<T>> Model for Arcs<T, R> {
    ghost use Rattle.std.specs.Prelude.{List};
    ghost use Rattle.range_index.specs.Arcs.{IsArcs};

    ghost Value = { List T };

    ghost view = { λ a. a.list };

    ghost invariant = { λ a. IsArcs R.Key.Ord.cmp R.start R.end a.list };
}

impl<T: Drop, R: RingSpan<T>> Arcs<T, R> {
    /// No spans, which take no memory.
    pub fn empty(alloc: Global) -> Arcs<T, R>
        ensures { result ≡ [] }
    {
        Arcs {
            list: SpanList::<T, R>::empty(alloc),
        }
    }

    /// How many spans there are. They are in order of start, and no two meet.
    pub fn len(&self) -> usize
        ensures value { result ≡ length self.now }
        ensures arcs { IsArcs R.Key.Ord.cmp R.start R.end self.now }
    {
        self.list.len()
    }

    /// The span at a place in the order of starts.
    pub fn get(&self, i: usize) -> &Arc<T>
        requires { i < length self.now }
        ensures { arc_value result.now ≡ slice_index_or self.now i (arc_value result.now) }
    {
        self.list.get(i)
    }

    /// The spans one after another, at a cost linear in their number.
    pub fn iter(&self) -> Iter<'_, T>
        ensures { result ≡ self.now }
    {
        self.list.iter()
    }

    /// The span whose arc has the key, and where in it the key lies; None where no arc has it. The key is compared three
    /// times more at most than a search of the list takes.
    pub fn at(&self, origin: &R::Key, key: &R::Key) -> Option<(&T, Place)>
        requires { AreOfOrigin R.origin R.mark origin.now self.now }
        ensures span { MatchOption result
            (filter (span_has R.Key.Ord.cmp R.start R.end key.now) self.now ≡ [])
            (λ found. filter (span_has R.Key.Ord.cmp R.start R.end key.now) self.now
            ≡ found.0.now ∷ []) }
        ensures place { IfSome result
            (λ found. found.1 ≡ place_of (R.Key.Ord.cmp (R.start found.0.now) key.now)) }
    {
        if self.list.len() == 0 {
            return None;
        }
        let OneSpan {
            span,
            started,
            marks,
            ..
        } = candidate(&self.list, origin, key);
        let span: &T = span;
        if span_has::<T, R>(span, key, started, marks) {
            Some((span, place_in::<T, R>(span, key, started, marks)))
        } else {
            None
        }
    }

    /// The spans whose arcs don't meet the new one's, and the new one.
    pub fn with(&self, alloc: Global, span: Arc<T>) -> Result<Arcs<T, R>, OutOfMemory>
        requires { AreOfOrigin R.origin R.mark (R.origin (arc_value span)) self.now }
        ensures { IfOk result (λ made.
            made ≡ arcs_with R.Key.Ord.cmp R.start R.end (arc_value span) self.now) }
    {
        let (arcs, _met) = self.with_met(alloc, span)?;
        Ok(arcs)
    }

    /// The same, and the places in this list of the spans that it drops.
    pub fn with_met(&self, alloc: Global, span: Arc<T>) -> Result<(Arcs<T, R>, Met), OutOfMemory>
        requires { AreOfOrigin R.origin R.mark (R.origin (arc_value span)) self.now }
        ensures arcs { IfOk result (λ made.
            made.0 ≡ arcs_with R.Key.Ord.cmp R.start R.end (arc_value span) self.now) }
        ensures met { IfOk result (λ made.
            FailInRuns (is_apart R.Key.Ord.cmp R.start R.end (arc_value span)) self.now
            made.1.from made.1.to made.1.last) }
    {
        let (list, met) = list_with(alloc, &self.list, span)?;
        Ok((Arcs { list }, met))
    }

    /// The spans without the one that starts at the key, if there is one.
    pub fn without(
        &self,
        alloc: Global,
        origin: &R::Key,
        key: &R::Key,
    ) -> Result<Arcs<T, R>, OutOfMemory>
        requires { AreOfOrigin R.origin R.mark origin.now self.now }
        ensures { IfOk result (λ made.
            made ≡ filter (starts_elsewhere R.Key.Ord.cmp R.start key.now) self.now) }
    {
        let (from, to) = starting_at(&self.list, origin, key);
        let list = self.list.without_run(alloc, from, to)?;
        Ok(Arcs { list })
    }

    /// The spans that `keep` holds of.
    pub fn kept<F: Fn(&T) -> bool>(&self, alloc: Global, keep: F) -> Result<Arcs<T, R>, OutOfMemory>
        requires { F.IsAlwaysCallable keep }
        ensures { IfOk result (λ made. (p : T → Bool)
            → ((x : T) (r : Bool) → FnReturnsAt F.Fn keep x r → r ≡ p x)
            → made ≡ filter p self.now) }
    {
        let shares = kept_shares(alloc, &self.list, keep)?;
        let list = SpanList::<T, R>::empty(alloc).with_replaced(alloc, 0, 0, shares)?;
        Ok(Arcs { list })
    }
}
