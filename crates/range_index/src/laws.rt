//! What holds of all lists of spans that don't meet.
ghost use Rattle.std.specs.Prelude.{◌≡◌, ◌⊎◌, ◌↔◌, ◌+◌, ◌≤◌, List, Bool, true, length, filter};
ghost use Rattle.std.specs.List.{Contains};
ghost use Rattle.std.specs.declared.cmp.Ordering.{Ordering};
ghost use Rattle.std.specs.Cmp.{IsTotalOrder};
ghost use Rattle.range_index.specs.Arcs.{span_has, is_apart, IsArcs, arcs_with};

/// Of spans that don't meet, one at most has a key.
pub fn one_span_has_a_key<S, K>()
    ensures { (cmp : K → K → Ordering) → IsTotalOrder cmp
        → (start end : S → K) (spans : List S)
        → IsArcs cmp start end spans → (key : K)
        → length (filter (span_has cmp start end key) spans) ≤ 1 }
{}

/// Spans that don't meet are such with a new one in the place of those that it meets, and without some.
pub fn arcs_stay_arcs<S, K>()
    ensures with { (cmp : K → K → Ordering) → IsTotalOrder cmp
        → (start end : S → K) (spans : List S)
        → IsArcs cmp start end spans → (new : S)
        → IsArcs cmp start end (arcs_with cmp start end new spans) }
    ensures some { (cmp : K → K → Ordering) (start end : S → K) (spans : List S)
        → IsArcs cmp start end spans → (keep : S → Bool)
        → IsArcs cmp start end (filter keep spans) }
{}

/// With a new span there are just the spans that it doesn't meet, and itself.
pub fn what_with_leaves<S, K>()
    ensures members { (cmp : K → K → Ordering) (start end : S → K) (new : S)
        (spans : List S) (span : S)
        → Contains (arcs_with cmp start end new spans) span
        ↔ ((span ≡ new)
        ⊎ (Contains spans span × (is_apart cmp start end new span ≡ true))) }
    ensures count { (cmp : K → K → Ordering) (start end : S → K) (new : S) (spans : List S)
        → length (arcs_with cmp start end new spans)
        ≡ length (filter (is_apart cmp start end new) spans) + 1 }
{}
