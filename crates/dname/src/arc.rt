ghost use Rattle.std.specs.Prelude.{◌≡◌, ◌≢◌, ◌⊎◌, ◌↔◌, IsTrue};
ghost use Rattle.std.specs.declared.cmp.Ordering.{Ordering};
ghost use Rattle.std.specs.Cmp.{IsTotalOrder};
ghost use Rattle.std.specs.FinMap.{IsAntisymmetric};
ghost use Rattle.dname.specs.Arc.{arc_has, arcs_meet, IsInside};

/// Whether the arc from `start` on and before `end` has the key, on the ring that the order makes of its values.
pub fn arc_has<K: Ord>(start: &K, end: &K, key: &K) -> bool
    ensures { result ≡ arc_has K.Ord.cmp start.now end.now key.now }
{
    let after_start = start.cmp(key).is_le();
    let before_end = key.cmp(end).is_lt();
    if start.cmp(end).is_lt() {
        after_start && before_end
    } else {
        after_start || before_end
    }
}

/// Whether two such arcs meet.
pub fn arcs_meet<K: Ord>(start: &K, end: &K, other_start: &K, other_end: &K) -> bool
    ensures { result ≡ arcs_meet K.Ord.cmp start.now end.now other_start.now other_end.now }
{
    arc_has(start, end, other_start) || arc_has(other_start, other_end, start)
}

/// The arcs that two values cut the ring of a total order into: neither end is inside, every other value is inside one
/// of the two, and from a value to itself it is every other value.
pub fn arcs_part_the_ring<K>()
    ensures without_ends { (cmp : K → K → Ordering) → IsTotalOrder cmp → IsAntisymmetric cmp
        → (a b : K) → (IsInside cmp a b a → ⊥) × (IsInside cmp a b b → ⊥) }
    ensures whole { (cmp : K → K → Ordering) → IsTotalOrder cmp → IsAntisymmetric cmp
        → (a key : K) → key ≢ a → IsInside cmp a a key }
    ensures in_one { (cmp : K → K → Ordering) → IsTotalOrder cmp → IsAntisymmetric cmp
        → (a b key : K) → a ≢ b → key ≢ a → key ≢ b
        → IsInside cmp a b key ⊎ IsInside cmp b a key }
    ensures not_in_both { (cmp : K → K → Ordering) → IsTotalOrder cmp → IsAntisymmetric cmp
        → (a b key : K) → a ≢ b → IsInside cmp a b key → IsInside cmp b a key → ⊥ }
{}

/// A value is inside an arc exactly where the arc has it and it isn't the arc's start.
pub fn inside_by_arc<K>()
    ensures { (cmp : K → K → Ordering) → IsTotalOrder cmp → IsAntisymmetric cmp
        → (a b key : K)
        → IsInside cmp a b key ↔ (IsTrue (arc_has cmp a b key) × (key ≢ a)) }
{}
