ghost use Rattle.std.specs.Prelude.{◌≡◌, ◌≤◌, length, List, [], ◌∷◌, ◌++◌};
ghost use Rattle.std.specs.List.{All};
ghost use Rattle.denial_records.specs.declared.batch.Batch.{Batch};
ghost use Rattle.cache_meaning.specs.Held.{Held, most_records, held_after, held_of};
ghost use Rattle.cache_meaning.specs.Zones.{TwoChains};
ghost use Rattle.held_laws.specs.HeldLaws.{IsUsableAt, IsReordered, EachChainHasARecord, EachRecordIsListed, EachListedOnce, NoneDisplaces};
ghost use Rattle.held_laws.specs.KeyOrder.{IsInKeyOrder, IsInZoneOrder, in_key_order, kept_of};

/// A batch reads no order: of two states that hold the same records, of which none displaces another, and list each zone's
/// chains alike, it makes two that hold and list the same.
pub fn a_batch_reads_no_order()
    ensures { (held other : Held) (batch : Batch)
        → NoneDisplaces held.records → NoneDisplaces other.records → IsReordered held other
        → IsReordered (held_after held batch) (held_after other batch) }
{}

/// The order of keys keeps all that a state holds, and puts it in order.
pub fn key_order_keeps_all()
    ensures same { (held : Held) → IsReordered held (in_key_order held) }
    ensures as_many { (held : Held) → length (in_key_order held).records ≡ length held.records }
    ensures none_displaces { (held : Held) → NoneDisplaces held.records
        → NoneDisplaces (in_key_order held).records }
    ensures once { (held : Held) → EachListedOnce held.chains
        → EachListedOnce (in_key_order held).chains }
    ensures two_chains { (held : Held) → TwoChains held → TwoChains (in_key_order held) }
    ensures by_key { (held : Held) → NoneDisplaces held.records
        → IsInKeyOrder (in_key_order held).records }
    ensures by_zone { (held : Held) → IsInZoneOrder (in_key_order held).chains }
{}

/// There is one order of keys: states that hold the same are one in it.
pub fn key_order_is_one()
    ensures { (held other : Held)
        → NoneDisplaces held.records → NoneDisplaces other.records → IsReordered held other
        → in_key_order held ≡ in_key_order other }
{}

/// What is kept in the order of keys, batch after batch, is what is held, and all laws of held states hold of it.
pub fn kept_in_key_order()
    ensures same { (batches : List Batch) → IsReordered (held_of batches) (kept_of batches) }
    ensures by_key { (batches : List Batch) → IsInKeyOrder (kept_of batches).records }
    ensures by_zone { (batches : List Batch) → IsInZoneOrder (kept_of batches).chains }
    ensures none_displaces { (batches : List Batch) → NoneDisplaces (kept_of batches).records }
    ensures two_chains { (batches : List Batch) → TwoChains (kept_of batches) }
    ensures has_record { (batches : List Batch) → EachChainHasARecord (kept_of batches) }
    ensures is_listed { (batches : List Batch) → EachRecordIsListed (kept_of batches) }
    ensures once { (batches : List Batch) → EachListedOnce (kept_of batches).chains }
    ensures usable { (batches : List Batch) (batch : Batch)
        → All (IsUsableAt batch.now) batch.records
        → All (IsUsableAt batch.now) (kept_of (batches ++ batch ∷ [])).records }
    ensures within { (batches : List Batch) → length (kept_of batches).records ≤ most_records }
{}
