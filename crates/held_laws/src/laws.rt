ghost use Rattle.std.specs.Prelude.{◌≡◌, ◌≤◌, ℕ, length, List, [], ◌∷◌, ◌++◌};
ghost use Rattle.std.specs.List.{All};
ghost use Rattle.denial_records.specs.declared.batch.Batch.{Batch};
ghost use Rattle.dname.specs.Name.{Label};
ghost use Rattle.cache_meaning.specs.Held.{Held, HashParameters, most_records, held_of};
ghost use Rattle.cache_meaning.specs.Zones.{TwoChains, zone_for, chains_of, set_at, nsec_at, nsec3_at};
ghost use Rattle.held_laws.specs.HeldLaws.{IsUsableAt, IsReordered, EachChainHasARecord, EachRecordIsListed, EachListedOnce, NoneDisplaces, SetsOnce, NsecsOnce, Nsec3sOnce};

/// A zone has two chains at most.
pub fn at_most_two_chains()
    ensures { (batches : List Batch) → TwoChains (held_of batches) }
{}

/// Of each listed chain a record is held, each held denial record's chain is listed, and none is listed twice.
pub fn each_chain_has_a_record()
    ensures has_record { (batches : List Batch) → EachChainHasARecord (held_of batches) }
    ensures is_listed { (batches : List Batch) → EachRecordIsListed (held_of batches) }
    ensures once { (batches : List Batch) → EachListedOnce (held_of batches).chains }
{}

/// No held record displaces another: of each zone, owner name and type there is one set, and no two denial records of one
/// zone and chain have arcs that meet.
pub fn no_two_of_one_key()
    ensures none { (batches : List Batch) → NoneDisplaces (held_of batches).records }
    ensures sets { (batches : List Batch) → SetsOnce (held_of batches).records }
    ensures nsecs { (batches : List Batch) → NsecsOnce (held_of batches).records }
    ensures nsec3s { (batches : List Batch) → Nsec3sOnce (held_of batches).records }
{}

/// At most 131,072 records are held.
pub fn within_the_limit()
    ensures { (batches : List Batch) → length (held_of batches).records ≤ most_records }
{}

/// Where no record of a batch has expired at its moment, no record that is held after it has.
pub fn none_has_expired()
    ensures { (batches : List Batch) (batch : Batch)
        → All (IsUsableAt batch.now) batch.records
        → All (IsUsableAt batch.now) (held_of (batches ++ batch ∷ [])).records }
{}

/// The order in which records are held means nothing to what is looked up, as none displaces another.
pub fn order_means_nothing()
    ensures zone { (held other : Held) → IsReordered held other
        → (name : List Label) (qtype : ℕ)
        → zone_for held name qtype ≡ zone_for other name qtype }
    ensures chains { (held other : Held) → IsReordered held other → (zone : List Label)
        → chains_of held zone ≡ chains_of other zone }
    ensures set { (held other : Held) → NoneDisplaces held.records → IsReordered held other
        → (zone owner : List Label) (rtype : ℕ)
        → set_at held zone owner rtype ≡ set_at other zone owner rtype }
    ensures nsec { (held other : Held) → NoneDisplaces held.records → IsReordered held other
        → (zone name : List Label) → nsec_at held zone name ≡ nsec_at other zone name }
    ensures nsec3 { (held other : Held) → NoneDisplaces held.records → IsReordered held other
        → (zone : List Label) (parameters : HashParameters) (hash : List ℕ)
        → nsec3_at held zone parameters hash ≡ nsec3_at other zone parameters hash }
{}
