ghost use Rattle.std.specs.Prelude.{◌≡◌, ℕ, List};
ghost use Rattle.dname.specs.Name.{Label};
ghost use Rattle.denial_records.specs.declared.batch.Batch.{Batch};
ghost use Rattle.cache_meaning.specs.Held.{Held, held_of};
ghost use Rattle.cache_meaning.specs.Prove.{proof_of, outcome_of};
ghost use Rattle.held_laws.specs.HeldLaws.{NoneDisplaces, IsReordered, SameLookups};
ghost use Rattle.held_laws.specs.KeyOrder.{kept_of};

/// What is answered reads a state by its five look-ups alone.
pub fn answers_read_lookups_alone()
    ensures proof { (held other : Held) → SameLookups held other
        → (now : ℕ) (name : List Label) (qtype : ℕ)
        → proof_of held now name qtype ≡ proof_of other now name qtype }
    ensures outcome { (held other : Held) → SameLookups held other
        → (now : ℕ) (name : List Label) (qtype qclass : ℕ)
        → outcome_of held now name qtype qclass ≡ outcome_of other now name qtype qclass }
{}

/// What is answered reads no order of the records, as none displaces another. So what is kept in the order of keys answers
/// as what is held.
pub fn what_is_answered_reads_no_order()
    ensures lookups { (held other : Held) → NoneDisplaces held.records → IsReordered held other
        → SameLookups held other }
    ensures proof { (held other : Held) → NoneDisplaces held.records → IsReordered held other
        → (now : ℕ) (name : List Label) (qtype : ℕ)
        → proof_of held now name qtype ≡ proof_of other now name qtype }
    ensures outcome { (held other : Held) → NoneDisplaces held.records → IsReordered held other
        → (now : ℕ) (name : List Label) (qtype qclass : ℕ)
        → outcome_of held now name qtype qclass ≡ outcome_of other now name qtype qclass }
    ensures kept { (batches : List Batch) (now : ℕ) (name : List Label) (qtype qclass : ℕ)
        → outcome_of (held_of batches) now name qtype qclass
        ≡ outcome_of (kept_of batches) now name qtype qclass }
{}
