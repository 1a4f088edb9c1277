ghost use Rattle.std.specs.Prelude.{◌≡◌, ℕ, List, Some};
ghost use Rattle.std.specs.List.{All};
ghost use Rattle.dname.specs.Name.{Label};
ghost use Rattle.denial_records.specs.Proof.{Proof, used_in};
ghost use Rattle.zone_meaning.specs.Zone.{IsProofType};
ghost use Rattle.cache_meaning.specs.Held.{Held};
ghost use Rattle.cache_meaning.specs.Zones.{zone_for};
ghost use Rattle.cache_meaning.specs.Prove.{exact_proof, outcome_of};
ghost use Rattle.soundness.specs.Sound.{IsSound, IsUsable};
ghost use Rattle.soundness.specs.Steps.{IsAsked};

/// The held zone for a question is the one that answers it: the zone above, where a DS is asked.
pub fn the_zone_is_asked()
    ensures { (held : Held) (name apex : List Label) (qtype : ℕ)
        → (IsProofType qtype → ⊥) → zone_for held name qtype ≡ Some apex
        → IsAsked apex name qtype }
{}

/// An answer by the set at the name and type is sound.
pub fn answer_by_the_set()
    ensures { (held : Held) (now : ℕ) (apex name : List Label) (qtype : ℕ) (proof : Proof)
        → IsAsked apex name qtype → exact_proof held now apex name qtype ≡ Some proof
        → IsSound name qtype proof }
{}

/// What becomes of a query in the cache, if anything but that it is forwarded, is sound, whatever is held.
pub fn each_answer_is_sound()
    ensures { (held : Held) (now : ℕ) (name : List Label) (qtype qclass : ℕ) (proof : Proof)
        → outcome_of held now name qtype qclass ≡ Some proof → IsSound name qtype proof }
{}

/// Each record that it uses is held, and hasn't expired.
pub fn each_used_record_is_held()
    ensures { (held : Held) (now : ℕ) (name : List Label) (qtype qclass : ℕ) (proof : Proof)
        → outcome_of held now name qtype qclass ≡ Some proof
        → All (IsUsable held now) (used_in proof) }
{}
