ghost use Rattle.std.specs.Prelude.{◌≡◌, ℕ, List, [], ◌∷◌, Some};
ghost use Rattle.dname.specs.Name.{Label};
ghost use Rattle.denial_records.specs.Proof.{Proof};
ghost use Rattle.denial_records.specs.declared.nsec_rec.NsecRec.{NsecRec};
ghost use Rattle.denial_records.specs.declared.record.Record.TheVariants.{Nsec};
ghost use Rattle.cache_meaning.specs.Held.{Held};
ghost use Rattle.cache_meaning.specs.Evidence.{nsec_for};
ghost use Rattle.cache_meaning.specs.NsecSteps.{no_data_by_match, no_data_by_empty, source_of, answer_by_wildcard, no_data_by_wildcard, name_error, nsec_proof};
ghost use Rattle.soundness.specs.Steps.{IsAsked, IsCover};
ghost use Rattle.soundness.specs.Sound.{IsSound};

/// No data by the name's own NSEC record is sound.
pub fn no_data_by_an_nsec_match()
    ensures { (held : Held) (now : ℕ) (apex name : List Label) (qtype : ℕ) (matching : NsecRec)
        (proof : Proof)
        → IsAsked apex name qtype → nsec_for held now apex name ≡ Some matching
        → no_data_by_match held now apex name qtype matching ≡ Some proof
        → IsSound name qtype proof }
{}

/// No data by an NSEC record that shows the name empty is sound.
pub fn no_data_by_an_empty_name()
    ensures { (held : Held) (now : ℕ) (apex name : List Label) (qtype : ℕ) (covering : NsecRec)
        (proof : Proof)
        → IsAsked apex name qtype → nsec_for held now apex name ≡ Some covering
        → no_data_by_empty held now apex name covering ≡ Some proof
        → IsSound name qtype proof }
{}

/// An answer by a wildcard's set, where an NSEC record covers the name, is sound.
pub fn answer_by_an_nsec_wildcard()
    ensures { (held : Held) (now : ℕ) (apex name : List Label) (qtype : ℕ) (covering : NsecRec)
        (proof : Proof)
        → IsAsked apex name qtype → IsCover held now apex name covering
        → answer_by_wildcard held now apex qtype (source_of covering name) (Nsec covering ∷ [])
        ≡ Some proof
        → IsSound name qtype proof }
{}

/// No data by a wildcard's NSEC record, or by one that shows the wildcard empty, is sound.
pub fn no_data_by_an_nsec_wildcard()
    ensures { (held : Held) (now : ℕ) (apex name : List Label) (qtype : ℕ)
        (covering at_source : NsecRec) (proof : Proof)
        → IsAsked apex name qtype → IsCover held now apex name covering
        → nsec_for held now apex (source_of covering name) ≡ Some at_source
        → no_data_by_wildcard held now apex qtype (source_of covering name) covering at_source
        ≡ Some proof
        → IsSound name qtype proof }
{}

/// A name error by NSEC records that cover the name and its wildcard is sound.
pub fn name_error_by_nsecs()
    ensures { (held : Held) (now : ℕ) (apex name : List Label) (qtype : ℕ)
        (covering at_source : NsecRec) (proof : Proof)
        → IsAsked apex name qtype → IsCover held now apex name covering
        → nsec_for held now apex (source_of covering name) ≡ Some at_source
        → name_error held now apex (source_of covering name) covering at_source ≡ Some proof
        → IsSound name qtype proof }
{}

/// What a zone's NSEC records prove is sound.
pub fn each_nsec_proof_is_sound()
    ensures { (held : Held) (now : ℕ) (apex name : List Label) (qtype : ℕ) (proof : Proof)
        → IsAsked apex name qtype → nsec_proof held now apex name qtype ≡ Some proof
        → IsSound name qtype proof }
{}
