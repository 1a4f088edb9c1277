ghost use Rattle.std.specs.Prelude.{◌≡◌, ℕ, List, [], ◌∷◌, Some};
ghost use Rattle.dname.specs.Name.{Label, asterisk};
ghost use Rattle.denial_records.specs.Proof.{Proof};
ghost use Rattle.denial_records.specs.declared.nsec3_rec.Nsec3Rec.{Nsec3Rec};
ghost use Rattle.denial_records.specs.declared.record.Record.TheVariants.{Nsec3};
ghost use Rattle.cache_meaning.specs.Held.{Held, HashParameters};
ghost use Rattle.cache_meaning.specs.Evidence.{nsec3_for};
ghost use Rattle.cache_meaning.specs.NsecSteps.{answer_by_wildcard};
ghost use Rattle.cache_meaning.specs.Nsec3Steps.{no_data_by_match, no_data_by_wildcard, name_error, nsec3_proof};
ghost use Rattle.soundness.specs.Steps.{IsAsked, IsNextCloserCover, IsEncloserMatch};
ghost use Rattle.soundness.specs.Sound.{IsSound};

/// No data by the name's own NSEC3 record is sound, whatever its Opt-Out flag.
pub fn no_data_by_an_nsec3_match()
    ensures { (held : Held) (now : ℕ) (apex : List Label) (parameters : HashParameters)
        (name : List Label) (qtype : ℕ) (matching : Nsec3Rec) (proof : Proof)
        → IsAsked apex name qtype → nsec3_for held now apex parameters name ≡ Some matching
        → no_data_by_match held now apex parameters name qtype matching ≡ Some proof
        → IsSound name qtype proof }
{}

/// An answer by a wildcard's set, where an NSEC3 record covers the next closer name, is sound.
pub fn answer_by_an_nsec3_wildcard()
    ensures { (held : Held) (now : ℕ) (apex : List Label) (parameters : HashParameters)
        (name : List Label) (qtype : ℕ) (label : Label) (encloser : List Label)
        (covering : Nsec3Rec) (proof : Proof)
        → IsAsked apex name qtype
        → IsNextCloserCover held now apex parameters name label encloser covering
        → answer_by_wildcard held now apex qtype (asterisk ∷ encloser) (Nsec3 covering ∷ [])
        ≡ Some proof
        → IsSound name qtype proof }
{}

/// No data by the NSEC3 records of an encloser, of the next closer name and of the wildcard is sound.
pub fn no_data_by_an_nsec3_wildcard()
    ensures { (held : Held) (now : ℕ) (apex : List Label) (parameters : HashParameters)
        (name : List Label) (qtype : ℕ) (label : Label) (encloser : List Label)
        (covering matching at_source : Nsec3Rec) (proof : Proof)
        → IsAsked apex name qtype
        → IsNextCloserCover held now apex parameters name label encloser covering
        → IsEncloserMatch held now apex parameters encloser matching
        → nsec3_for held now apex parameters (asterisk ∷ encloser) ≡ Some at_source
        → no_data_by_wildcard held now apex parameters qtype (asterisk ∷ encloser) matching covering
        at_source
        ≡ Some proof
        → IsSound name qtype proof }
{}

/// A name error by the NSEC3 records of an encloser, of the next closer name and of the wildcard is sound.
pub fn name_error_by_nsec3s()
    ensures { (held : Held) (now : ℕ) (apex : List Label) (parameters : HashParameters)
        (name : List Label) (qtype : ℕ) (label : Label) (encloser : List Label)
        (covering matching at_source : Nsec3Rec) (proof : Proof)
        → IsAsked apex name qtype
        → IsNextCloserCover held now apex parameters name label encloser covering
        → IsEncloserMatch held now apex parameters encloser matching
        → nsec3_for held now apex parameters (asterisk ∷ encloser) ≡ Some at_source
        → name_error held now apex parameters (asterisk ∷ encloser) matching covering at_source
        ≡ Some proof
        → IsSound name qtype proof }
{}

/// What the NSEC3 records of one chain of a zone prove is sound.
pub fn each_nsec3_proof_is_sound()
    ensures { (held : Held) (now : ℕ) (apex : List Label) (parameters : HashParameters)
        (name : List Label) (qtype : ℕ) (proof : Proof)
        → IsAsked apex name qtype
        → nsec3_proof held now apex parameters name qtype ≡ Some proof
        → IsSound name qtype proof }
{}
