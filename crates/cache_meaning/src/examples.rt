ghost use Rattle.std.specs.Prelude.{◌≡◌, [], ◌∷◌, true, false, None};
ghost use Rattle.dname.specs.declared.types.TheConstants.{A_TYPE, TXT_TYPE, DS_TYPE};
ghost use Rattle.denial_records.specs.declared.record.Record.TheVariants.{Set};
ghost use Rattle.cache_meaning.specs.Prove.{proof_of};
ghost use Rattle.cache_meaning.specs.Examples.{example, a_example, b_example, d_example, f_example};
ghost use Rattle.cache_meaning.specs.Examples.{w_example, y_example, z_example, wildcard, below};
ghost use Rattle.cache_meaning.specs.Examples.{before_asterisk, later, set_at, apex_to, from_to};
ghost use Rattle.cache_meaning.specs.Examples.{cut_to, ds_to, dname_to, hashed_apex, hashed_a, nsec_chain};
ghost use Rattle.cache_meaning.specs.Examples.{nsec3_chain, proved_by, by_nsec, by_nsec3, answer};
ghost use Rattle.cache_meaning.specs.Examples.{no_data, name_error};

/// The set at a name is the answer until it expires.
pub fn a_held_set()
    ensures held { by_nsec (Set (set_at a_example A_TYPE) ∷ []) a_example A_TYPE
        ≡ answer (set_at a_example A_TYPE) [] }
    ensures expired { let set = Set (set_at a_example A_TYPE) in
        proof_of (record { records = set ∷ []; chains = [] }) later a_example A_TYPE ≡ None }
{}

/// A name error by two NSEC records, and by one that stands once in the proof. The wildcard has to be denied.
pub fn name_errors()
    ensures by_two { by_nsec (apex_to a_example ∷ from_to b_example f_example ∷ []) d_example A_TYPE
        ≡ name_error (from_to b_example f_example ∷ apex_to a_example ∷ []) }
    ensures by_one { by_nsec (apex_to f_example ∷ []) d_example A_TYPE
        ≡ name_error (apex_to f_example ∷ []) }
    ensures wildcard_unknown { by_nsec (from_to b_example f_example ∷ []) d_example A_TYPE
        ≡ None }
{}

/// The last NSEC record of a zone goes over the end of the order, back to the apex.
pub fn an_arc_over_the_end()
    ensures { by_nsec (apex_to y_example ∷ from_to y_example example ∷ []) z_example A_TYPE
        ≡ name_error (from_to y_example example ∷ apex_to y_example ∷ []) }
{}

/// A name without records exists where the next name of an NSEC record is below it.
pub fn an_empty_name()
    ensures { let covering = from_to f_example (wildcard w_example) in
        by_nsec (covering ∷ []) w_example A_TYPE ≡ no_data (covering ∷ []) }
{}

/// A wildcard without records exists too: no data, by the record that covers the name and the one that shows the wildcard.
pub fn an_empty_wildcard()
    ensures { let host = below (wildcard example) in
        by_nsec (apex_to host ∷ from_to host f_example ∷ []) d_example A_TYPE
        ≡ no_data (from_to host f_example ∷ apex_to host ∷ []) }
{}

/// A wildcard answers for a name that an NSEC record covers, also for one that goes before it in canonical order. It denies
/// types that its own NSEC record lacks, and answers no DS.
pub fn a_wildcard()
    ensures answers { let set = set_at (wildcard w_example) A_TYPE in
        let covering = from_to (wildcard w_example) z_example in
        by_nsec (Set set ∷ covering ∷ []) (below w_example) A_TYPE
        ≡ answer set (covering ∷ []) }
    ensures before_it { let set = set_at (wildcard w_example) A_TYPE in
        let covering = from_to f_example (wildcard w_example) in
        by_nsec (Set set ∷ covering ∷ []) (before_asterisk w_example) A_TYPE
        ≡ answer set (covering ∷ []) }
    ensures denies { let covering = from_to (wildcard w_example) z_example in
        by_nsec (covering ∷ []) (below w_example) TXT_TYPE ≡ no_data (covering ∷ []) }
    ensures no_ds { let set = set_at (wildcard w_example) DS_TYPE in
        let covering = ds_to (wildcard w_example) z_example in
        by_nsec (Set set ∷ covering ∷ []) (below w_example) DS_TYPE ≡ None }
{}

/// The NSEC record of a zone cut denies the DS and nothing else, and says nothing of the names below it; nor does that of a
/// DNAME's owner.
pub fn a_cut_and_a_dname()
    ensures of_ds { let cut = cut_to b_example f_example in
        by_nsec (apex_to b_example ∷ cut ∷ []) b_example DS_TYPE ≡ no_data (cut ∷ []) }
    ensures at_cut { let cut = cut_to b_example f_example in
        by_nsec (apex_to b_example ∷ cut ∷ []) b_example A_TYPE ≡ None }
    ensures below_cut { let cut = cut_to b_example f_example in
        by_nsec (apex_to b_example ∷ cut ∷ []) (below b_example) A_TYPE ≡ None }
    ensures below_dname { let moved = dname_to b_example f_example in
        by_nsec (apex_to b_example ∷ moved ∷ []) (below b_example) A_TYPE ≡ None }
{}

/// An NSEC3 record that matches denies, whatever its Opt-Out flag. One that covers denies only with the flag clear.
pub fn opt_out()
    ensures matched { by_nsec3 (hashed_apex ∷ hashed_a true ∷ []) a_example TXT_TYPE
        ≡ no_data (hashed_a true ∷ []) }
    ensures covered { by_nsec3 (hashed_apex ∷ hashed_a false ∷ []) d_example A_TYPE
        ≡ name_error (hashed_apex ∷ hashed_a false ∷ []) }
    ensures in_a_span { by_nsec3 (hashed_apex ∷ hashed_a true ∷ []) d_example A_TYPE ≡ None }
{}

/// The newer of a zone's chains is asked first, and the older where the newer proves nothing.
pub fn two_chains()
    ensures nsec_is_newer { let held = from_to a_example b_example ∷ hashed_a true ∷ [] in
        proved_by (nsec_chain ∷ nsec3_chain ∷ []) held a_example TXT_TYPE
        ≡ no_data (from_to a_example b_example ∷ []) }
    ensures nsec3_is_newer { let held = from_to a_example b_example ∷ hashed_a true ∷ [] in
        proved_by (nsec3_chain ∷ nsec_chain ∷ []) held a_example TXT_TYPE
        ≡ no_data (hashed_a true ∷ []) }
    ensures older_serves { let held = from_to d_example f_example ∷ hashed_a true ∷ [] in
        proved_by (nsec3_chain ∷ nsec_chain ∷ []) held d_example TXT_TYPE
        ≡ no_data (from_to d_example f_example ∷ []) }
{}
