ghost use Rattle.std.specs.Prelude.{[], ◌∷◌};
ghost use Rattle.dname.specs.declared.types.TheConstants.{A_TYPE, TXT_TYPE};
ghost use Rattle.denial_records.specs.declared.record.Record.TheVariants.{Nsec3, Set};
ghost use Rattle.denial_records.specs.declared.verdict.Kind.TheVariants as kinds;
ghost use Rattle.zone_meaning.specs.Examples.{a_example, w_example};
ghost use Rattle.soundness.specs.Examples.{soa, IsWorked};
ghost use Rattle.soundness.specs.HashedExamples.{hashed_zone, c_example, x_w_example, at_example, at_a, at_star_w, at_w, opted_out_at_a, hashed_denied, hashed_answered, star_w_set, hashed_held};

/// By the hashes of SHA-1: no data by a match, at a host, at an empty non-terminal and where Opt-Out is set.
pub fn a_hashed_match_is_worked()
    ensures a_txt { IsWorked hashed_zone hashed_held
        a_example TXT_TYPE (hashed_denied kinds.NoData (at_a ∷ [])) }
    ensures w_a { IsWorked hashed_zone hashed_held
        w_example A_TYPE (hashed_denied kinds.NoData (at_w ∷ [])) }
    ensures opted_out { IsWorked hashed_zone (Set soa ∷ Nsec3 opted_out_at_a ∷ [])
        a_example TXT_TYPE (hashed_denied kinds.NoData (opted_out_at_a ∷ [])) }
{}

/// By the hashes of SHA-1: a name error, and a wildcard's answer and its no data. One record may show two things.
pub fn a_hashed_cover_is_worked()
    ensures c_a { IsWorked hashed_zone hashed_held
        c_example A_TYPE (hashed_denied kinds.NxDomain (at_example ∷ at_a ∷ [])) }
    ensures x_w_a { IsWorked hashed_zone hashed_held
        x_w_example A_TYPE (hashed_answered star_w_set (at_w ∷ [])) }
    ensures x_w_txt { IsWorked hashed_zone hashed_held
        x_w_example TXT_TYPE (hashed_denied kinds.NoData (at_w ∷ at_star_w ∷ [])) }
{}
