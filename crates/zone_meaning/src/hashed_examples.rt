ghost use Rattle.std.specs.Prelude.{◌≡◌, ◌≢◌, ℕ, List, [], ◌∷◌, codes, false};
ghost use Rattle.std.specs.List.{Contains};
ghost use Rattle.dname.specs.Arc.{IsInside};
ghost use Rattle.dname.specs.Name.{Label, IsUnder, asterisk, wire_of};
ghost use Rattle.dname.specs.declared.types.TheConstants.{A_TYPE, DS_TYPE, MX_TYPE, RRSIG_TYPE, TXT_TYPE};
ghost use Rattle.zone_meaning.specs.Zone.{IsZone};
ghost use Rattle.zone_meaning.specs.Lookup.{LooksUp, Answer, Alias, NoData, NxDomain, Referral, Redirect, Undefined};
ghost use Rattle.zone_meaning.specs.Consistent.{IsConsistentSet};
ghost use Rattle.zone_meaning.specs.Denial.{DeniesType, DeniesSynthesis};
ghost use Rattle.zone_meaning.specs.Examples.{example, a_example, alias_example, two_hosts, asterisk_example, w_example, star_w_example, wildcard_mx};
ghost use Rattle.zone_meaning.specs.DenialExamples.{one_alias, wildcard_alias, wildcard_cut, ds_set, wildcard_dname, one_wildcard};
ghost use Rattle.zone_meaning.specs.Hashed.{IsConsistentNsec3, IsClashFree, hash_cmp};
ghost use Rattle.zone_meaning.specs.HashedDenial.{IsHashedMatchWithoutType, IsNoHashedName, IsNextCloserMissing, IsOpenEncloser, IsHashedNameError, IsHashedWildcardWithoutType, IsHashedWildcardAnswer};
ghost use Rattle.zone_meaning.specs.HashedExamples.{digits, hashed_zone, nsec3_of, nsec3_at_apex, nsec3_at_ns1, nsec3_at_a, nsec3_at_x_w, nsec3_at_y_w, nsec3_at_w, nsec3_at_star, nsec3_at_xx, star_mx_set, opt_out_zone, nsec3_opting_out, opt_out_apex, opt_out_x_w, nsec3_at_c, nsec3_at_alias, nsec3_at_wildcard_alias, hashed_dname, nsec3_at_dname, nsec3_at_wildcard_cut, nsec3_at_wildcard_dname, nsec3_of_all, nsec3_of_most, nsec3_of_others, one_name, nsec3_alone, c_example, ns1_example, xx_example, x_w_example, y_w_example};

/// NSEC3 records of a part of the zone of RFC 5155 (appendix A), and what they prove: no data by a match, at an empty
/// non-terminal too, a name error, and by a wildcard an answer and no data (appendix B).
pub fn what_the_nsec3s_prove()
    ensures zone { IsZone hashed_zone }
    ensures at_apex { IsConsistentNsec3 hashed_zone nsec3_at_apex }
    ensures at_ns1 { IsConsistentNsec3 hashed_zone nsec3_at_ns1 }
    ensures at_a { IsConsistentNsec3 hashed_zone nsec3_at_a }
    ensures at_x_w { IsConsistentNsec3 hashed_zone nsec3_at_x_w }
    ensures at_y_w { IsConsistentNsec3 hashed_zone nsec3_at_y_w }
    ensures at_w { IsConsistentNsec3 hashed_zone nsec3_at_w }
    ensures at_star { IsConsistentNsec3 hashed_zone nsec3_at_star }
    ensures at_xx { IsConsistentNsec3 hashed_zone nsec3_at_xx }
    ensures set { IsConsistentSet hashed_zone star_mx_set }
    ensures ns1_free { IsClashFree hashed_zone digits ns1_example }
    ensures y_w_free { IsClashFree hashed_zone digits y_w_example }
    ensures a_c_x_w_free { IsClashFree hashed_zone digits (codes "a" ∷ codes "c" ∷ x_w_example) }
    ensures a_z_w_free { IsClashFree hashed_zone digits (codes "a" ∷ codes "z" ∷ w_example) }
    ensures ns1_mx { IsHashedMatchWithoutType nsec3_at_ns1 ns1_example MX_TYPE }
    ensures y_w_a { IsHashedMatchWithoutType nsec3_at_y_w y_w_example A_TYPE }
    ensures a_c_x_w { IsHashedNameError nsec3_at_apex nsec3_at_x_w nsec3_at_a
        (codes "a" ∷ codes "c" ∷ x_w_example) x_w_example }
    ensures a_z_w_mx { IsHashedWildcardAnswer nsec3_at_w star_mx_set
        (codes "a" ∷ codes "z" ∷ w_example) w_example MX_TYPE }
    ensures a_z_w_txt { IsHashedWildcardWithoutType nsec3_at_w nsec3_at_star
        (codes "a" ∷ codes "z" ∷ w_example) w_example TXT_TYPE }
{}

/// What that zone answers to those names and types.
pub fn the_zone_of_rfc_5155()
    ensures ns1_mx { LooksUp hashed_zone ns1_example MX_TYPE NoData }
    ensures y_w_a { LooksUp hashed_zone y_w_example A_TYPE NoData }
    ensures a_c_x_w { LooksUp hashed_zone (codes "a" ∷ codes "c" ∷ x_w_example) A_TYPE NxDomain }
    ensures a_z_w_mx { LooksUp hashed_zone (codes "a" ∷ codes "z" ∷ w_example) MX_TYPE
        (Answer (wildcard_mx ∷ [])) }
    ensures a_z_w_txt { LooksUp hashed_zone (codes "a" ∷ codes "z" ∷ w_example) TXT_TYPE NoData }
{}

/// Of an NSEC3 with Opt-Out, which leaves out a cut, the owner still denies a type; and an NSEC3 of that cut denies its DS.
pub fn an_opt_out_match()
    ensures zone { IsZone opt_out_zone }
    ensures opting_out { IsConsistentNsec3 opt_out_zone nsec3_opting_out }
    ensures free { IsClashFree opt_out_zone digits a_example }
    ensures denies { IsHashedMatchWithoutType nsec3_opting_out a_example MX_TYPE }
    ensures no_data { LooksUp opt_out_zone a_example MX_TYPE NoData }
    ensures at_c { IsConsistentNsec3 opt_out_zone nsec3_at_c }
    ensures c_free { IsClashFree opt_out_zone digits c_example }
    ensures denies_ds { IsHashedMatchWithoutType nsec3_at_c c_example DS_TYPE }
    ensures no_ds { LooksUp opt_out_zone c_example DS_TYPE NoData }
{}

/// NSEC3 records that are not true of a zone, each with one thing wrong.
pub fn what_is_not_true_of_a_hashed_zone()
    ensures of_another_zone { IsConsistentNsec3 hashed_zone (record nsec3_at_x_w { zone = [] })
        → ⊥ }
    ensures of_no_name { IsConsistentNsec3 hashed_zone
        (record nsec3_at_apex { owner = codes "0va5" }) → ⊥ }
    ensures type_missing { IsConsistentNsec3 hashed_zone
        (record nsec3_at_x_w { types = RRSIG_TYPE ∷ [] }) → ⊥ }
    ensures empty_name_left_out { IsConsistentNsec3 hashed_zone
        (record nsec3_at_x_w { next = codes "k8ud" }) → ⊥ }
    ensures cut_left_out { IsConsistentNsec3 opt_out_zone
        (record nsec3_opting_out { opt_out = false }) → ⊥ }
{}

/// Each condition of a proof by hashes fails in a zone that answers something else, and the others hold there.
pub fn what_each_hash_condition_keeps_out()
    ensures alias_at_the_name { IsConsistentNsec3 one_alias nsec3_at_alias
        × IsClashFree one_alias digits alias_example
        × (Contains nsec3_at_alias.types A_TYPE → ⊥)
        × (DeniesType nsec3_at_alias.types alias_example example A_TYPE → ⊥)
        × LooksUp one_alias alias_example A_TYPE (Alias (wire_of a_example)) }
    ensures cut_at_the_name { IsConsistentNsec3 opt_out_zone nsec3_at_c
        × IsClashFree opt_out_zone digits c_example
        × (Contains nsec3_at_c.types A_TYPE → ⊥)
        × (DeniesType nsec3_at_c.types c_example example A_TYPE → ⊥)
        × LooksUp opt_out_zone c_example A_TYPE (Referral c_example) }
    ensures clash_at_the_name { IsConsistentNsec3 two_hosts nsec3_of_all
        × IsHashedMatchWithoutType nsec3_of_all xx_example MX_TYPE
        × (IsClashFree two_hosts nsec3_of_all.hash xx_example → ⊥)
        × LooksUp two_hosts xx_example MX_TYPE NxDomain }
    ensures opted_out { IsConsistentNsec3 opt_out_zone nsec3_opting_out
        × IsConsistentNsec3 opt_out_zone opt_out_apex
        × IsConsistentNsec3 opt_out_zone opt_out_x_w
        × IsClashFree opt_out_zone digits (codes "mc" ∷ c_example)
        × IsInside hash_cmp nsec3_opting_out.owner nsec3_opting_out.next (digits c_example)
        × IsOpenEncloser opt_out_apex example
        × IsNoHashedName opt_out_x_w asterisk_example
        × (IsNoHashedName nsec3_opting_out c_example → ⊥)
        × LooksUp opt_out_zone (codes "mc" ∷ c_example) A_TYPE (Referral c_example) }
    ensures below_a_cut { IsClashFree hashed_zone digits (codes "x" ∷ a_example)
        × IsNextCloserMissing nsec3_at_a (codes "x" ∷ a_example) a_example
        × IsNoHashedName nsec3_at_a (asterisk ∷ a_example)
        × (IsOpenEncloser nsec3_at_a a_example → ⊥)
        × LooksUp hashed_zone (codes "x" ∷ a_example) A_TYPE (Referral a_example) }
    ensures below_a_dname { IsConsistentNsec3 hashed_dname nsec3_at_dname
        × IsClashFree hashed_dname digits (codes "x" ∷ a_example)
        × IsNextCloserMissing nsec3_at_dname (codes "x" ∷ a_example) a_example
        × IsNoHashedName nsec3_at_dname (asterisk ∷ a_example)
        × (IsOpenEncloser nsec3_at_dname a_example → ⊥)
        × LooksUp hashed_dname (codes "x" ∷ a_example) A_TYPE (Redirect a_example) }
    ensures name_alone_covered { IsNoHashedName nsec3_at_apex (codes "c" ∷ x_w_example)
        × IsUnder (codes "c" ∷ x_w_example) w_example
        × IsOpenEncloser nsec3_at_w w_example
        × (IsNextCloserMissing nsec3_at_apex (codes "c" ∷ x_w_example) w_example → ⊥)
        × LooksUp hashed_zone (codes "c" ∷ x_w_example) MX_TYPE NxDomain }
    ensures clash_at_the_encloser { IsConsistentNsec3 one_wildcard nsec3_of_others
        × IsHashedNameError nsec3_of_others nsec3_of_others nsec3_of_others
        (codes "q" ∷ xx_example) xx_example
        × (IsClashFree one_wildcard nsec3_of_others.hash (codes "q" ∷ xx_example) → ⊥)
        × LooksUp one_wildcard (codes "q" ∷ xx_example) A_TYPE NoData }
    ensures wildcard_with_cname { IsConsistentNsec3 wildcard_alias nsec3_at_wildcard_alias
        × IsClashFree wildcard_alias digits xx_example
        × IsNextCloserMissing nsec3_at_wildcard_alias xx_example example
        × (Contains nsec3_at_wildcard_alias.types A_TYPE → ⊥)
        × (DeniesSynthesis nsec3_at_wildcard_alias.types A_TYPE → ⊥)
        × LooksUp wildcard_alias xx_example A_TYPE (Alias (wire_of a_example)) }
    ensures wildcard_with_ns { IsConsistentNsec3 wildcard_cut nsec3_at_wildcard_cut
        × IsClashFree wildcard_cut digits xx_example
        × IsNextCloserMissing nsec3_at_wildcard_cut xx_example example
        × (Contains nsec3_at_wildcard_cut.types A_TYPE → ⊥)
        × (DeniesSynthesis nsec3_at_wildcard_cut.types A_TYPE → ⊥)
        × LooksUp wildcard_cut xx_example A_TYPE Undefined }
    ensures wildcard_with_dname { IsConsistentNsec3 wildcard_dname nsec3_at_wildcard_dname
        × IsClashFree wildcard_dname digits xx_example
        × IsNextCloserMissing nsec3_at_wildcard_dname xx_example example
        × (Contains nsec3_at_wildcard_dname.types A_TYPE → ⊥)
        × (DeniesSynthesis nsec3_at_wildcard_dname.types A_TYPE → ⊥)
        × LooksUp wildcard_dname xx_example A_TYPE Undefined }
    ensures ds_of_a_wildcard { IsConsistentSet wildcard_cut ds_set
        × IsNextCloserMissing nsec3_at_wildcard_cut xx_example example
        × (IsHashedWildcardAnswer nsec3_at_wildcard_cut ds_set xx_example example DS_TYPE → ⊥)
        × LooksUp wildcard_cut xx_example DS_TYPE Undefined }
    ensures clash_at_the_wildcard { IsConsistentNsec3 two_hosts nsec3_of_most
        × IsHashedWildcardWithoutType nsec3_of_most nsec3_of_most xx_example example MX_TYPE
        × (IsClashFree two_hosts nsec3_of_most.hash xx_example → ⊥)
        × LooksUp two_hosts xx_example MX_TYPE NxDomain }
{}

/// By any hash, that of the standard too, the NSEC3 of a zone's only name is true of it, and denies the names that the hash
/// tells from it.
pub fn a_zone_of_one_name()
    ensures zone { IsZone one_name }
    ensures nsec3 { (hash : List Label → List ℕ)
        → IsConsistentNsec3 one_name (nsec3_alone hash) }
    ensures free { (hash : List Label → List ℕ)
        → hash a_example ≢ hash example → hash asterisk_example ≢ hash example
        → IsClashFree one_name hash a_example }
    ensures no_a { (hash : List Label → List ℕ)
        → hash a_example ≢ hash example → hash asterisk_example ≢ hash example
        → IsHashedNameError (nsec3_alone hash) (nsec3_alone hash) (nsec3_alone hash)
        a_example example }
{}
