ghost use Rattle.std.specs.Prelude.{◌∷◌, [], List, codes};
ghost use Rattle.std.specs.List.{Contains};
ghost use Rattle.dname.specs.Arc.{IsInside};
ghost use Rattle.dname.specs.Name.{Label, IsUnder, asterisk, canonical_cmp, wire_of};
ghost use Rattle.dname.specs.declared.types.TheConstants.{A_TYPE, DS_TYPE, MX_TYPE};
ghost use Rattle.zone_meaning.specs.Zone.{IsZone, IsLive};
ghost use Rattle.zone_meaning.specs.Lookup.{LooksUp, Answer, Alias, NoData, NxDomain, Referral, Redirect, Undefined, IsZoneFor};
ghost use Rattle.zone_meaning.specs.Consistent.{NsecPart, IsConsistentSet, IsConsistentNsec, TypesAgree};
ghost use Rattle.zone_meaning.specs.Denial.{DeniesType, DeniesSynthesis, IsMatchWithoutType, SpeaksBelow, IsNoName, IsEmptyName, IsEncloserBy, IsMissingName, IsNameError, IsWildcardWithoutType, IsEmptyWildcard, IsWildcardAnswer};
ghost use Rattle.zone_meaning.specs.Examples.{example, a_example, sub_example, w_example, address, moved_example, alias_example, wildcards, wildcard_mx, asterisk_example, host1_example, tcp_host1_example, one_cut, nsec_at_cut};
ghost use Rattle.zone_meaning.specs.DenialExamples.{nsec_at_wildcard, nsec_at_host1, nsec_at_ssh1, nsec_at_ssh2, wildcard_set, low_wildcard, nsec_before_star, star_set, before_star_example, empty_wildcard, nsec_before_wildcard, nsec_after_wildcard, v_example, one_alias, nsec_at_alias, wildcard_alias, nsec_at_wildcard_alias, wildcard_cut, ds_set, nsec_at_wildcard_cut, wildcard_dname, nsec_at_wildcard_dname, one_dname, nsec_at_dname, parent_zone, child_zone, nsec_of_child, one_wildcard, nsec_at_host, nsec_of_no_owner, nsec_to_no_owner, y_example, x_y_example};

/// The NSEC records of the zone of RFC 4592, and what they prove: no data by a match, a name error by one record and by
/// two, an empty non-terminal, and by a wildcard no data and an answer.
pub fn what_the_nsecs_prove()
    ensures at_wildcard { IsConsistentNsec wildcards nsec_at_wildcard }
    ensures at_host1 { IsConsistentNsec wildcards nsec_at_host1 }
    ensures at_ssh1 { IsConsistentNsec wildcards nsec_at_ssh1 }
    ensures at_ssh2 { IsConsistentNsec wildcards nsec_at_ssh2 }
    ensures set { IsConsistentSet wildcards wildcard_set }
    ensures host1_mx { IsMatchWithoutType nsec_at_host1 host1_example MX_TYPE }
    ensures ghost_name { IsNameError nsec_at_wildcard nsec_at_wildcard
        (codes "ghost" ∷ asterisk_example) asterisk_example }
    ensures telnet_name { IsNameError nsec_at_ssh1 nsec_at_host1
        (codes "_telnet" ∷ tcp_host1_example) tcp_host1_example }
    ensures tcp_name { IsEmptyName nsec_at_host1 tcp_host1_example }
    ensures host3_a { IsWildcardWithoutType nsec_at_ssh2 nsec_at_wildcard
        (codes "host3" ∷ example) example A_TYPE }
    ensures host3_mx { IsWildcardAnswer nsec_at_ssh2 wildcard_set
        (codes "host3" ∷ example) example MX_TYPE }
{}

/// A name that sorts before the asterisk, in the zone of the wildcard: one NSEC shows that it doesn't exist, and that `w`
/// is its closest encloser, so the wildcard answers; and no records that are true of the zone deny the name.
pub fn a_name_before_the_asterisk()
    ensures zone { IsZone low_wildcard }
    ensures nsec { IsConsistentNsec low_wildcard nsec_before_star }
    ensures set { IsConsistentSet low_wildcard star_set }
    ensures proves { IsWildcardAnswer nsec_before_star star_set
        before_star_example w_example A_TYPE }
    ensures looked { LooksUp low_wildcard before_star_example A_TYPE (Answer (address 1 ∷ [])) }
    ensures never_denied { (nsec source : NsecPart) (encloser : List Label)
        → IsConsistentNsec low_wildcard nsec → IsConsistentNsec low_wildcard source
        → IsNameError nsec source before_star_example encloser → ⊥ }
{}

/// A wildcard that is an empty non-terminal, and an arc that goes over the end of the order: there is no data, and no
/// records that are true of the zone prove a name error.
pub fn an_empty_wildcard()
    ensures zone { IsZone empty_wildcard }
    ensures before { IsConsistentNsec empty_wildcard nsec_before_wildcard }
    ensures after { IsConsistentNsec empty_wildcard nsec_after_wildcard }
    ensures proves { IsEmptyWildcard nsec_after_wildcard nsec_before_wildcard
        (codes "y" ∷ v_example) v_example }
    ensures looked { LooksUp empty_wildcard (codes "y" ∷ v_example) A_TYPE NoData }
    ensures never_denied { (nsec source : NsecPart) (encloser : List Label)
        → IsConsistentNsec empty_wildcard nsec → IsConsistentNsec empty_wildcard source
        → IsNameError nsec source (codes "y" ∷ v_example) encloser → ⊥ }
{}

/// Each condition of a proof by a match, a covered name and a wildcard fails in a zone that answers something else, and
/// the others hold there.
pub fn what_each_condition_keeps_out()
    ensures alias_at_the_name { IsConsistentNsec one_alias nsec_at_alias
        × (Contains nsec_at_alias.types A_TYPE → ⊥)
        × (DeniesType nsec_at_alias.types alias_example example A_TYPE → ⊥)
        × LooksUp one_alias alias_example A_TYPE (Alias (wire_of a_example)) }
    ensures cut_at_the_name { IsConsistentNsec one_cut nsec_at_cut
        × (Contains nsec_at_cut.types A_TYPE → ⊥)
        × (DeniesType nsec_at_cut.types sub_example example A_TYPE → ⊥)
        × LooksUp one_cut sub_example A_TYPE (Referral sub_example) }
    ensures below_a_cut { IsConsistentNsec one_cut nsec_at_cut
        × IsNoName nsec_at_cut (codes "x" ∷ sub_example)
        × IsEncloserBy nsec_at_cut (codes "x" ∷ sub_example) sub_example
        × IsNoName nsec_at_cut (asterisk ∷ sub_example)
        × (SpeaksBelow nsec_at_cut (codes "x" ∷ sub_example) → ⊥)
        × LooksUp one_cut (codes "x" ∷ sub_example) A_TYPE (Referral sub_example) }
    ensures below_a_dname { IsConsistentNsec one_dname nsec_at_dname
        × IsNoName nsec_at_dname (codes "x" ∷ moved_example)
        × IsEncloserBy nsec_at_dname (codes "x" ∷ moved_example) moved_example
        × IsNoName nsec_at_dname (asterisk ∷ moved_example)
        × (SpeaksBelow nsec_at_dname (codes "x" ∷ moved_example) → ⊥)
        × LooksUp one_dname (codes "x" ∷ moved_example) A_TYPE (Redirect moved_example) }
    ensures encloser_of_the_owner_alone { IsNoName nsec_before_star before_star_example
        × SpeaksBelow nsec_before_star before_star_example
        × IsUnder nsec_before_star.owner example
        × IsNoName nsec_before_star asterisk_example
        × (IsEncloserBy nsec_before_star before_star_example example → ⊥)
        × LooksUp low_wildcard before_star_example A_TYPE (Answer (address 1 ∷ [])) }
    ensures empty_is_no_cover { IsMissingName nsec_after_wildcard
        (codes "y" ∷ v_example) v_example
        × IsInside canonical_cmp nsec_before_wildcard.owner nsec_before_wildcard.next
        (asterisk ∷ v_example)
        × (IsNoName nsec_before_wildcard (asterisk ∷ v_example) → ⊥)
        × LooksUp empty_wildcard (codes "y" ∷ v_example) A_TYPE NoData }
    ensures cover_is_not_empty { IsConsistentNsec wildcards nsec_at_wildcard
        × IsInside canonical_cmp nsec_at_wildcard.owner nsec_at_wildcard.next
        (codes "ghost" ∷ asterisk_example)
        × (IsEmptyName nsec_at_wildcard (codes "ghost" ∷ asterisk_example) → ⊥)
        × LooksUp wildcards (codes "ghost" ∷ asterisk_example) MX_TYPE NxDomain }
    ensures wildcard_with_cname { IsConsistentNsec wildcard_alias nsec_at_wildcard_alias
        × IsMissingName nsec_at_wildcard_alias (codes "x" ∷ example) example
        × (Contains nsec_at_wildcard_alias.types A_TYPE → ⊥)
        × (DeniesSynthesis nsec_at_wildcard_alias.types A_TYPE → ⊥)
        × LooksUp wildcard_alias (codes "x" ∷ example) A_TYPE (Alias (wire_of a_example)) }
    ensures wildcard_with_ns { IsConsistentNsec wildcard_cut nsec_at_wildcard_cut
        × IsMissingName nsec_at_wildcard_cut (codes "x" ∷ example) example
        × (Contains nsec_at_wildcard_cut.types A_TYPE → ⊥)
        × (DeniesSynthesis nsec_at_wildcard_cut.types A_TYPE → ⊥)
        × LooksUp wildcard_cut (codes "x" ∷ example) A_TYPE Undefined }
    ensures wildcard_with_dname { IsConsistentNsec wildcard_dname nsec_at_wildcard_dname
        × IsMissingName nsec_at_wildcard_dname (codes "x" ∷ example) example
        × (Contains nsec_at_wildcard_dname.types A_TYPE → ⊥)
        × (DeniesSynthesis nsec_at_wildcard_dname.types A_TYPE → ⊥)
        × LooksUp wildcard_dname (codes "x" ∷ example) A_TYPE Undefined }
    ensures ds_of_a_wildcard { IsConsistentSet wildcard_cut ds_set
        × IsMissingName nsec_at_wildcard_cut (codes "x" ∷ example) example
        × (IsWildcardAnswer nsec_at_wildcard_cut ds_set (codes "x" ∷ example) example DS_TYPE
        → ⊥)
        × LooksUp wildcard_cut (codes "x" ∷ example) DS_TYPE Undefined }
{}

/// An NSEC has to have live ends: one whose owner or next owner is made up has all else that makes it true of the zone,
/// and proves something else than the zone answers.
pub fn why_ends_are_live()
    ensures zone { IsZone one_wildcard }
    ensures host { IsConsistentNsec one_wildcard nsec_at_host }
    ensures answer { LooksUp one_wildcard x_y_example MX_TYPE (Answer (wildcard_mx ∷ [])) }
    ensures answer_above { LooksUp one_wildcard y_example MX_TYPE (Answer (wildcard_mx ∷ [])) }

    ensures owner_made_up { IsLive one_wildcard nsec_of_no_owner.next
        × TypesAgree one_wildcard nsec_of_no_owner.owner nsec_of_no_owner.types
        × ((name : List Label) → IsLive one_wildcard name
        → IsInside canonical_cmp nsec_of_no_owner.owner nsec_of_no_owner.next name → ⊥)
        × IsNameError nsec_of_no_owner nsec_at_host x_y_example y_example
        × (IsConsistentNsec one_wildcard nsec_of_no_owner → ⊥) }
    ensures next_made_up { IsLive one_wildcard nsec_to_no_owner.owner
        × TypesAgree one_wildcard nsec_to_no_owner.owner nsec_to_no_owner.types
        × ((name : List Label) → IsLive one_wildcard name
        → IsInside canonical_cmp nsec_to_no_owner.owner nsec_to_no_owner.next name → ⊥)
        × IsEmptyName nsec_to_no_owner y_example
        × (IsConsistentNsec one_wildcard nsec_to_no_owner → ⊥) }
{}

/// A DS at a zone's own apex: its NSEC there denies one, and the zone above, which is the one for the question, has one.
pub fn a_ds_of_two_zones()
    ensures parent { IsZone parent_zone }
    ensures child { IsZone child_zone }
    ensures nsec { IsConsistentNsec child_zone nsec_of_child }
    ensures denies { IsMatchWithoutType nsec_of_child sub_example DS_TYPE }
    ensures no_data { LooksUp child_zone sub_example DS_TYPE NoData }
    ensures there { LooksUp parent_zone sub_example DS_TYPE (Answer (address 1 ∷ [])) }
    ensures for_the_parent { IsZoneFor parent_zone sub_example DS_TYPE }
    ensures not_for_the_child { IsZoneFor child_zone sub_example DS_TYPE → ⊥ }
{}
