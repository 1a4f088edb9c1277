ghost use Rattle.std.specs.Prelude.{[], ◌∷◌, codes};
ghost use Rattle.dname.specs.Name.{wire_of, asterisk};
ghost use Rattle.dname.specs.declared.types.TheConstants.{A_TYPE, CNAME_TYPE, DNAME_TYPE, DS_TYPE, MX_TYPE, NSEC3_TYPE, NSEC_TYPE, NS_TYPE, RRSIG_TYPE, SRV_TYPE, TXT_TYPE};
ghost use Rattle.zone_meaning.specs.Zone.{IsZone};
ghost use Rattle.zone_meaning.specs.Lookup.{LooksUp, Answer, Alias, NoData, NxDomain, Referral, Redirect, Undefined};
ghost use Rattle.zone_meaning.specs.Consistent.{IsConsistentSet, IsConsistentNsec};
ghost use Rattle.zone_meaning.specs.Denial.{IsMatchWithoutType};
ghost use Rattle.zone_meaning.specs.Examples.{record_of, soa_data, glue_at_cut, glue_below_cut, ns_set_cut_short, example, a_example, b_example, sub_example, address, two_hosts, nsec_at_a, soa_set, one_cut, nsec_at_cut, wildcards, wildcard_text, wildcard_mx, asterisk_example, host1_example, tcp_host1_example, subdel_example, turns, alias_example, moved_example, low_moved_example, both_example, low_both_example, cut_example, dname_example, no_records};

/// A zone of two hosts, an NSEC from one to the other, and the set of its SOA.
pub fn a_zone_of_two_hosts()
    ensures zone { IsZone two_hosts }
    ensures nsec { IsConsistentNsec two_hosts nsec_at_a }
    ensures soa { IsConsistentSet two_hosts soa_set }
    ensures denies_mx { IsMatchWithoutType nsec_at_a a_example MX_TYPE }
{}

/// A zone with a cut, glue at it and below it, and the NSEC at the cut.
pub fn a_zone_with_a_cut()
    ensures zone { IsZone one_cut }
    ensures nsec { IsConsistentNsec one_cut nsec_at_cut }
    ensures denies_ds { IsMatchWithoutType nsec_at_cut sub_example DS_TYPE }
    ensures not_a { IsMatchWithoutType nsec_at_cut sub_example A_TYPE → ⊥ }
    ensures parent { LooksUp one_cut sub_example DS_TYPE NoData }
    ensures child { LooksUp one_cut sub_example A_TYPE (Referral sub_example) }
    ensures glue { LooksUp one_cut (codes "ns" ∷ sub_example) A_TYPE (Referral sub_example) }
{}

/// Lists of records that are no zone, and records that are not true of a zone, each with one thing wrong.
pub fn what_is_not_true_of_a_zone()
    ensures owner_outside { IsZone
        (record two_hosts { records = record_of [] A_TYPE (address 1) ∷ [] }) → ⊥ }
    ensures rrsig_kept { IsZone
        (record two_hosts { records = record_of example RRSIG_TYPE [] ∷ [] }) → ⊥ }
    ensures nsec_kept { IsZone
        (record two_hosts { records = record_of example NSEC_TYPE [] ∷ [] }) → ⊥ }
    ensures nsec3_kept { IsZone
        (record two_hosts { records = record_of example NSEC3_TYPE [] ∷ [] }) → ⊥ }

    ensures next_skipped { IsConsistentNsec two_hosts (record nsec_at_a { next = example })
        → ⊥ }
    ensures type_missing { IsConsistentNsec two_hosts
        (record nsec_at_a { types = RRSIG_TYPE ∷ NSEC_TYPE ∷ [] }) → ⊥ }
    ensures type_added { IsConsistentNsec two_hosts
        (record nsec_at_a { types = A_TYPE ∷ MX_TYPE ∷ RRSIG_TYPE ∷ NSEC_TYPE ∷ [] }) → ⊥ }
    ensures ds_added { IsConsistentNsec one_cut
        (record nsec_at_cut { types = NS_TYPE ∷ DS_TYPE ∷ RRSIG_TYPE ∷ NSEC_TYPE ∷ [] }) → ⊥ }
    ensures next_is_glue { IsConsistentNsec one_cut
        (record nsec_at_cut { next = codes "ns" ∷ sub_example }) → ⊥ }

    ensures item_missing { IsConsistentSet wildcards ns_set_cut_short → ⊥ }
    ensures item_added { IsConsistentSet two_hosts (record soa_set { items = soa_data ∷ [] ∷ [] })
        → ⊥ }
    ensures no_items { IsConsistentSet two_hosts (record soa_set { rtype = MX_TYPE; items = [] })
        → ⊥ }
    ensures of_another_zone { IsConsistentSet two_hosts (record soa_set { zone = [] }) → ⊥ }
    ensures glue_at_the_cut { IsConsistentSet one_cut glue_at_cut → ⊥ }
    ensures glue_below_the_cut { IsConsistentSet one_cut glue_below_cut → ⊥ }
{}

/// The zone of RFC 4592 (section 2.2.1) with the answers that are said of it there, and that of its empty non-terminal
/// (section 2.2.2).
pub fn the_zone_of_rfc_4592()
    ensures zone { IsZone wildcards }
    ensures host3_mx { LooksUp wildcards (codes "host3" ∷ example) MX_TYPE
        (Answer (wildcard_mx ∷ [])) }
    ensures host3_a { LooksUp wildcards (codes "host3" ∷ example) A_TYPE NoData }
    ensures foo_bar_txt { LooksUp wildcards (codes "foo" ∷ codes "bar" ∷ example) TXT_TYPE
        (Answer (wildcard_text ∷ [])) }
    ensures host1_mx { LooksUp wildcards host1_example MX_TYPE NoData }
    ensures sub_mx { LooksUp wildcards (codes "sub" ∷ asterisk_example) MX_TYPE NoData }
    ensures telnet_srv { LooksUp wildcards
        (codes "_telnet" ∷ tcp_host1_example) SRV_TYPE NxDomain }
    ensures subdel_a { LooksUp wildcards (codes "host" ∷ subdel_example) A_TYPE
        (Referral subdel_example) }
    ensures ghost_mx { LooksUp wildcards (codes "ghost" ∷ asterisk_example) MX_TYPE NxDomain }
    ensures empty_non_terminal { LooksUp wildcards tcp_host1_example SRV_TYPE NoData }
{}

/// A lookup at every turn that it can take.
pub fn lookups_at_every_turn()
    ensures zone { IsZone turns }
    ensures least_alias { LooksUp turns alias_example A_TYPE (Alias (wire_of a_example)) }
    ensures both_aliases { LooksUp turns alias_example CNAME_TYPE
        (Answer (wire_of a_example ∷ wire_of b_example ∷ [])) }
    ensures at_the_dname { LooksUp turns moved_example A_TYPE NoData }
    ensures the_dname { LooksUp turns moved_example DNAME_TYPE (Answer (wire_of a_example ∷ [])) }
    ensures below_the_dname { LooksUp turns (codes "x" ∷ moved_example) A_TYPE
        (Redirect moved_example) }
    ensures topmost_dname { LooksUp turns (codes "x" ∷ low_moved_example) A_TYPE
        (Redirect moved_example) }
    ensures cut_first { LooksUp turns (codes "x" ∷ both_example) A_TYPE (Referral both_example) }
    ensures topmost_cut { LooksUp turns (codes "x" ∷ low_both_example) A_TYPE
        (Referral both_example) }
    ensures ds_at_the_cut { LooksUp turns both_example DS_TYPE NoData }
    ensures wildcard_cut { LooksUp turns (codes "x" ∷ cut_example) A_TYPE Undefined }
    ensures wildcard_dname { LooksUp turns (codes "x" ∷ dname_example) MX_TYPE Undefined }
    ensures wildcard_a { LooksUp turns (codes "x" ∷ dname_example) A_TYPE
        (Answer (address 2 ∷ [])) }
    ensures no_name { LooksUp turns (codes "x" ∷ a_example) A_TYPE NxDomain }
    ensures nothing_at_all { LooksUp no_records example A_TYPE NxDomain }
{}
