ghost use Rattle.std.specs.Prelude.{◌≡◌, [], ◌∷◌, Some, codes};
ghost use Rattle.dname.specs.declared.types.TheConstants.{A_TYPE, DS_TYPE, IN_CLASS, TXT_TYPE};
ghost use Rattle.denial_records.specs.declared.record.Record.TheVariants.{Set};
ghost use Rattle.denial_records.specs.declared.verdict.Kind.TheVariants as kinds;
ghost use Rattle.zone_meaning.specs.Examples.{example, a_example, two_hosts, nsec_at_a, wildcards, asterisk_example, tcp_host1_example, one_cut, sub_example, nsec_at_cut};
ghost use Rattle.zone_meaning.specs.DenialExamples.{nsec_at_wildcard, nsec_at_host1, nsec_at_ssh1, nsec_at_ssh2, low_wildcard, before_star_example, nsec_before_star, star_set, empty_wildcard, nsec_before_wildcard, nsec_after_wildcard, v_example};
ghost use Rattle.cache_meaning.specs.Prove.{outcome_of};
ghost use Rattle.soundness.specs.Sound.{HasUsed, IsSound};
ghost use Rattle.soundness.specs.Examples.{y_example, one_host, nsec_to_host, nsec_to_low_wildcard, contradicting, kept_set, kept_nsec, IsWorked, denied, answered, nsecs_held, a_set};

/// The set at the name and type, and no data by the name's own NSEC, also for the DS at a cut.
pub fn a_match_is_worked()
    ensures a_a { IsWorked two_hosts (Set (kept_set a_set) ∷ nsecs_held (nsec_at_a ∷ []))
        a_example A_TYPE (answered a_set []) }
    ensures a_txt { IsWorked two_hosts (Set (kept_set a_set) ∷ nsecs_held (nsec_at_a ∷ []))
        a_example TXT_TYPE (denied kinds.NoData (nsec_at_a ∷ [])) }
    ensures cut_ds { IsWorked one_cut (nsecs_held (nsec_at_cut ∷ []))
        sub_example DS_TYPE (denied kinds.NoData (nsec_at_cut ∷ [])) }
{}

/// In the zone of RFC 4592: an empty non-terminal, name errors by two records and by one, and no data by a wildcard.
pub fn the_zone_of_rfc_4592_is_worked()
    ensures tcp_name { IsWorked wildcards (nsecs_held (nsec_at_host1 ∷ []))
        tcp_host1_example A_TYPE (denied kinds.NoData (nsec_at_host1 ∷ [])) }
    ensures telnet_name { IsWorked wildcards (nsecs_held (nsec_at_host1 ∷ nsec_at_ssh1 ∷ []))
        (codes "_telnet" ∷ tcp_host1_example) A_TYPE
        (denied kinds.NxDomain (nsec_at_ssh1 ∷ nsec_at_host1 ∷ [])) }
    ensures ghost_name { IsWorked wildcards (nsecs_held (nsec_at_wildcard ∷ []))
        (codes "ghost" ∷ asterisk_example) A_TYPE
        (denied kinds.NxDomain (nsec_at_wildcard ∷ [])) }
    ensures host3_a { IsWorked wildcards (nsecs_held (nsec_at_wildcard ∷ nsec_at_ssh2 ∷ []))
        (codes "host3" ∷ example) A_TYPE
        (denied kinds.NoData (nsec_at_ssh2 ∷ nsec_at_wildcard ∷ [])) }
{}

/// A name that sorts before the asterisk has the wildcard's answer, and is not denied.
pub fn before_the_asterisk_is_worked()
    ensures { IsWorked low_wildcard (Set (kept_set star_set) ∷ nsecs_held (nsec_before_star ∷ []))
        before_star_example A_TYPE (answered star_set (nsec_before_star ∷ [])) }
{}

/// Where the wildcard is an empty non-terminal, there is no data, and not a name error.
pub fn an_empty_wildcard_is_worked()
    ensures { IsWorked empty_wildcard (nsecs_held (nsec_before_wildcard ∷ nsec_after_wildcard ∷ []))
        (codes "y" ∷ v_example) A_TYPE
        (denied kinds.NoData (nsec_after_wildcard ∷ nsec_before_wildcard ∷ [])) }
{}

/// Of two records with one owner that contradict each other a proof uses both, since the one alone would be no proof: the
/// zone that it is true of has no such name.
pub fn contradicting_records_are_both_used()
    ensures both { outcome_of contradicting 1060 y_example A_TYPE IN_CLASS
        ≡ Some (denied kinds.NoData (nsec_to_host ∷ nsec_to_low_wildcard ∷ [])) }
    ensures one { HasUsed one_host (denied kinds.NoData (nsec_to_host ∷ [])) }
    ensures not_enough { IsSound y_example A_TYPE (denied kinds.NoData (nsec_to_host ∷ []))
        → ⊥ }
{}
