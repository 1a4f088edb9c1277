ghost use Rattle.std.specs.Prelude.{◌≡◌, [], ◌∷◌, Some};
ghost use Rattle.dname.specs.declared.types.TheConstants.{TXT_TYPE, IN_CLASS};
ghost use Rattle.zone_meaning.specs.Examples.{a_example, two_hosts};
ghost use Rattle.cache_meaning.specs.Held.{held_of};
ghost use Rattle.cache_meaning.specs.Prove.{outcome_of};
ghost use Rattle.cache_meaning.specs.Ttl.{ttl_of};
ghost use Rattle.soundness.specs.Sound.{HasUsed};
ghost use Rattle.soundness.specs.StoredRun.{stored_batch, stored_proof};

/// Records with the values of the program's stored run, written out by hand, prove that a.example has no TXT record, and
/// there is a zone of which they are true.
pub fn the_stored_run_has_a_zone()
    ensures proof { outcome_of (held_of (stored_batch ∷ [])) 1000000010 a_example TXT_TYPE IN_CLASS
        ≡ Some stored_proof }
    ensures ttl { ttl_of 1000000010 stored_proof ≡ 300 }
    ensures used { HasUsed two_hosts stored_proof }
{}
