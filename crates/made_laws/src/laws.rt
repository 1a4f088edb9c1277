ghost use Rattle.std.specs.Prelude.{◌≡◌, ◌<◌, ◌≤◌, ℕ, List, Some, Ok};
ghost use Rattle.std.specs.List.{All, Contains};
ghost use Rattle.std.specs.declared.cmp.Ordering.TheVariants.{Less};
ghost use Rattle.dname.specs.Name.{Label, canonical_cmp};
ghost use Rattle.denial_records.specs.Proof.{Proof};
ghost use Rattle.denial_records.specs.declared.batch.Batch.{Batch};
ghost use Rattle.zone_meaning.specs.Zone.{IsLive};
ghost use Rattle.zone_meaning.specs.Consistent.{IsConsistentNsec};
ghost use Rattle.zone_meaning.specs.Lookup.{LooksUp};
ghost use Rattle.cache_meaning.specs.Held.{held_of};
ghost use Rattle.cache_meaning.specs.Prove.{outcome_of};
ghost use Rattle.soundness.specs.True.{IsTrueOf};
ghost use Rattle.soundness.specs.Sound.{said_by};
ghost use Rattle.intake.specs.Batch.{Gives};
ghost use Rattle.intake.specs.declared.taken.Taken.{Taken};
ghost use Rattle.zone_maker.specs.Made.{made_zone, made_owner};
ghost use Rattle.zone_maker.specs.Messages.{message_at, messages_of};
ghost use Rattle.made_laws.specs.MadeBatch.{IsMadeBatch};
ghost use Rattle.made_laws.specs.MadeNsec.{nsec_at};

/// The live names of the made zone are its owners, which are numbered in canonical order.
pub fn the_owners_are_the_live_names()
    ensures live { (seed names k : ℕ) → names ≤ 10000 → k ≤ names
        → IsLive (made_zone seed names) (made_owner k) }
    ensures no_other { (seed names : ℕ) (name : List Label) → IsLive (made_zone seed names) name
        → (k : ℕ) × (k ≤ names) × (name ≡ made_owner k) }
    ensures in_order { (i j : ℕ) → i < j → j ≤ 10000
        → canonical_cmp (made_owner i) (made_owner j) ≡ Less }
{}

/// Each owner's NSEC is true of the made zone.
pub fn each_made_nsec_is_true()
    ensures { (seed names k : ℕ) → names ≤ 10000 → k ≤ names
        → IsConsistentNsec (made_zone seed names) (nsec_at names k) }
{}

/// Whatever intake takes from a made message, at whatever moment, is true of the made zone.
pub fn every_made_record_is_true()
    ensures by_number { (seed names k now : ℕ) (taken : Taken) → names ≤ 10000 → k ≤ names
        → Gives (message_at seed names k) now (Ok taken)
        → All (IsTrueOf (made_zone seed names)) taken.batch.records }
    ensures among_all { (seed names now : ℕ) (message : List ℕ) (taken : Taken) → names
        ≤ 10000
        → Contains (messages_of seed names) message → Gives message now (Ok taken)
        → All (IsTrueOf (made_zone seed names)) taken.batch.records }
{}

/// Before its signatures expire, at the moment 2,000,000,000, intake takes each group of a made message.
pub fn every_made_message_is_taken()
    ensures { (seed names k now : ℕ) → names ≤ 10000 → k ≤ names → now < 2000000000
        → (taken : Taken) × Gives (message_at seed names k) now (Ok taken)
        × (taken.skipped ≡ 0) }
{}

/// What the cache proves from made messages alone is what the made zone says.
pub fn each_made_answer_is_the_zones()
    ensures { (seed names now : ℕ) (batches : List Batch) (name : List Label) (qtype qclass : ℕ)
        (proof : Proof)
        → names ≤ 10000 → All (IsMadeBatch seed names) batches
        → outcome_of (held_of batches) now name qtype qclass ≡ Some proof
        → LooksUp (made_zone seed names) name qtype (said_by proof) }
{}
