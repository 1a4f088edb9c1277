//! The laws of walks.
ghost use Rattle.std.specs.Prelude.{◌≡◌, ◌≢◌, ℕ, List, [], ◌∷◌, Some, false};
ghost use Rattle.dname.specs.Name.{Label, IsUnder};
ghost use Rattle.dname.specs.declared.types.TheConstants.{CNAME_TYPE, DNAME_TYPE};
ghost use Rattle.dnswire.specs.declared.question.Question.{Question};
ghost use Rattle.denial_records.specs.declared.batch.Batch.{Batch};
ghost use Rattle.denial_records.specs.declared.record.Record.TheVariants.{Set};
ghost use Rattle.zone_meaning.specs.Zone.{Zone, IsZone, IsBelow};
ghost use Rattle.zone_meaning.specs.Lookup.{LooksUp, Answer, Alias, Redirect};
ghost use Rattle.zone_meaning.specs.Consistent.{SetPart, IsConsistentSet};
ghost use Rattle.cache_meaning.specs.Held.{Held, held_of};
ghost use Rattle.cache_meaning.specs.Prove.{is_forwarded};
ghost use Rattle.held_laws.specs.KeyOrder.{kept_of};
ghost use Rattle.soundness.specs.Sound.{IsUsable};
ghost use Rattle.resolver.specs.Dname.{Dname, dname_at, topmost_dname};
ghost use Rattle.resolver.specs.Walk.{Walk, walk_of, walk_for};
ghost use Rattle.resolver.specs.SoundWalk.{AliasesStandAlone, IsSoundWalk};
ghost use Rattle.resolver.specs.WalkReply.{walk_reply_in};
ghost use Rattle.resolver.specs.declared.rule.Rule.{Rule as ARule};

use soundness::each_answer_is_sound;

/// A CNAME that a zone looks up leads on each other type, where aliases stand alone.
pub fn an_alias_leads_on()
    ensures { (zone : Zone) (name : List Label) (qtype : ℕ) (octets : List ℕ)
        → qtype ≢ CNAME_TYPE → AliasesStandAlone zone
        → LooksUp zone name CNAME_TYPE (Answer (octets ∷ []))
        → LooksUp zone name qtype (Alias octets) }
{}

/// A DNAME set that is true of a zone redirects each name below its owner, whatever its type (RFC 6672, section 3.2).
pub fn a_dname_redirects()
    ensures { (zone : Zone) (set : SetPart) (name : List Label) (rtype : ℕ)
        → IsZone zone → IsConsistentSet zone set → set.rtype ≡ DNAME_TYPE
        → IsBelow name set.owner
        → LooksUp zone name rtype (Redirect set.owner) }
{}

/// The DNAME that is taken is held and may be used; its owner is above the name, and no other that is above it and has one is
/// shorter.
pub fn the_topmost_is_taken()
    ensures above { (held : Held) (now : ℕ) (zone name : List Label) (dname : Dname)
        → topmost_dname held now zone name ≡ Some dname
        → IsBelow name dname.set.owner × (dname.set.zone ≡ zone)
        × IsUsable held now (Set dname.set) }
    ensures topmost { (held : Held) (now : ℕ) (zone name owner : List Label)
        (dname other : Dname)
        → topmost_dname held now zone name ≡ Some dname → IsBelow name owner
        → dname_at held now zone owner ≡ Some other
        → IsUnder owner dname.set.owner }
{}

/// Each walk is sound, whatever is held.
pub fn each_walk_is_sound()
    ensures { (rule : ARule) (held : Held) (now : ℕ) (name : List Label) (qtype : ℕ)
        (walk : Walk)
        → is_forwarded qtype ≡ false → walk_of rule held now name qtype ≡ Some walk
        → IsSoundWalk qtype name walk }
{
    each_answer_is_sound();
}

/// And so is the walk of each query.
pub fn each_query_is_answered_soundly()
    ensures { (rule : ARule) (held : Held) (now : ℕ) (name : List Label) (qtype qclass : ℕ)
        (walk : Walk)
        → walk_for rule held now name qtype qclass ≡ Some walk
        → IsSoundWalk qtype name walk }
{
    each_answer_is_sound();
}

/// A walk reads no order: what is kept in the order of keys gives the reply that what is held gives.
pub fn a_walk_reads_no_order()
    ensures { (rule : ARule) (journal : List Batch) (question : Question) (now : ℕ)
        → walk_reply_in rule (kept_of journal) question now
        ≡ walk_reply_in rule (held_of journal) question now }
{}
