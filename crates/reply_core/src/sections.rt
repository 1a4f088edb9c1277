ghost use Rattle.std.specs.Prelude.{◌≡◌, ◌≤◌, ℕ, List, [], ◌∷◌, ◌++◌, length};
ghost use Rattle.std.specs.List.{flat_map};
ghost use Rattle.std.specs.Option.{option_copied};
ghost use Rattle.dname.specs.Name.{Label};
ghost use Rattle.dnswire.specs.declared.edns.TheConstants.{LEAST_PAYLOAD};
ghost use Rattle.dnswire.specs.declared.question.Question.{Question as Asked};
ghost use Rattle.reply_core.specs.Kept.{owner_of, listed};
ghost use Rattle.reply_core.specs.Reply.{ReplyRecord, wants_dnssec, set_records, proof_records};
ghost use Rattle.reply_core.specs.Sections.{HasWritten, HasWrittenWithin, alias_record, coded_flags, sent_within};
ghost use Rattle.reply_core.specs.Shown.{denial_in};

use crate::Reply;
use crate::draft::{Draft, MAX_REPLY};
use crate::header::{
    flag, flags_of, head_of, opt_count, put_bare, put_header, put_opt, put_question, set_counts,
    wants_dnssec,
};
use crate::records::{put_alias, put_answer, put_denial, put_soa};
use crate::reply::limit_of;
use denial_records::{Denial, KeptSet};
use dname::Name;
use dnswire::Question;
use dnswire::flags::{AD, TC};
use std::marker::Model;

/// A reply in work, whose records are put one after another: first the answers, then the authorities.
#[derive(Drop)]
pub struct Sections<'q, const N: usize> {
    limit: usize,
    question: &'q Question,
    rcode: u16,
    ttl: u32,
    draft: Draft<N>,
    answers: u16,
    authorities: u16,
}

impl<'q, const N: usize> Model for Sections<'q, N> {
    ghost use Rattle.std.specs.Prelude.{◌≤◌};
    ghost use Rattle.dnswire.specs.declared.edns.TheConstants.{LEAST_PAYLOAD};
    ghost use Rattle.reply_core.specs.Sections.{Written};

    ghost Value = { Written };

    ghost view = { λ s. record {
      limit = s.limit;
      question = s.question.now;
      rcode = s.rcode;
      ttl = s.ttl;
      contents = s.draft;
      answers = s.answers;
      authorities = s.authorities;
    } };

    ghost invariant = { λ s. (s.rcode ≤ 15) × (LEAST_PAYLOAD ≤ s.limit) × (s.limit ≤ N) };
}

impl<'q> Sections<'q, MAX_REPLY> {
    /// A reply to the question with this RCODE, and without records. Each that is put has this TTL.
    pub fn begin(question: &'q Question, rcode: u16, ttl: u32) -> Sections<'q, MAX_REPLY>
        requires { rcode ≤ 15 }
        ensures { HasWritten question.now rcode ttl [] [] result }
    {
        Sections::begin_within(limit_of(question.edns), question, rcode, ttl)
    }
}

impl<'q, const N: usize> Sections<'q, N> {
    /// The same within this limit.
    pub fn begin_within(
        limit: usize,
        question: &'q Question,
        rcode: u16,
        ttl: u32,
    ) -> Sections<'q, N>
        requires room { limit ≤ N }
        requires least { LEAST_PAYLOAD ≤ limit }
        requires rcode { rcode ≤ 15 }
        ensures { HasWrittenWithin limit question.now rcode ttl [] [] result }
    {
        let mut draft = Draft::new(limit);
        let flags = coded_flags(question, rcode, false);
        let opts = opt_count(question.edns);
        put_header(&mut draft, question.id, flags, 1, 0, 0, opts);
        put_question(&mut draft, question);
        Sections {
            limit,
            question,
            rcode,
            ttl,
            draft,
            answers: 0,
            authorities: 0,
        }
    }

    /// A set, where there is one, with this owner, and its signatures where the client wants them.
    pub fn put_answer(&mut self, owner: &Name, set: Option<&KeptSet>)
        ensures { (limit : ℕ) (question : Asked) (rcode ttl : ℕ)
            (answers : List ReplyRecord)
            → HasWrittenWithin limit question rcode ttl answers [] self.old
            → HasWrittenWithin limit question rcode ttl (answers ++ flat_map (set_records
            (wants_dnssec question) owner.now) (listed (option_copied set.entry))) [] self.new }
    {
        let dnssec = wants_dnssec(self.question);
        let count = put_answer(&mut self.draft, self.ttl, dnssec, owner, set);
        self.answers = self.answers.wrapping_add(count);
    }

    /// A CNAME, without a signature.
    pub fn put_alias(&mut self, owner: &Name, target: &Name)
        ensures { (limit : ℕ) (question : Asked) (rcode ttl : ℕ)
            (answers : List ReplyRecord)
            → HasWrittenWithin limit question rcode ttl answers [] self.old
            → HasWrittenWithin limit question rcode ttl
            (answers ++ alias_record owner.now target.now ∷ []) [] self.new }
    {
        put_alias(&mut self.draft, self.ttl, owner, target);
        self.answers = self.answers.wrapping_add(1);
    }

    /// The SOA set, where there is one.
    pub fn put_soa(&mut self, soa: Option<&KeptSet>)
        ensures { (limit : ℕ) (question : Asked) (rcode ttl : ℕ)
            (answers authorities : List ReplyRecord)
            → HasWrittenWithin limit question rcode ttl answers authorities self.old
            → HasWrittenWithin limit question rcode ttl answers (authorities
            ++ flat_map (λ set. set_records (wants_dnssec question) (owner_of set) set)
            (listed (option_copied soa.entry))) self.new }
    {
        let dnssec = wants_dnssec(self.question);
        let count = put_soa(&mut self.draft, self.ttl, dnssec, soa);
        self.authorities = self.authorities.wrapping_add(count);
    }

    /// The record of a denial and its signatures, where there is one and the client wants them.
    pub fn put_denial(&mut self, denial: &Option<Denial<'_>>)
        ensures { (limit : ℕ) (question : Asked) (rcode ttl : ℕ)
            (answers authorities : List ReplyRecord)
            → HasWrittenWithin limit question rcode ttl answers authorities self.old
            → HasWrittenWithin limit question rcode ttl answers (authorities
            ++ flat_map (proof_records (wants_dnssec question)) (denial_in denial.now)) self.new }
    {
        let dnssec = wants_dnssec(self.question);
        let count = put_denial(&mut self.draft, self.ttl, dnssec, denial);
        self.authorities = self.authorities.wrapping_add(count);
    }

    /// Writes the reply in place of what the buffer held.
    pub fn finish(self, out: &mut Reply<N>)
        ensures value { (limit : ℕ) (question : Asked) (rcode ttl : ℕ)
            (answers authorities : List ReplyRecord)
            → HasWrittenWithin limit question rcode ttl answers authorities self.entry
            → out.new ≡ sent_within limit question rcode ttl answers authorities }
        ensures within_limit { (limit : ℕ) (question : Asked) (rcode ttl : ℕ)
            (answers authorities : List ReplyRecord)
            → HasWrittenWithin limit question rcode ttl answers authorities self.entry
            → length out.new ≤ limit }
    {
        let Sections {
            limit,
            question,
            rcode,
            ttl: _,
            mut draft,
            answers,
            authorities,
        } = self;
        put_opt(&mut draft, 0, question.edns);
        set_counts(&mut draft, answers, authorities);
        if draft.is_over() {
            draft.restart(limit);
            put_bare(&mut draft, question, coded_flags(question, rcode, true), 0);
        }
        out.draft = draft;
    }
}

fn coded_flags(question: &Question, rcode: u16, truncated: bool) -> u16
    requires { rcode ≤ 15 }
    ensures { result ≡ coded_flags question.now rcode truncated }
{
    let ad = question.ad || wants_dnssec(question);
    flags_of(&head_of(question), rcode) + flag(truncated, TC) + flag(ad, AD)
}
