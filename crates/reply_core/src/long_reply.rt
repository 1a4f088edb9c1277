ghost use Rattle.std.specs.Prelude.{◌≡◌, ◌≤◌, length};
ghost use Rattle.reply_core.specs.Reply.{long_octets};
ghost use Rattle.reply_core.specs.Shown.{shown_by};
ghost use Rattle.reply_core.specs.declared.draft.TheConstants.{MAX_LONG_REPLY};

use crate::LongReplyBuffer;
use crate::draft::MAX_LONG_REPLY;
use crate::reply::write_reply_within;
use denial_records::Verdict;
use dnswire::Question;

/// Writes the reply that the verdict's proof gives to the question, with the verdict's TTL, in place of what the buffer
/// held. What the client takes by datagrams doesn't bound it.
pub fn write_long_reply(question: &Question, verdict: &Verdict<'_>, out: &mut LongReplyBuffer)
    ensures value { out.new ≡ long_octets question.now (shown_by verdict.now) verdict.now.ttl }
    ensures within_limit { length out.new ≤ MAX_LONG_REPLY }
{
    write_reply_within(MAX_LONG_REPLY, question, verdict, out);
}
