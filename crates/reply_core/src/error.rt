ghost use Rattle.std.specs.Prelude.{◌≡◌, ◌≤◌, ◌⊎◌, IsSome, length};
ghost use Rattle.reply_core.specs.Error.{error_octets, plain_octets};
ghost use Rattle.dnswire.specs.declared.edns.TheConstants.{LEAST_PAYLOAD};
ghost use Rattle.reply_core.specs.declared.rcode.TheConstants.{BAD_VERSION};

use crate::ReplyBuffer;
use crate::draft::MAX_REPLY;
use crate::header::{flags_of, head_of, put_bare, put_header};
use dnswire::{Head, Question};

/// Writes a reply that is a header alone, 12 octets, in place of what the buffer held.
pub fn write_error(head: &Head, rcode: u16, out: &mut ReplyBuffer)
    requires opcode { head.now.opcode ≤ 15 }
    requires rcode { rcode ≤ 15 }
    ensures { out.new ≡ error_octets head.now rcode }
{
    let flags = flags_of(head, rcode);
    out.draft.restart(MAX_REPLY);
    put_header(&mut out.draft, head.id, flags, 0, 0, 0, 0);
}

/// Writes the reply with this RCODE and without records but OPT, in place of what the buffer held. The question's octets
/// come back as they were asked. RCODE 16, BADVERS, needs the query's OPT record (RFC 6891, section 6.1.3).
pub fn write_plain(question: &Question, rcode: u16, out: &mut ReplyBuffer)
    requires { (rcode ≤ 15) ⊎ ((rcode ≡ BAD_VERSION) × IsSome question.now.edns) }
    ensures value { out.new ≡ plain_octets question.now rcode }
    ensures small { length out.new ≤ LEAST_PAYLOAD }
{
    let flags = flags_of(&head_of(question), rcode % 16);
    out.draft.restart(MAX_REPLY);
    put_bare(&mut out.draft, question, flags, (rcode / 16) as u8);
}
