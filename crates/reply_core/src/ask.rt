ghost use Rattle.std.specs.Prelude.{◌≡◌, ◌≤◌, length};
ghost use Rattle.reply_core.specs.Ask.{ask_flags, ask_octets};
ghost use Rattle.dnswire.specs.declared.edns.TheConstants.{LEAST_PAYLOAD};

use crate::ReplyBuffer;
use crate::draft::MAX_REPLY;
use crate::header::{flag, opt_count, put_header, put_opt, put_question};
use dnswire::flags::{AD, CD, RD};
use dnswire::{Edns, Question};

/// Writes the query by which the client's question is asked upstream, with this ID, in place of what the buffer held. The
/// question's octets go on as they were asked.
pub fn write_ask(question: &Question, id: u16, out: &mut ReplyBuffer)
    ensures value { out.new ≡ ask_octets question.now id }
    ensures small { length out.new ≤ LEAST_PAYLOAD }
{
    let edns = Some(Edns {
        size: MAX_REPLY as u16,
        dnssec: true,
    });
    let flags = ask_flags(question);
    out.draft.restart(MAX_REPLY);
    put_header(&mut out.draft, id, flags, 1, 0, 0, opt_count(edns));
    put_question(&mut out.draft, question);
    put_opt(&mut out.draft, 0, edns);
}

fn ask_flags(question: &Question) -> u16
    ensures { result ≡ ask_flags question.now }
{
    RD + AD + flag(question.cd, CD)
}
