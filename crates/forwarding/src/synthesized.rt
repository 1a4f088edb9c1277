//! The mark of replies that denials or a wildcard made.
ghost use Rattle.std.specs.Prelude.{◌≡◌, ◌≤◌, length};
ghost use Rattle.reply_core.specs.declared.draft.TheConstants.{MAX_LONG_REPLY};
ghost use Rattle.forwarding.specs.Options.{option_octets};
ghost use Rattle.forwarding.specs.ExtendedError.{marked, synthesized_option};

use crate::opt_options::put_options;
use crate::{EXTENDED_ERROR, SYNTHESIZED};
use dnswire::Question;
use reply_core::Reply;

/// Marks the reply as synthesized, where it is that, has an OPT record at its end, and stays within the limit. Else the buffer stays
/// as it is.
pub fn mark_synthesized<const N: usize>(
    limit: usize,
    question: &Question,
    synthesized: bool,
    out: &mut Reply<N>,
)
    requires size { N ≤ MAX_LONG_REPLY }
    requires room { limit ≤ N }
    ensures value { out.new ≡ marked limit question.now synthesized out.old }
    ensures within_limit { length out.old ≤ limit → length out.new ≤ limit }
{
    if synthesized {
        put_options(limit, question.edns, &synthesized_option(), out);
    }
}

fn synthesized_option() -> [u8; 6]
    ensures { result ≡ option_octets synthesized_option }
{
    let [code_high, code_low] = EXTENDED_ERROR.to_be_bytes();
    let [info_high, info_low] = SYNTHESIZED.to_be_bytes();
    [code_high, code_low, 0, 2, info_high, info_low]
}
