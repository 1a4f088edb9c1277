ghost use Rattle.std.specs.Prelude.{◌≡◌};
ghost use Rattle.waiting_table.specs.Index.{mark_of};

use dnswire::Question;

/// A number that equal questions have in common.
pub(crate) fn mark_of(question: &Question) -> u32
    ensures { result ≡ mark_of question.now.name question.now.qtype }
{
    let mut mark = u32::from(question.qtype);
    for octet in question.name.wire() {
        mark = mark.wrapping_mul(31).wrapping_add(u32::from(*octet));
    }
    mark
}
