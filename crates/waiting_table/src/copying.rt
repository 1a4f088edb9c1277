//! Equal values.
ghost use Rattle.std.specs.Prelude.{◌≡◌};

use arrayvec::ArrayVec;
use dnswire::{MAX_ASKED, Question};

/// The same octets.
pub(crate) fn copy_of(octets: &ArrayVec<u8, MAX_ASKED>) -> ArrayVec<u8, MAX_ASKED>
    ensures { result ≡ octets.now }
{
    let mut copy = ArrayVec::new();
    let fitted = copy.try_extend_from_slice(octets.as_slice()).is_ok();
    prove!(fitted);
    copy
}

/// An equal question.
pub(crate) fn same_question(question: &Question) -> Question
    ensures { result ≡ question.now }
{
    Question {
        id: question.id,
        rd: question.rd,
        ad: question.ad,
        cd: question.cd,
        name: question.name.copy(),
        asked: copy_of(&question.asked),
        qtype: question.qtype,
        qclass: question.qclass,
        edns: question.edns,
    }
}
