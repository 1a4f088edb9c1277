ghost use Rattle.std.specs.Prelude.{◌≡◌, ◌≤◌, ◌<◌, ◌+◌, length, IfSome, IsNone, Some};
ghost use Rattle.dnswire.specs.Question.{AreQuestionFields};
ghost use Rattle.dnswire.specs.declared.question_fields.QuestionFields.{QuestionFields};

use dname::u16_at;

/// The octets of a question's type and class (RFC 1035, section 4.1.2).
pub(crate) const QUESTION_FIELDS_OCTETS: usize = 4;

/// What follows a question's name, and the offset after the question (RFC 1035, section 4.1.2).
#[derive(Clone, Copy, Debug)]
pub(crate) struct QuestionFields {
    pub(crate) qtype: u16,
    pub(crate) qclass: u16,
    pub(crate) end: usize,
}

impl QuestionFields {
    /// The fields at the offset after the name; none where fewer than four octets are there.
    pub(crate) fn read(octets: &[u8], at: usize) -> Option<QuestionFields>
        requires { at ≤ length octets.now }
        ensures read { IfSome result (AreQuestionFields octets.now at) }
        ensures none { IsNone result → length octets.now < at + 4 }
        ensures every { (fields : QuestionFields) → AreQuestionFields octets.now at fields
            → result ≡ Some fields }
    {
        let end = at + QUESTION_FIELDS_OCTETS;
        if octets.len() < end {
            return None;
        }
        Some(QuestionFields {
            qtype: u16_at(octets, at),
            qclass: u16_at(octets, at + 2),
            end,
        })
    }
}
