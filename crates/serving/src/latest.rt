ghost use Rattle.std.specs.Prelude.{◌≡◌, ◌==◌, ◌&&◌, ◌+◌, ◌%◌};
ghost use Rattle.serving.specs.Pending.{asks};

use arrayvec::ArrayVec;
use dname::Name;
use dnswire::Question;

/// The entry that a slot took last, also after it was freed, and the slot's turn then.
#[derive(Drop)]
pub(crate) struct Latest {
    pub(crate) turn: u8,
    pub(crate) client: u64,
    pub(crate) question: Question,
}

impl Latest {
    // The slot's first entry will be at turn 0.
    pub(crate) fn none() -> Latest
        ensures { result.turn ≡ 255 }
    {
        let question = Question {
            id: 0,
            rd: false,
            ad: false,
            cd: false,
            name: Name::root(),
            asked: ArrayVec::new(),
            qtype: 0,
            qclass: 0,
            edns: None,
        };
        Latest {
            turn: u8::MAX,
            client: 0,
            question,
        }
    }

    // Takes another entry, at the next turn, which is given.
    pub(crate) fn renew(&mut self, client: u64, question: &Question) -> u8
        ensures given { result ≡ self.new.turn }
        ensures turn { self.new.turn ≡ (self.old.turn + 1) % 256 }
        ensures client { self.new.client ≡ client }
        ensures question { self.new.question ≡ question.now }
    {
        self.turn = self.turn.wrapping_add(1);
        self.client = client;
        self.question = copy_of(question);
        self.turn
    }

    // Whether it is of this turn, name, type and class.
    pub(crate) fn fits(&self, turn: u16, name: &Name, qtype: u16, qclass: u16) -> bool
        ensures { result
            ≡ ((self.now.turn == turn) && asks name.now qtype qclass self.now.question) }
    {
        u16::from(self.turn) == turn
            && self.question.name == *name
            && self.question.qtype == qtype
            && self.question.qclass == qclass
    }
}

// An equal question.
pub(crate) fn copy_of(question: &Question) -> Question
    ensures { result ≡ question.now }
{
    let mut asked = ArrayVec::new();
    let fitted = asked
        .try_extend_from_slice(question.asked.as_slice())
        .is_ok();
    prove!(fitted);
    Question {
        id: question.id,
        rd: question.rd,
        ad: question.ad,
        cd: question.cd,
        name: question.name.copy(),
        asked,
        qtype: question.qtype,
        qclass: question.qclass,
        edns: question.edns,
    }
}
