ghost use Rattle.std.specs.Prelude.{◌≡◌, true};
ghost use Rattle.waiting_table.specs.Index.{client_by};
ghost use Rattle.waiting_table.specs.Waiting.{client_of, same_asked};

use crate::Client;
use crate::copying::copy_of;
use arrayvec::ArrayVec;
use arrivals::Carrier;
use dnswire::{Edns, MAX_ASKED, Question};

/// A client that joined for a question: what of its own question isn't that of the first client's.
#[derive(Drop)]
pub(crate) struct Guest {
    number: u64,
    carrier: Carrier,
    id: u16,
    rd: bool,
    ad: bool,
    asked: ArrayVec<u8, MAX_ASKED>,
    edns: Option<Edns>,
}

impl Guest {
    // The client joins for the question that is the same as its own.
    pub(crate) fn of(number: u64, carrier: Carrier, question: &Question, asked: &Question) -> Guest
        requires { same_asked asked.now question.now ≡ true }
        ensures { client_by asked.now result ≡ client_of number carrier question.now }
    {
        Guest {
            number,
            carrier,
            id: question.id,
            rd: question.rd,
            ad: question.ad,
            asked: copy_of(&question.asked),
            edns: question.edns,
        }
    }

    pub(crate) fn client(&self, asked: &Question) -> Client
        ensures { result ≡ client_by asked.now self.now }
    {
        let question = Question {
            id: self.id,
            rd: self.rd,
            ad: self.ad,
            cd: asked.cd,
            name: asked.name.copy(),
            asked: copy_of(&self.asked),
            qtype: asked.qtype,
            qclass: asked.qclass,
            edns: self.edns,
        };
        Client {
            number: self.number,
            carrier: self.carrier,
            question,
        }
    }
}
