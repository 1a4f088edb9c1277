//! All workers begin together, or none does.
use std::sync::{Condvar, Mutex, Wait};

#[derive(Clone, Copy, PartialEq, Eq)]
enum Word {
    Wait,
    Begin,
    Leave,
}

/// Where threads wait until it is said whether they begin.
#[derive(Drop)]
pub(crate) struct Start {
    word: Mutex<Word>,
    said: Condvar,
}

impl Start {
    pub(crate) fn new() -> Start {
        Start {
            word: Mutex::new(Word::Wait),
            said: Condvar::new(),
        }
    }

    /// Waits for the word, and says whether it is to begin.
    pub(crate) fn is_given<R: Wait>(&self, rt: &R) -> bool {
        let word = self
            .said
            .wait_while(rt, self.word.lock(rt), |word| *word == Word::Wait);
        *word == Word::Begin
    }

    pub(crate) fn begin<R: Wait>(&self, rt: &R) {
        self.say(rt, Word::Begin);
    }

    pub(crate) fn leave<R: Wait>(&self, rt: &R) {
        self.say(rt, Word::Leave);
    }

    fn say<R: Wait>(&self, rt: &R, word: Word) {
        *self.word.lock(rt) = word;
        self.said.notify_all();
    }
}
