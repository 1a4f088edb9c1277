//! How the names end that are passed.
ghost use Rattle.std.specs.Prelude.{◌≡◌, ◌<◌, false, replicate};
ghost use Rattle.dname.specs.Name.{IsName};
ghost use Rattle.forwarding.specs.Ends.{MARKS, end_mark, ends_alike, marked};

use dname::{LentName, Name};

/// For each mark of two octets, whether a name ends so. A name that ends otherwise is below none of them.
#[derive(Drop)]
pub(crate) struct NameEnds {
    pub(crate) marks: [bool; 256],
}

impl NameEnds {
    /// Of no name.
    pub(crate) fn none() -> NameEnds
        ensures { result.marks ≡ replicate MARKS false }
    {
        NameEnds {
            marks: [false; 256],
        }
    }

    /// Of one name more.
    #[tactic(auto, using(crate::proofs::NameEndLemmas::marked_root, crate::proofs::NameEndLemmas::marked_other))]
    pub(crate) fn add(&mut self, name: &Name)
        ensures marks { self.new.marks ≡ marked self.old.marks name.now }
        ensures name { IsName name.now }
    {
        let mark = end_mark(name.wire());
        if name.labels() == 0 {
            self.marks = [true; 256];
        } else {
            self.marks[mark] = true;
        }
    }

    /// Whether the name ends as one of them.
    pub(crate) fn has(&self, name: &LentName<'_>) -> bool
        ensures { result ≡ ends_alike self.now.marks name.now }
    {
        self.marks[end_mark(name.wire())]
    }
}

// The mark of the two octets before the last.
#[tactic(auto, using(crate::proofs::NameEndLemmas::mark_of_few, crate::proofs::NameEndLemmas::mark_of_more))]
fn end_mark(wire: &[u8]) -> usize
    ensures value { result ≡ end_mark wire.now }
    ensures small { result < 256 }
{
    let size = wire.len();
    if size < 3 {
        return 0;
    }
    (usize::from(wire[size - 3]) * 31 + usize::from(wire[size - 2])) % 256
}
