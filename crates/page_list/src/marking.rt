//! Numbers that stand for entries in a search.
ghost use Rattle.std.specs.Prelude.{◌≡◌, ℕ};

/// A mark of each entry, which is kept beside it, so that a search for a mark need not read the entry. Two entries may
/// have one mark. A type of its own, so that one type of entries may be marked in several ways. The note is a second number that
/// is kept there: no search looks at it, and `last_at` lends it with the entry that it has found.
pub trait Marking<T> {
    ghost mark: { T → ℕ };

    ghost note: { T → ℕ };

    fn mark(entry: &T) -> u64
        ensures { result ≡ mark entry.now };

    fn note(entry: &T) -> u64
        ensures { result ≡ note entry.now };
}

/// All entries have the mark 0 and the note 0.
#[derive(Drop)]
pub struct NoMarks;

impl<T> Marking<T> for NoMarks {
    ghost mark = { λ _. 0 };

    ghost note = { λ _. 0 };

    fn mark(_entry: &T) -> u64 {
        0
    }

    fn note(_entry: &T) -> u64 {
        0
    }
}
