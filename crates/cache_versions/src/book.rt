//! The history of all batches, which exists in the proofs alone. What is kept of it is a word, its
//! length.
ghost use Rattle.std.specs.Prelude.{◌≡◌, ◌++◌, ◌∷◌, [], ◌+◌, ◌<◌, ◌^◌, length, IsTrue, MatchBool};
ghost use Rattle.cache_versions.specs.Book.{head_of};

use logbook::{Gain, Offer, Plain, Play, Rule, Seen, Start, Word};

/// The rule of the book.
pub struct Law;

impl<E> Rule<E, u64> for Law {
    ghost use Rattle.std.specs.Prelude.{[]};
    ghost use base.Fml.{ftrue};
    ghost use Rattle.cache_versions.specs.Book.{IsKept};

    ghost holds = { λ cells log. IsKept cells log };

    ghost first = { [] };

    ghost hinted = { λ n log. Unit {0} };

    ghost shows = { λ log. [] };

    ghost keeps = { λ names log. ftrue };

    ghost moves = { λ ask before after answer. Unit {0} };
}

/// Callers trade nothing.
pub struct Nothing;

impl<E> Gain<E, u64> for Nothing {
    ghost use base.Fml.{ftrue};

    ghost after = { λ names about answer. ftrue };
}

/// A step that adds a batch.
pub struct Add;

impl<E> Play<E, u64> for Add {
    ghost use Rattle.cache_versions.specs.Book.{Adds};

    ghost then = { Adds };
}

impl<E> Plain<E, E, u64> for Add {
    ghost use Rattle.std.specs.Prelude.{None};

    ghost ask = { λ e. e };

    ghost state = { λ e. None };
}

pub type Front<E> = Seen<E, u64, Law>;

pub type Head<E> = Word<E, u64, Law>;

/// A new book with no entry.
pub fn open_book<E>() -> (Head<E>, Front<E>)
    ensures { (result.0 ≡ head_of result.1.book) × (result.1.log ≡ []) }
{
    let (front, mut first, _second) = Seen::open(Start::alone(), 0, 0);
    (Word::tracked(0, &mut first), front)
}

/// Adds an entry to all that was seen, and says whether it did.
pub fn record_entry<E>(head: &Head<E>, front: &mut Front<E>, seen: u64, entry: &E) -> bool
    requires head { head.now ≡ head_of front.old.book }
    requires seen { (length front.old.log ≡ seen) × (seen < 2 ^ 62) }
    ensures book { front.new.book ≡ front.old.book }
    ensures added { IsTrue result → front.new.log ≡ front.old.log ++ entry.now ∷ [] }
{
    let mut offer: Offer<E, u64, Law, Nothing> = front.plain::<Nothing, E, Add>(entry);
    let mut pen = front.no_pen();
    let found = head.compare_exchange::<Add, Nothing>(seen, seen + 1, front, &mut offer, &mut pen);
    found == seen
}
