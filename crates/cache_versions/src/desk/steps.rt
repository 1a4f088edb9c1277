//! How the writer publishes.
ghost use Rattle.std.specs.Prelude.{◌≡◌, ◌<◌, ◌^◌, ◌++◌, [], ◌∷◌, drop, IfSome, IfNone, IsTrue, IsFalse};
ghost use Rattle.std.specs.Arc.{arc_value};
ghost use Rattle.cache_versions.specs.Book.{head_of};
ghost use Rattle.cache_versions.specs.Kin.{IsSame, Kin, Sound, journal_of, number_of};
ghost use Rattle.cache_versions.specs.Desks.{published, IsNext};

use super::{Desk, Pen};
use crate::book::{Front, Head, record_entry};
use crate::never::never;
use crate::rule::Look;
use crate::seat::Held;
use crate::state::State;
use crate::version::{Recorded, RecordedOf, VersionOf};
use std::alloc::Global;
use std::sync::{Arc, Wait};

// Adds the batch to the book. There is none where the book is ahead of the version.
fn next_front<S, B>(head: &Head<B>, now: &Recorded<S, B>, batch: &B) -> Option<Front<B>>
    requires head { head.now ≡ head_of now.now.front.book }
    requires few { number_of now.now < 2 ^ 62 }
    ensures book { IfSome result (λ f. f.book ≡ now.now.front.book) }
    ensures log { IfSome result (λ f. f.log ≡ journal_of now.now ++ batch.now ∷ []) }
{
    let mut front = now.front.again();
    if record_entry(head, &mut front, now.version.number, batch) {
        Some(front)
    } else {
        None
    }
}

// Publishes the version, or nothing where there is no memory. It waits for ever where `left_right` doesn't publish, which no run
// shows: what it lacks then is one more owner of the version.
fn show<S: State, R: Wait>(rt: &R, writer: Pen<S>, next: RecordedOf<S>) -> (Pen<S>, bool)
    requires idle { drop writer.behind writer.log.items ≡ [] }
    requires kin { Kin writer.desk.shown.value next }
    requires sound { Sound S.after S.BATCHES next }
    ensures shown { IsTrue result.1 → IsSame next result.0.desk.shown.value }
    ensures not { IsFalse result.1 → result.0.desk.shown.value ≡ writer.desk.shown.value }
{
    let mut writer = writer;
    if writer.append(next).is_err() {
        return (writer, false);
    }
    let (writer, done) = writer.publish_as::<Look, R>(rt);
    if done.is_err() {
        writer.take(rt);
        never(rt);
        unreachable!()
    }
    (writer, true)
}

impl<S: State> Desk<S> {
    /// Publishes the version, whose last batch is added to the book first. Nothing is published any more where there was no memory
    /// for a version whose batch stood in the book.
    pub fn publish<R: Wait>(
        self,
        rt: &R,
        next: Arc<VersionOf<S>, Global>,
        batch: &S::Batch,
    ) -> (Desk<S>, Option<(Held<S>, Held<S>)>)
        requires next { IsNext S.after (published self) batch.now (arc_value next) }
        requires sound { Sound S.after S.BATCHES (published self) }
        requires room { number_of (published self) < S.BATCHES }
        ensures seen { IfSome result.1 (λ t.
            journal_of t.0.recorded ≡ journal_of (published self) ++ batch.now ∷ []) }
        ensures shown { IfSome result.1 (λ t. IsSame t.0.recorded (published result.0)) }
        ensures noted { IfSome result.1 (λ t. IsSame t.0.recorded t.1.recorded) }
        ensures kin { Kin (published self) (published result.0) }
        ensures none { IfNone result.1 (published result.0 ≡ published self) }
    {
        let Desk { writer, head } = self;
        let (Ok(kept), Ok(noted)) = (Arc::try_clone(&next), Arc::try_clone(&next)) else {
            return (Desk { writer, head }, None);
        };
        if writer.has_pending_operations() {
            writer.take(rt);
            never(rt);
            unreachable!()
        }
        let Some(front) = next_front(&head, writer.published(), batch) else {
            return (Desk { writer, head }, None);
        };
        let shown = Recorded {
            version: next,
            front: front.again(),
        };
        let (writer, done) = show(rt, writer, shown);
        let desk = Desk { writer, head };
        if !done {
            return (desk, None);
        }
        let kept = Held {
            recorded: Recorded {
                version: kept,
                front: front.again(),
            },
        };
        let noted = Held {
            recorded: Recorded {
                version: noted,
                front,
            },
        };
        (desk, Some((kept, noted)))
    }

    /// Waits for the readers, and ends the writer.
    pub fn end<R: Wait>(self, rt: &R) {
        let Desk { writer, head: _ } = self;
        drop(writer.take(rt));
    }
}
