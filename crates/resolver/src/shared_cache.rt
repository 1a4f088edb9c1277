//! The cache that threads share.
ghost use Rattle.std.specs.Prelude.{◌≡◌};
ghost use Rattle.cache_meaning.specs.Held.{nothing_held};
ghost use Rattle.cache_versions.specs.Shares.{start_of};

use cache_versions::{Seat, Shared};
use record_store::Store;

mod calls;

/// What one worker asks and inserts with.
pub type CacheSeat = Seat<Store>;

/// The records held, in published versions. Threads ask it without waiting. It is not `Drop`: end it by `close` or `give_up`.
pub struct SharedCache {
    pub(crate) shared: Shared<Store>,
    ghost opens: { start_of shared ≡ nothing_held },
}
