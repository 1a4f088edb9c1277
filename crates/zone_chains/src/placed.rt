//! Where in an arc a key lies, in the words of `cache_meaning`.
ghost use Rattle.std.specs.Prelude.{◌≡◌};
ghost use Rattle.zone_chains.specs.Views.{placed};

use cache_meaning::Place;

pub(crate) fn placed(place: range_index::Place) -> Place
    ensures { result ≡ placed place }
{
    match place {
        range_index::Place::Start => Place::Start,
        range_index::Place::Inside => Place::Inside,
    }
}
