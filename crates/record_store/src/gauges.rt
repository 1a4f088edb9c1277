//! How many zones and chains are held.
ghost use Rattle.std.specs.Prelude.{◌≡◌, length};
ghost use Rattle.std.specs.Option.{option_len};
ghost use Rattle.cache_meaning.specs.Lent.{lent_chain};
ghost use Rattle.record_store.specs.Gauges.{zone_count};

use crate::holding::Holding;
use cache_meaning::Chain;
use zone_chains::ZoneRecords;

impl Holding {
    /// Of how many zones a record is held.
    pub(crate) fn zones(&self) -> usize
        ensures { result ≡ zone_count self.now.records }
    {
        self.zones.len()
    }

    /// How many chains are held, of each of which a record is.
    pub(crate) fn chains(&self) -> usize
        ensures { result ≡ length self.now.chains }
    {
        let _records = self.goings.len();
        let mut chains = 0;
        for zone in self.zones.iter() {
            chains += chains_in(zone);
        }
        chains
    }
}

// How many chains of the zone are held.
fn chains_in(zone: &ZoneRecords) -> usize
    ensures { result ≡ length zone.now.chains }
{
    let [newer, older] = zone.chains();
    count_of(newer) + count_of(older)
}

// One, or none where there is no chain.
fn count_of(chain: Chain<'_>) -> usize
    ensures { result ≡ option_len (lent_chain chain.entry) }
{
    match chain {
        Chain::Bare => 0,
        Chain::Nsec | Chain::Nsec3 { .. } => 1,
    }
}
