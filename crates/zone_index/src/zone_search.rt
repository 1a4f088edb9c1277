ghost use Rattle.std.specs.Prelude.{◌≡◌, ◌<◌, ◌↔◌, length, get_or, IsTrue, IfOk, IfSome};
ghost use Rattle.std.specs.List.{All};
ghost use Rattle.denial_records.specs.Proof.{denied_by};
ghost use Rattle.denial_records.specs.declared.record.Record.TheVariants.{Set};
ghost use Rattle.soundness.specs.True.{IsTrueOf, IsClashFreeFor};
ghost use Rattle.zone_index.specs.Entries.{AreRuns};
ghost use Rattle.zone_index.specs.Hashes.{AreTables, IsOfChain, IsTableOf};
ghost use Rattle.zone_index.specs.Live.{AreLive};

use crate::entry::Entry;
use crate::hash_table::HashTable;
use crate::truth::{is_clash_free, is_true_nsec, is_true_nsec3, is_true_set};
use crate::{LiveNames, ZoneIndex};
use denial_records::{Denial, KeptNsec3, KeptSet};
use dname::{Name, OutOfMemory};
use std::alloc::Global;
use std::marker::Model;

/// A zone with what is made of it once: its live names, and for each salt and number of iterations that was asked for its
/// names by their hashes. Seen as the zone.
#[derive(Drop)]
pub struct ZoneSearch<'a> {
    alloc: Global,
    zone: &'a ZoneIndex,
    live: LiveNames<'a>,
    // The entries of each live name.
    runs: Vec<&'a [Entry]>,
    tables: Vec<HashTable<'a>>,
}

impl<'a> Model for ZoneSearch<'a> {
    ghost use Rattle.zone_meaning.specs.Zone.{Zone};
    ghost use Rattle.zone_index.specs.Hashes.{IsSearch};

    ghost Value = { Zone };

    ghost view = { λ s. s.zone.now };

    ghost invariant = { λ s. IsSearch s.zone.now s.live s.runs.items s.tables.items };
}

impl<'a> ZoneSearch<'a> {
    /// A search of the zone.
    pub fn of(alloc: Global, zone: &'a ZoneIndex) -> Result<ZoneSearch<'a>, OutOfMemory>
        ensures { IfOk result (λ search. search ≡ zone.now) }
    {
        let live = LiveNames::of(alloc, zone)?;
        let runs = runs_of(alloc, zone, &live)?;
        Ok(ZoneSearch {
            alloc,
            zone,
            live,
            runs,
            tables: Vec::new(alloc),
        })
    }

    /// Whether the set is true of the zone.
    pub fn is_true_set(&self, set: &KeptSet) -> Result<bool, OutOfMemory>
        ensures { IfOk result (λ is. IsTrue is ↔ IsTrueOf self.now (Set set.now)) }
    {
        is_true_set(self.alloc, self.zone, &self.live, self.runs.as_slice(), set)
    }

    /// Whether the record is true of the zone.
    pub fn is_true_denial(&mut self, denial: &Denial<'_>) -> Result<bool, OutOfMemory>
        ensures is { IfOk result (λ is. IsTrue is ↔ IsTrueOf self.old (denied_by denial.now)) }
        ensures same { self.new ≡ self.old }
    {
        match denial {
            Denial::Nsec(nsec) => Ok(is_true_nsec(
                self.zone,
                &self.live,
                self.runs.as_slice(),
                nsec,
            )),
            Denial::Nsec3(nsec3) => {
                let at = table_for(self.alloc, self.zone, &self.live, &mut self.tables, nsec3)?;
                Ok(is_true_nsec3(self.zone, &self.tables[at], nsec3))
            }
        }
    }

    /// Whether by the record's hash no name of the zone is taken for another of those that a question for the name turns on.
    pub fn is_clash_free(&mut self, denial: &Denial<'_>, name: &Name) -> Result<bool, OutOfMemory>
        ensures is { IfOk result (λ is. IsTrue is
            ↔ IsClashFreeFor self.old name.now (denied_by denial.now)) }
        ensures same { self.new ≡ self.old }
    {
        match denial {
            Denial::Nsec(_) => Ok(true),
            Denial::Nsec3(nsec3) => {
                let at = table_for(self.alloc, self.zone, &self.live, &mut self.tables, nsec3)?;
                Ok(is_clash_free(self.zone, &self.tables[at], name))
            }
        }
    }
}

// The entries of each live name.
fn runs_of<'a>(
    alloc: Global,
    zone: &'a ZoneIndex,
    live: &LiveNames<'a>,
) -> Result<Vec<&'a [Entry]>, OutOfMemory>
    ensures { IfOk result (λ runs. AreRuns zone.now live.now runs.items) }
{
    let mut runs = Vec::new(alloc);
    for at in 0..live.len() {
        runs.push(zone.run_of(live.get(at)))?;
    }
    Ok(runs)
}

// Where the table of the record's salt and iterations stands; it is made where there is none.
fn table_for<'a>(
    alloc: Global,
    zone: &ZoneIndex,
    live: &LiveNames<'a>,
    tables: &mut Vec<HashTable<'a>>,
    nsec3: &KeptNsec3,
) -> Result<usize, OutOfMemory>
    requires live { AreLive zone.now live.now }
    requires tables { AreTables zone.now tables.old.items }
    ensures tables { AreTables zone.now tables.new.items }
    ensures place { IfOk result (λ at. (at < length tables.new.items) × ((d : _)
        → IsTableOf zone.now nsec3.now.salt nsec3.now.iterations (get_or tables.new.items at d))) }
{
    if let Some(at) = place_of(tables.as_slice(), nsec3) {
        return Ok(at);
    }
    let table = HashTable::of(alloc, zone, live, nsec3.salt(), nsec3.iterations())?;
    let at = tables.len();
    tables.push(table)?;
    Ok(at)
}

// Where the table of the record's salt and iterations stands.
fn place_of(tables: &[HashTable<'_>], nsec3: &KeptNsec3) -> Option<usize>
    ensures { IfSome result (λ at. (at < length tables.now) × ((d : _)
        → IsOfChain nsec3.now.salt nsec3.now.iterations (get_or tables.now at d))) }
{
    for at in 0..tables.len() {
        if is_of_chain(&tables[at], nsec3) {
            return Some(at);
        }
    }
    None
}

fn is_of_chain(table: &HashTable<'_>, nsec3: &KeptNsec3) -> bool
    ensures { IsTrue result ↔ IsOfChain nsec3.now.salt nsec3.now.iterations table.now }
{
    let same = table.salt.as_slice() == nsec3.salt();
    same && table.iterations == nsec3.iterations()
}
