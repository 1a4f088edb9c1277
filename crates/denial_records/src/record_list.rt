ghost use Rattle.std.specs.Prelude.{◌≡◌, ◌↔◌, ◌<◌, [], ◌∷◌, ◌++◌, length, slice_get, Some, IsTrue, IfOk, OnOk, OnErr};
ghost use Rattle.std.specs.Arc.{arc_value};

use crate::Record;
use dname::OutOfMemory;
use std::alloc::Global;
use std::marker::Model;
use std::sync::Arc;

/// A list of records that grows at its end, seen as such. Each record stands once in memory, and may have further owners.
#[derive(Debug, Drop)]
pub struct RecordList {
    records: Vec<Arc<Record, Global>>,
    alloc: Global,
}

impl Model for RecordList {
    ghost use Rattle.std.specs.Prelude.{List, map};
    ghost use Rattle.std.specs.Arc.{arc_value};
    ghost use Rattle.denial_records.specs.declared.record.Record.{Record};

    ghost Value = { List Record };

    ghost view = { λ l. map arc_value l.records.items };
}

impl RecordList {
    /// The empty list, which keeps the allocator for `push`. It takes no memory.
    pub fn empty(alloc: Global) -> RecordList
        ensures { result ≡ [] }
    {
        RecordList {
            records: Vec::new(alloc),
            alloc,
        }
    }

    /// Puts the record last.
    pub fn push(&mut self, item: Record) -> Result<(), OutOfMemory>
        ensures ok { OnOk result (self.new ≡ self.old ++ item ∷ []) }
        ensures refused { OnErr result (self.new ≡ self.old) }
    {
        let shared = Arc::new(self.alloc, item)?;
        self.records.push(shared)?;
        Ok(())
    }

    pub fn len(&self) -> usize
        ensures { result ≡ length self.now }
    {
        self.records.len()
    }

    pub fn is_empty(&self) -> bool
        ensures { IsTrue result ↔ (self.now ≡ []) }
    {
        self.records.is_empty()
    }

    /// The record at place `i`, counted from 0.
    pub fn get(&self, i: usize) -> &Record
        requires { i < length self.now }
        ensures { slice_get self.now i ≡ Some result.now }
    {
        &self.records[i]
    }

    /// A further owner of the record at place `i`, counted from 0. Want of memory where it can have none.
    pub fn share(&self, i: usize) -> Result<Arc<Record, Global>, OutOfMemory>
        requires { i < length self.now }
        ensures { IfOk result (λ shared. slice_get self.now i ≡ Some (arc_value shared)) }
    {
        Arc::try_clone(&self.records[i])
    }
}
