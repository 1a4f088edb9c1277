//! A shared value with its mark.
ghost use Rattle.std.specs.Prelude.{◌≡◌, IfOk};
ghost use Rattle.std.specs.Arc.{arc_value};

use crate::OutOfMemory;
use std::marker::Model;
use std::sync::Arc;

/// A shared value, its mark and its note, which lie together.
#[derive(Drop)]
pub struct Entry<T> {
    mark: u64,
    note: u64,
    share: Arc<T>,
}

impl<T> Model for Entry<T> {
    ghost use Rattle.std.specs.Arc.{arc_value};
    ghost use Rattle.page_list.specs.Marks.{Marked};

    ghost Value = { Marked T };

    ghost view = { λ e. record { mark = e.mark; note = e.note; value = arc_value e.share } };
}

impl<T> Entry<T> {
    pub(crate) fn of(mark: u64, note: u64, share: Arc<T>) -> Entry<T>
        ensures { result ≡ record { mark = mark; note = note; value = arc_value share } }
    {
        Entry { mark, note, share }
    }

    pub(crate) fn mark(&self) -> u64
        ensures { result ≡ self.now.mark }
    {
        self.mark
    }

    pub(crate) fn note(&self) -> u64
        ensures { result ≡ self.now.note }
    {
        self.note
    }

    pub(crate) fn share(&self) -> &Arc<T>
        ensures { arc_value result.now ≡ self.now.value }
    {
        &self.share
    }
}

impl<T: Drop> Entry<T> {
    /// Another owner of the value.
    pub(crate) fn try_clone(&self) -> Result<Entry<T>, OutOfMemory>
        ensures { IfOk result (λ entry. entry ≡ self.now) }
    {
        Ok(Entry {
            mark: self.mark,
            note: self.note,
            share: Arc::try_clone(&self.share)?,
        })
    }
}
