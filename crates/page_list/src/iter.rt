//! The entries in order.
ghost use Rattle.std.specs.Prelude.{◌≡◌, ◌++◌, List, [], map, drop};
ghost use Rattle.std.specs.Iterator.{YieldsFirstBy, item_count};
ghost use Rattle.std.specs.Arc.{arc_value};
ghost use Rattle.page_list.specs.Marks.{value_of};

use crate::Entry;
use crate::entry_list::EntryList;
use std::marker::Model;
use std::sync::Arc;

/// Lends the entries of a list in order, seen as the list of those that are still to come.
#[derive(Drop)]
pub struct Iter<'a, T: Drop> {
    list: &'a EntryList<T>,
    // what is left of the page that is being read
    page: &'a [Entry<T>],
    // how many entries of the list there are up to the end of that page
    end: usize,
}

impl<'a, T: Drop> Model for Iter<'a, T> {
    ghost Value = { List T };

    ghost view = { λ it. map value_of (it.page.now ++ drop it.end it.list.now) };
}

impl<'a, T: Drop> Iter<'a, T> {
    pub(crate) fn over(list: &'a EntryList<T>) -> Iter<'a, T>
        ensures { result ≡ map value_of list.now }
    {
        Iter {
            list,
            page: &[],
            end: 0,
        }
    }
}

impl<'a, T: Drop> Iterator for Iter<'a, T> {
    type Item = &'a Arc<T>;

    ghost next_gives = { YieldsFirstBy (λ entry. arc_value entry.now) (λ it. it) };

    ghost remaining = { item_count (λ it. it) };

    fn next(&mut self) -> Option<&'a Arc<T>> {
        if self.page.is_empty() {
            if self.end >= self.list.len() {
                return None;
            }
            self.page = self.list.page_from(self.end);
            self.end += self.page.len();
        }
        let (entry, rest) = self.page.split_first()?;
        self.page = rest;
        Some(entry.share())
    }

    /// At least what is left of the page that is being read.
    fn size_hint(&self) -> (usize, Option<usize>) {
        (self.page.len(), None)
    }
}
