//! A block of blocks: one to `MOST` of them.
ghost use Rattle.std.specs.Prelude.{◌≡◌, ◌≤◌, ◌++◌, length, take, drop, map, IfOk};
ghost use Rattle.std.specs.List.{flat_map};
ghost use Rattle.std.specs.Arc.{arc_value};

use crate::cut::{Growth, cut};
use crate::row::Row;
use crate::short::{MOST, Short};
use crate::splice::spliced_row;
use crate::{Block, Entry, Found, OutOfMemory};
use std::alloc::Global;
use std::marker::Model;
use std::sync::Arc;

/// One to 32 blocks, seen as their entries.
#[derive(Drop)]
pub(crate) struct Blocks<T: Drop, B: Block<T>> {
    row: Row<T, B>,
}

impl<T: Drop, B: Block<T>> Model for Blocks<T, B> {
    ghost use Rattle.std.specs.Prelude.{◌<◌, ◌≤◌, List, length};
    ghost use Rattle.std.specs.List.{flat_map};
    ghost use Rattle.page_list.specs.Marks.{Marked};
    ghost use Rattle.page_list.specs.declared.short.TheConstants.{MOST};

    ghost Value = { List (Marked T) };

    ghost view = { λ b. flat_map B.entries b.row };

    ghost invariant = { λ b. (0 < length b.row) × (length b.row ≤ MOST) };
}

// The blocks of one part in a block.
fn block_of<T: Drop, B: Block<T>>(
    alloc: Global,
    part: Short<Arc<B>>,
) -> Result<Arc<Blocks<T, B>>, OutOfMemory>
    ensures { IfOk result (λ made. arc_value made ≡ flat_map B.entries (map arc_value part)) }
{
    let row = Row::of(alloc, part.into_vec())?;
    Ok(Arc::new(alloc, Blocks { row })?)
}

// The blocks in blocks of blocks.
fn blocks_of<T: Drop, B: Block<T>>(
    alloc: Global,
    shares: Vec<Arc<B>>,
    growth: Growth,
) -> Result<Vec<Arc<Blocks<T, B>>>, OutOfMemory>
    ensures { IfOk result (λ made. flat_map (λ block. block) (map arc_value made.items)
        ≡ flat_map B.entries (map arc_value shares.items)) }
{
    let mut made = Vec::new(alloc);
    for part in cut(alloc, shares, growth)? {
        made.push(block_of(alloc, part)?)?;
    }
    Ok(made)
}

impl<T: Drop, B: Block<T>> Block<T> for Blocks<T, B> {
    ghost entries = { λ block. block };

    fn made(alloc: Global, items: Vec<Entry<T>>) -> Result<Vec<Arc<Blocks<T, B>>>, OutOfMemory>
        ensures { IfOk result (λ made. flat_map (λ block. block) (map arc_value made.items)
            ≡ items.items) }
    {
        blocks_of(alloc, B::made(alloc, items)?, Growth::Anywhere)
    }

    fn len(&self) -> usize {
        self.row.total()
    }

    fn is_small(&self) -> bool {
        self.row.count() < MOST / 4
    }

    fn first(&self) -> &Entry<T> {
        self.row.block(0).first()
    }

    fn page_from(&self, i: usize) -> &[Entry<T>] {
        self.row.page_from(i)
    }

    fn find<F: Fn(&T) -> bool>(&self, before: &F) -> usize {
        self.row.find(before)
    }

    fn find_at<F: Fn(&T) -> bool>(&self, _len: usize, mark: u64, before: &F) -> Found<'_, T> {
        self.row.find_at(mark, before)
    }

    fn replace(&mut self, alloc: Global, from: usize, to: usize, items: &[Entry<T>]) -> bool {
        self.row.replace(alloc, from, to, items)
    }

    fn replaced(&self, alloc: Global, from: usize, to: usize, items: &[Entry<T>]) -> Option<Self> {
        let Ok(mut row) = self.row.try_clone(alloc) else {
            return None;
        };
        if row.replace(alloc, from, to, items) {
            Some(Blocks { row })
        } else {
            None
        }
    }

    fn spliced(
        alloc: Global,
        left: &Self,
        from: usize,
        items: Vec<Entry<T>>,
        right: &Self,
        to: usize,
    ) -> Result<Vec<Arc<Self>>, OutOfMemory>
        requires from_in { from ≤ length left.now }
        requires to_in { to ≤ length right.now }
        ensures { IfOk result (λ made. flat_map (λ block. block) (map arc_value made.items)
            ≡ take from left.now ++ items.items ++ drop to right.now) }
    {
        let growth = Growth::after(to == right.len());
        let blocks = spliced_row(alloc, &left.row, from, items, &right.row, to)?;
        blocks_of(alloc, blocks, growth)
    }
}
