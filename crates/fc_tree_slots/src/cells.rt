//! Cells over raw memory: each is empty or holds an item.
ghost use Rattle.std.specs.Prelude.{◌≡◌, ◌+◌, ◌<◌, Some, None, map, length, take, replicate, get_or, slice_set, IfOk};
ghost use Rattle.std.specs.Borrow.{sem};

use crate::raw::Row;
use fc_base::Count;
use fc_base::count::add_moves;
use std::alloc::{AllocError, Allocator, Global};
use std::marker::Model;
use std_alloc::room::may_hold;

mod moves;

/// A row of cells in a block of memory of their own.
pub struct Cells<T, A: Allocator = Global> {
    row: Row<T, A>,
    alloc: A,
}

impl<T, A: Allocator> Model for Cells<T, A> {
    ghost use Rattle.std.specs.Prelude.{◌≡◌, List, Option};
    ghost use Rattle.std.specs.Coded.{coded_list, coded_option};

    ghost Value = { List (Option T) };

    ghost coded = { coded_list (coded_option T.code) };

    ghost view = { λ c. c.row.held };

    ghost invariant = { λ c. c.row.alloc ≡ c.alloc };
}

impl<T, A: Allocator> Cells<T, A> {
    ghost use Rattle.fc_tree_slots.specs.Cells.{IsPresent, ArePresent};
    ghost use Rattle.fc_tree_slots.specs.Lends.{lends_cell};

    /// A row of `len` empty cells, taken in one request, or in none where items have no size.
    pub(crate) fn try_new(alloc: A, len: usize) -> Result<Self, AllocError>
        ensures { IfOk result (λ c. c ≡ replicate len None) }
    {
        if !may_hold::<T>(len) {
            return Err(AllocError);
        }
        let row = Row::try_new(&alloc, len)?;
        Ok(Cells { row, alloc })
    }

    /// The item in the cell at `index`.
    pub(crate) fn get(&self, index: usize) -> &T
        requires { IsPresent self.now index }
        ensures { get_or self.now index None ≡ Some result.now }
    {
        self.row.get(index)
    }

    /// The items in the first `len` cells.
    pub(crate) fn as_slice(&self, len: usize) -> &[T]
        requires { ArePresent self.now len }
        ensures { take len self.now ≡ map Some result.now }
    {
        self.row.as_slice(len)
    }

    /// The item in the cell at `index`, lent for writing.
    pub(crate) fn get_mut(&mut self, index: usize) -> &mut T
        requires { IsPresent self.old index }
        ensures* writes_back { sem 𝓛 (lends_cell T.row A.row A.Allocator self.entry index result) }
        ensures value { get_or self.old index None ≡ Some result.now }
    {
        self.row.get_mut(index)
    }

    /// Takes the item out of the cell at `index`.
    pub(crate) fn take(&mut self, index: usize) -> T
        requires { IsPresent self.old index }
        ensures value { get_or self.old index None ≡ Some result }
        ensures cells { self.new ≡ slice_set self.old index None }
    {
        self.row.take(index)
    }

    /// Puts `item` into the cell at `index`, which is empty.
    pub(crate) fn set(&mut self, index: usize, item: T, count: &mut Count)
        requires { (index < length self.old) × (get_or self.old index None ≡ None) }
        ensures cells { self.new ≡ slice_set self.old index (Some item) }
        ensures moves { count.new.moves ≡ count.old.moves + 1 }
        ensures comparisons { count.new.comparisons ≡ count.old.comparisons }
    {
        add_moves(count, 1);
        self.row.set(index, item)
    }

    /// Gives the room back.
    pub(crate) fn free(self, len: usize)
        requires { self ≡ replicate len None }
    {
        let Cells { row, alloc } = self;
        row.free(&alloc, len);
    }
}
