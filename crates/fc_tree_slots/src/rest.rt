//! What is left of a list whose items are taken from either end: those after a taken one stay in their places.
ghost use Rattle.std.specs.Prelude.{◌≡◌, ◌<◌, [], ◌∷◌, ◌++◌, length, slice_index_or};
ghost use Rattle.fc_tree_slots.specs.Cells.{present, IsPacked};

use crate::cells::Cells;
use crate::slots::Slots;
use std::alloc::{Allocator, Global};
use std::marker::Model;

/// At most `N` items, in order, in the room of the [`Slots`](crate::slots::Slots) that they were in.
///
/// No call takes memory, and none counts a move.
pub struct Rest<T, const N: usize, A: Allocator = Global> {
    cells: Cells<T, A>,
    start: usize,
    end: usize,
}

impl<T, const N: usize, A: Allocator> Model for Rest<T, N, A> {
    ghost use Rattle.std.specs.Prelude.{List};
    ghost use Rattle.fc_tree_slots.specs.Cells.{present};
    ghost use Rattle.fc_tree_slots.specs.Rest.{IsPackedFrom};

    ghost Value = { List T };

    ghost view = { λ r. present r.cells };

    ghost invariant = { λ r. IsPackedFrom r.cells r.start r.end N };
}

impl<T: Drop, const N: usize, A: Allocator> Drop for Rest<T, N, A> {
    fn drop(self) {
        let Rest {
            mut cells,
            start,
            end,
        } = self;
        for i in start..end {
            drop(cells.take(i));
        }
        cells.free(N);
    }
}

impl<T, const N: usize, A: Allocator> Rest<T, N, A> {
    /// The items in the first `len` cells, where no other holds one.
    pub(crate) fn over(cells: Cells<T, A>, len: usize) -> Self
        requires { IsPacked cells len N }
        ensures { result ≡ present cells }
    {
        Rest {
            cells,
            start: 0,
            end: len,
        }
    }

    /// A list of no item in the room of this one, whose items are all taken. It takes no memory.
    pub fn into_slots(self) -> Slots<T, N, A>
        requires { length self ≡ 0 }
        ensures { result ≡ [] }
    {
        let Rest {
            cells,
            start: _,
            end: _,
        } = self;
        Slots::over(cells)
    }

    /// How many items are left.
    pub fn len(&self) -> usize
        ensures { result ≡ length self.now }
    {
        self.end - self.start
    }

    /// The item at `index` of those that are left.
    pub fn get(&self, index: usize) -> &T
        requires { index < length self.now }
        ensures { result.now ≡ slice_index_or self.now index result.now }
    {
        self.cells.get(self.start + index)
    }

    /// Takes the first item out.
    pub fn take_first(&mut self) -> T
        requires { 0 < length self.old }
        ensures { self.old ≡ result ∷ self.new }
    {
        let item = self.cells.take(self.start);
        self.start += 1;
        item
    }

    /// Takes the last item out.
    pub fn take_last(&mut self) -> T
        requires { 0 < length self.old }
        ensures { self.old ≡ self.new ++ result ∷ [] }
    {
        self.end -= 1;
        self.cells.take(self.end)
    }
}
