//! Raw memory: here, in `at_start`, and nowhere else, functions follow a pointer.
ghost use Rattle.std.specs.Prelude.{◌≡◌, ◌<◌, List, Option, Some, None, map, length, take, replicate, get_or, slice_set, IfOk};
ghost use Rattle.std.specs.Borrow.{sem};
ghost use Rattle.std.specs.Vec.Ownership.{FitsInBlock};
ghost use Rattle.fc_tree_slots.specs.Cells.{IsPresent, ArePresent};
ghost use Rattle.fc_tree_slots.specs.Ownership.{row_owned, row_lent};

use std::alloc::{AllocError, Allocator};
use std::marker::{Model, Send, Sync};
use std::mem::{align_of, size_of};
use std::slice;

mod at_start;

/// A row of places, each empty or holding an item, with the right to give their room back.
pub struct Row<T, A: Allocator> {
    // Its type names `A`, and nothing is read at it: each call casts it to an item's.
    start: *mut (T, A),
    ghost held: { List (Option T) },
    ghost alloc: { A },
}

impl<T, A: Allocator> Model for Row<T, A> {
    ghost also_owns = { λ r. row_owned T.row (A.dealloc_token r.alloc) r.start r.held };

    ghost also_shares = { λ r _ κ. row_lent T.row r.start r.held κ };
}

unsafe impl<T: Send, A: Allocator + Send> Send for Row<T, A> {}

unsafe impl<T: Sync, A: Allocator> Sync for Row<T, A> {}

impl<T, A: Allocator> Row<T, A> {
    ghost use Rattle.fc_tree_slots.specs.Lends.{lends_held};

    /// A row of `len` empty places, in one request, or `AllocError` where that is refused. Items of no size need no room: their row is
    /// anywhere, as at the handle.
    pub(crate) fn try_new(alloc: &A, len: usize) -> Result<Self, AllocError>
        requires { FitsInBlock T.row len }
        ensures { IfOk result (λ r. (r.held ≡ replicate len None) × (r.alloc ≡ alloc.now)) }
    {
        let size = size_of::<T>();
        if size == 0 {
            let start = alloc as *const A as *mut (T, A);
            return Ok(Row { start });
        }
        match alloc.allocate(len * size, align_of::<T>()) {
            Ok(room) => Ok(Row {
                start: room as *mut (T, A),
            }),
            Err(refusal) => Err(refusal),
        }
    }

    /// Gives the room of the row back, if it has any: of `len` places, all empty.
    pub(crate) fn free(self, alloc: &A, len: usize)
        requires { (self.held ≡ replicate len None) × (self.alloc ≡ alloc.now) }
    {
        let Row { start } = self;
        let size = size_of::<T>();
        if size != 0 {
            unsafe { alloc.deallocate(start as *mut u8, len * size, align_of::<T>()) }
        }
    }

    /// The item at `index`.
    pub(crate) fn get(&self, index: usize) -> &T
        requires { IsPresent self.now.held index }
        ensures { get_or self.now.held index None ≡ Some result.now }
    {
        unsafe { &*(self.start as *mut T).add(index) }
    }

    /// The item at `index`, lent for writing.
    pub(crate) fn get_mut(&mut self, index: usize) -> &mut T
        requires { IsPresent self.old.held index }
        ensures* writes_back { sem 𝓛 (lends_held T.row A.row A.Allocator self.entry index result) }
        ensures value { get_or self.old.held index None ≡ Some result.now }
    {
        unsafe { &mut *(self.start as *mut T).add(index) }
    }

    /// Moves the item at `index` out.
    pub(crate) fn take(&mut self, index: usize) -> T
        requires { IsPresent self.old.held index }
        ensures { (get_or self.old.held index None ≡ Some result) × (self.new.held ≡ slice_set self.old.held index None) × (self.new.alloc ≡ self.old.alloc) }
    {
        let start = self.start();
        self.take_from(start, index)
    }

    /// Moves `item` into the place at `index`, which is empty.
    pub(crate) fn set(&mut self, index: usize, item: T)
        requires { (index < length self.old.held) × (get_or self.old.held index None ≡ None) }
        ensures { (self.new.held ≡ slice_set self.old.held index (Some item)) × (self.new.alloc ≡ self.old.alloc) }
    {
        let start = self.start();
        self.set_from(start, index, item)
    }

    /// The items in the first `len` places.
    pub(crate) fn as_slice(&self, len: usize) -> &[T]
        requires { ArePresent self.now.held len }
        ensures { take len self.now.held ≡ map Some result.now }
    {
        unsafe { slice::from_raw_parts(self.start as *mut T, len) }
    }
}
