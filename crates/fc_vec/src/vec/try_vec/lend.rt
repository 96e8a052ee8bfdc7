//! A vector's items, lent for writing.
ghost use Rattle.std.specs.Prelude.{◌≡◌, ◌-◌, ◌^◌, ◌<◌, length, slice_get, slice_index_or};
ghost use Rattle.std.specs.Borrow.{sem};
ghost use Rattle.std.specs.Option.{option_copied_mut};
ghost use Rattle.std.specs.List.{ItemMut, IsItemAtMut};
ghost use Rattle.std.specs.Iterator.Runs.{EveryRun, ItemsMapTo};
ghost use Rattle.std.specs.Slice.Iter.{iter_mut_rest, iter_mut_steps};
ghost use Rattle.fc_vec.specs.Lends.{lends_slice_in, lends_walk_in, lends_item_in, lends_item_if_in};

use super::TryVec;
use fc_base::Handle;
use std::ops::IndexMut;
use std::slice;

impl<T, A: Handle> TryVec<T, A> {
    /// The items, for writing. Upstream: `TryVec::as_mut_slice`.
    pub fn as_mut_slice(&mut self) -> &mut [T]
        ensures* writes_back { sem 𝓛 (lends_slice_in T.row A.row A.Allocator self.entry result) }
        ensures value { result.now ≡ self.old.items }
    {
        self.inner.as_mut_slice()
    }

    /// A walk that lends each item for writing, in order: std's walk over a slice. Upstream: `TryVec::iter_mut`.
    pub fn iter_mut(&mut self) -> slice::IterMut<'_, T>
        ensures* writes_back { sem 𝓛 (lends_walk_in T.row A.row A.Allocator self.entry result) }
        ensures items { iter_mut_rest result ≡ self.old.items }
        ensures runs { EveryRun (iter_mut_steps {A = T}) (λ p. ItemsMapTo p (λ x. x.now) (iter_mut_rest p.from)) }
    {
        self.as_mut_slice().iter_mut()
    }

    /// The item at `index`, for writing; `None` from the length on. Upstream: `get_mut` of the slice.
    pub fn get_mut(&mut self, index: usize) -> Option<&mut T>
        ensures* writes_back { sem 𝓛 (lends_item_if_in T.row A.row A.Allocator self.entry index result) }
        ensures value { option_copied_mut result ≡ slice_get self.old.items index }
        ensures item { IsItemAtMut self.old.items index result }
    {
        self.inner.get_mut(index)
    }

    /// The first item, for writing; `None` where there is none. Upstream: `first_mut` of the slice.
    pub fn first_mut(&mut self) -> Option<&mut T>
        ensures* writes_back { sem 𝓛 (lends_item_if_in T.row A.row A.Allocator self.entry 0 result) }
        ensures value { option_copied_mut result ≡ slice_get self.old.items 0 }
        ensures item { IsItemAtMut self.old.items 0 result }
    {
        self.inner.first_mut()
    }

    /// The last item, for writing; `None` where there is none. Upstream: `last_mut` of the slice.
    pub fn last_mut(&mut self) -> Option<&mut T>
        ensures* writes_back { sem 𝓛 (lends_item_if_in T.row A.row A.Allocator self.entry (length self.old.items - 1) result) }
        ensures value { option_copied_mut result ≡ slice_get self.old.items (length self.old.items - 1) }
        ensures item { ItemMut self.old.items 0 (length self.old.items - 1) result }
    {
        self.inner.last_mut()
    }
}

/// The item at a place below the length, for writing: a condition on the caller, where upstream panics.
impl<T, A: Handle> IndexMut<usize> for TryVec<T, A> {
    fn index_mut(&mut self, index: usize) -> &mut T
        requires { index < length self.old.items }
        ensures* writes_back { sem 𝓛 (lends_item_in T.row A.row A.Allocator self.entry index result) }
        ensures value { result.now ≡ slice_index_or self.old.items index result.now }
    {
        &mut self.inner[index]
    }
}

/// A walk that lends each item for writing, in order: std's walk over a slice.
impl<'a, T, A: Handle> IntoIterator for &'a mut TryVec<T, A> {
    type Item = &'a mut T;

    type IntoIter = slice::IterMut<'a, T>;

    ghost into_iter_gives = { λ v r. (iter_mut_rest r ≡ v.now.items) × (length (iter_mut_rest r) < 2 ^ 64) × EveryRun (iter_mut_steps {A = T}) (λ p. ItemsMapTo p (λ x. x.now) (iter_mut_rest p.from)) };

    fn into_iter(self) -> slice::IterMut<'a, T>
        ensures* writes_back { sem 𝓛 (lends_walk_in T.row A.row A.Allocator self.entry result) }
        ensures into_iter_gives { (iter_mut_rest result ≡ self.old.items) × (length (iter_mut_rest result) < 2 ^ 64) × EveryRun (iter_mut_steps {A = T}) (λ p. ItemsMapTo p (λ x. x.now) (iter_mut_rest p.from)) }
    {
        let items = self.as_mut_slice();
        items.iter_mut()
    }
}
