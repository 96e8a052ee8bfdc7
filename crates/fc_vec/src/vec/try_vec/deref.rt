//! A vector where a slice is wanted: `&v` and `&mut v` for `&[T]` and `&mut [T]`, `v[a..b]`, and the calls of the slice that are not named here.
ghost use Rattle.std.specs.Prelude.{◌≡◌};
ghost use Rattle.std.specs.Borrow.{sem};
ghost use Rattle.fc_vec.specs.Lends.{lends_slice_in};

use super::TryVec;
use fc_base::Handle;
use std::convert::AsSlice;
use std::ops::{DerefSlice, DerefSliceMut};

/// The items, for reading. Upstream: `Deref` for `TryVec`.
impl<T, A: Handle> DerefSlice for TryVec<T, A> {
    type Elem = T;

    ghost deref_gives = { λ v xs. xs ≡ v.items };

    fn deref(&self) -> &[T] {
        self.inner.as_slice()
    }
}

/// The items, for writing. Upstream: `DerefMut` for `TryVec`.
impl<T, A: Handle> DerefSliceMut for TryVec<T, A> {
    fn deref_mut(&mut self) -> &mut [T]
        ensures* writes_back { sem 𝓛 (lends_slice_in T.row A.row A.Allocator self.entry result) }
        ensures value { result.now ≡ self.old.items }
    {
        self.as_mut_slice()
    }
}

/// The items, for reading, where a type is asked for that has a slice. Upstream: `AsRef` for `TryVec`.
impl<T, A: Handle> AsSlice<T> for TryVec<T, A> {
    ghost items = { λ v. v.items };

    fn as_slice(&self) -> &[T] {
        self.inner.as_slice()
    }
}
