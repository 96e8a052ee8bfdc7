//! The items at places of a vector.
ghost use Rattle.std.specs.Prelude.{◌≡◌, ◌-◌, length, slice_get};
ghost use Rattle.std.specs.List.{list_any};
ghost use Rattle.std.specs.Option.{option_copied};
ghost use Rattle.std.specs.Slice.{IsGetResult, IsItemAt};

use super::TryVec;
use fc_base::Handle;
use std::ops::Index;

impl<T, A: Handle> TryVec<T, A> {
    /// The item at `index`; `None` from the length on. Upstream: `get` of the slice.
    pub fn get(&self, index: usize) -> Option<&T>
        ensures value { option_copied result ≡ slice_get self.now.items index }
        ensures item { IsItemAt self.now.items index result }
    {
        self.inner.as_slice().get(index)
    }

    /// The first item; `None` where there is none. Upstream: `first` of the slice.
    pub fn first(&self) -> Option<&T>
        ensures value { option_copied result ≡ slice_get self.now.items 0 }
        ensures item { IsItemAt self.now.items 0 result }
    {
        self.inner.as_slice().first()
    }

    /// The last item; `None` where there is none. Upstream: `last` of the slice.
    pub fn last(&self) -> Option<&T>
        ensures value { option_copied result ≡ slice_get self.now.items (length self.now.items - 1) }
        ensures item { IsGetResult self.now.items 0 (length self.now.items - 1) result }
    {
        self.inner.as_slice().last()
    }

    /// Whether an item is equal to this one. Upstream: `contains` of the slice.
    pub fn contains(&self, item: &T) -> bool
    where
        T: PartialEq,
        ensures { result ≡ list_any (λ x. T.eq x item.now) self.now.items }
    {
        self.inner.as_slice().contains(item)
    }
}

/// The item at a place below the length: a condition on the caller, where upstream panics.
impl<T, A: Handle> Index<usize> for TryVec<T, A> {
    ghost use Rattle.std.specs.Prelude.{◌≡◌, ◌<◌, length, slice_index_or};

    type Output = T;

    ghost can_index = { λ v i. i < length v.items };

    ghost index_gives = { λ v i x. x ≡ slice_index_or v.items i x };

    fn index(&self, index: usize) -> &T {
        &self.inner[index]
    }
}
