//! The places of items in a vector whose items are in order. Where they are not, an answer is within the length, and an `Ok` is the place of such an item.
ghost use Rattle.std.specs.Prelude.{◌≡◌, ◌≤◌, Bool, true, false, length};
ghost use Rattle.std.specs.declared.cmp.Ordering.{Ordering};
ghost use Rattle.std.specs.Fn.{ComputesKey};
ghost use Rattle.std.specs.List.Sorted.{IsBinarySearchResult, IsPartitionPoint, IsPartitionedBy, IsSearchInRange};

use super::TryVec;
use fc_base::Handle;
use std::cmp::Ordering;

impl<T, A: Handle> TryVec<T, A> {
    /// The place of an item that is equal to this one, as `Ok`; where there is none, the place at which it would be in order, as `Err`. Upstream:
    /// `binary_search` of the slice.
    pub fn binary_search(&self, item: &T) -> Result<usize, usize>
    where
        T: Ord,
        ensures within { IsSearchInRange result (length self.now.items) }
        ensures place { IsBinarySearchResult (λ y. T.cmp y item.now) self.now.items result }
    {
        self.inner.as_slice().binary_search(item)
    }

    /// As `binary_search`, of an item at which `compare`, which tells how an item stands to what is sought, answers `Equal`. Upstream:
    /// `binary_search_by` of the slice.
    pub fn binary_search_by<F: FnMut(&T) -> Ordering>(&self, compare: F) -> Result<usize, usize>
        requires { F.IsAlwaysCallable compare }
        ensures within { IsSearchInRange result (length self.now.items) }
        ensures place { (order : T → Ordering) → ComputesKey F.FnMut order compare → IsBinarySearchResult order self.now.items result }
    {
        self.inner.as_slice().binary_search_by(compare)
    }

    /// As `binary_search`, of an item whose key, which `key_of` tells, is equal to this one. Upstream: `binary_search_by_key` of the slice.
    pub fn binary_search_by_key<B: Ord, F: FnMut(&T) -> B>(
        &self,
        key: &B,
        key_of: F,
    ) -> Result<usize, usize>
    where
        B: Drop,
        requires { F.IsAlwaysCallable key_of }
        ensures within { IsSearchInRange result (length self.now.items) }
        ensures place { (by : T → B) → ComputesKey F.FnMut by key_of → IsBinarySearchResult (λ y. B.cmp (by y) key.now) self.now.items result }
    {
        self.inner.as_slice().binary_search_by_key(key, key_of)
    }

    /// The place of the first item at which `is_before` answers `false`, or the length, where all those at which it answers `true` stand before the
    /// others. Upstream: `partition_point` of the slice.
    pub fn partition_point<P: FnMut(&T) -> bool>(&self, is_before: P) -> usize
        requires { P.IsAlwaysCallable is_before }
        ensures within { result ≤ length self.now.items }
        ensures place { (told : T → Bool) → ComputesKey P.FnMut told is_before → IsPartitionedBy told self.now.items → IsPartitionPoint (λ y. told y ≡ true) (λ y. told y ≡ false) self.now.items result }
    {
        self.inner.as_slice().partition_point(is_before)
    }
}
