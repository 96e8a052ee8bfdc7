//! A vector's items put in order, in place.
ghost use Rattle.std.specs.Prelude.{◌≡◌, ◌<◌, length, OnOk, IfErr};
ghost use Rattle.std.specs.List.Sorted.{IsPermutation, IsSorted, IsSortedByClosure, IsSortedByKeyClosure, IsStable, IsStableByClosure, IsStableByKeyClosure};

use super::TryVec;
use fc_base::{Handle, TryReserveError};
use std::cmp::Ordering;

impl<T, A: Handle> TryVec<T, A> {
    /// Puts the items in ascending order; it takes no memory, and equal ones may change places. Upstream: `sort_unstable` of the
    /// slice.
    pub fn sort_unstable(&mut self)
    where
        T: Ord,
        ensures permutation { IsPermutation self.old.items self.new.items }
        ensures sorted { IsSorted T.cmp self.new.items }
        ensures length { length self.new.items ≡ length self.old.items }
        ensures room { self.new.room ≡ self.old.room }
    {
        self.inner.sort_unstable();
    }

    /// Puts the items in the order that `compare` tells; it takes no memory, and those that it calls equal may change places.
    /// Upstream: `sort_unstable_by` of the slice.
    pub fn sort_unstable_by<F: FnMut(&T, &T) -> Ordering>(&mut self, compare: F)
        requires { F.IsAlwaysCallable compare }
        ensures permutation { IsPermutation self.old.items self.new.items }
        ensures sorted { IsSortedByClosure F.FnMut compare self.new.items }
        ensures length { length self.new.items ≡ length self.old.items }
        ensures room { self.new.room ≡ self.old.room }
    {
        self.inner.sort_unstable_by(compare);
    }

    /// Puts the items in ascending order of their keys, which `key_of` tells; it takes no memory, and those with equal keys may change places. Upstream:
    /// `sort_unstable_by_key` of the slice.
    pub fn sort_unstable_by_key<K: Ord, F: FnMut(&T) -> K>(&mut self, key_of: F)
    where
        K: Drop,
        requires { F.IsAlwaysCallable key_of }
        ensures permutation { IsPermutation self.old.items self.new.items }
        ensures sorted { IsSortedByKeyClosure F.FnMut K.cmp key_of self.new.items }
        ensures length { length self.new.items ≡ length self.old.items }
        ensures room { self.new.room ≡ self.old.room }
    {
        self.inner.sort_unstable_by_key(key_of);
    }

    /// Puts the items in ascending order, and leaves equal ones in the order in which they are. Twenty items or fewer take no memory. Upstream: `sort` of
    /// the slice, which aborts where memory is refused.
    ///
    /// # Errors
    /// `AllocError` where memory was refused, which is given back before the call ends. The vector is then as before.
    pub fn sort(&mut self) -> Result<(), TryReserveError>
    where
        T: Ord,
        ensures permutation { IsPermutation self.old.items self.new.items }
        ensures sorted { OnOk result (IsSorted T.cmp self.new.items) }
        ensures stable { IsStable T.cmp self.old.items self.new.items }
        ensures length { length self.new.items ≡ length self.old.items }
        ensures room { self.new.room ≡ self.old.room }
        ensures error { IfErr result (λ e. (20 < length self.old.items) × (e ≡ TryReserveError.AllocError) × (self.new ≡ self.old)) }
    {
        self.inner.sort()?;
        Ok(())
    }

    /// Puts the items in the order that `compare` tells, and leaves those that it calls equal in the order in which they are. Twenty items or fewer take no
    /// memory. Upstream: `sort_by` of the slice, which aborts where memory is refused.
    ///
    /// # Errors
    /// As `sort`.
    pub fn sort_by<F: FnMut(&T, &T) -> Ordering>(
        &mut self,
        compare: F,
    ) -> Result<(), TryReserveError>
        requires { F.IsAlwaysCallable compare }
        ensures permutation { IsPermutation self.old.items self.new.items }
        ensures sorted { OnOk result (IsSortedByClosure F.FnMut compare self.new.items) }
        ensures stable { IsStableByClosure F.FnMut compare self.old.items self.new.items }
        ensures length { length self.new.items ≡ length self.old.items }
        ensures room { self.new.room ≡ self.old.room }
        ensures error { IfErr result (λ e. (20 < length self.old.items) × (e ≡ TryReserveError.AllocError) × (self.new ≡ self.old)) }
    {
        self.inner.sort_by(compare)?;
        Ok(())
    }

    /// Puts the items in ascending order of their keys, which `key_of` tells, and leaves those with equal keys in the order in which they are. Twenty items or
    /// fewer take no memory. Upstream: `sort_by_key` of the slice, which aborts where memory is refused.
    ///
    /// # Errors
    /// As `sort`.
    pub fn sort_by_key<K: Ord, F: FnMut(&T) -> K>(
        &mut self,
        key_of: F,
    ) -> Result<(), TryReserveError>
    where
        K: Drop,
        requires { F.IsAlwaysCallable key_of }
        ensures permutation { IsPermutation self.old.items self.new.items }
        ensures sorted { OnOk result (IsSortedByKeyClosure F.FnMut K.cmp key_of self.new.items) }
        ensures stable { IsStableByKeyClosure F.FnMut K.cmp key_of self.old.items self.new.items }
        ensures length { length self.new.items ≡ length self.old.items }
        ensures room { self.new.room ≡ self.old.room }
        ensures error { IfErr result (λ e. (20 < length self.old.items) × (e ≡ TryReserveError.AllocError) × (self.new ≡ self.old)) }
    {
        self.inner.sort_by_key(key_of)?;
        Ok(())
    }
}
