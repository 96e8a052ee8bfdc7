//! A set by the hashes of its items.
ghost use Rattle.std.specs.Prelude.{◌≡◌, ◌+◌, ◌^◌, ◌<◌, ◌≤◌, ◌↔◌, [], length, not, IfOk, IfErr, OnOk, IsOk, IsTrue, false};
ghost use Rattle.std.specs.List.Sorted.{IsPermutation};
ghost use Rattle.std.specs.Set.{is_member};
ghost use Rattle.fc_base.specs.Growth.{append_error};
ghost use Rattle.fc_hash.specs.Items.{IsSet, item_at, IsReplaced};
ghost use Rattle.fc_hash.specs.ItemsPut.{IsPutIn};

mod algebra;
mod copy;
mod extend;
mod std_set;

use fc_base::{Handle, TryReserveError};
use std::alloc::Global;
use std::collections::HashSet;
use std::hash::{BuildHasherDefault, FoldHasher, Hash};
use std::marker::Model;

/// A set whose items are found by their hashes. They have no order: a walk gives them in one that any change may alter. It reads and writes as
/// std's set does, `contains`, `get`, `take`, `remove`, `iter`, `drain`, `retain`, .., and its own calls are those that take memory, a second set,
/// or the set by value. Upstream has none.
///
/// The hasher is std's fixed one: see `TryHashMap`.
#[derive(Drop)]
pub struct TryHashSet<T: Eq + Hash, A: Handle = Global> {
    inner: HashSet<T, BuildHasherDefault<FoldHasher>, A>,
    alloc: A,
}

impl<T: Eq + Hash, A: Handle> Model for TryHashSet<T, A> {
    ghost use Rattle.std.specs.HashSet.{spare as spare_of};
    ghost use Rattle.fc_hash.specs.Items.{HashedSet};

    ghost Value = { HashedSet T };

    ghost view = { λ s. record { items = s.inner.keys; spare = spare_of s.inner } };
}

impl<T: Eq + Hash, A: Handle> TryHashSet<T, A> {
    /// An empty set, which takes no memory. Later requests go to `alloc`. std's `HashSet::new`.
    pub fn new(alloc: A) -> TryHashSet<T, A>
        ensures { result.items ≡ [] }
    {
        TryHashSet {
            inner: HashSet::new(alloc),
            alloc,
        }
    }

    /// An empty set, as `new` makes it. std's `HashSet::default`.
    pub fn default(alloc: A) -> TryHashSet<T, A>
        ensures { result.items ≡ [] }
    {
        TryHashSet::new(alloc)
    }

    /// An empty set with room for `capacity` items: so many insertions are `Ok`. No capacity takes no memory. std's `HashSet::with_capacity`.
    ///
    /// # Errors
    /// `AllocError` where the room was refused.
    pub fn with_capacity(alloc: A, capacity: usize) -> Result<TryHashSet<T, A>, TryReserveError>
        ensures items { IfOk result (λ s. s.items ≡ []) }
        ensures spare { IfOk result (λ s. capacity ≤ s.spare) }
        ensures none { capacity ≡ 0 → IsOk result }
        ensures error { IfErr result (λ e. e ≡ TryReserveError.AllocError) }
    {
        if capacity == 0 {
            return Ok(TryHashSet::new(alloc));
        }
        let inner = HashSet::with_capacity(alloc, capacity)?;
        Ok(TryHashSet { inner, alloc })
    }

    /// The number of items. std's `HashSet::len`.
    pub fn len(&self) -> usize
        ensures len { result ≡ length self.now.items }
        ensures set { IsSet T.eq self.now.items }
    {
        self.inner.len()
    }

    /// Whether there is no item. std's `HashSet::is_empty`.
    pub fn is_empty(&self) -> bool
        ensures { IsTrue result ↔ (self.now.items ≡ []) }
    {
        self.inner.len() == 0
    }

    /// Puts the item in, and answers whether it is new. An equal item that is there stays, and `item` is dropped: that takes no memory. Where
    /// there is room, no insertion is refused, and each uses up room for at most one. std's `HashSet::insert`.
    ///
    /// # Errors
    /// Only where the item is new and there was no room: `CapacityOverflow` exactly where the length plus one passes `usize::MAX`, else
    /// `AllocError`. The set has then the items that it had, and `item` comes back.
    pub fn insert(&mut self, item: T) -> Result<bool, (T, TryReserveError)>
    where
        T: Drop,
        ensures new { IfOk result (λ new. new ≡ not (is_member T.eq self.old.items item)) }
        ensures put { OnOk result (IsPutIn T.eq item self.old.items self.new.items) }
        ensures set { IsSet T.eq self.new.items }
        ensures length { length self.new.items < 2 ^ 64 }
        ensures fits { 0 < self.old.spare → IsOk result }
        ensures kept { self.old.spare ≤ self.new.spare + 1 }
        ensures back { IfErr result (λ e. e.0 ≡ item) }
        ensures error { IfErr result (λ e. (self.old.spare ≡ 0) × (is_member T.eq self.old.items item ≡ false) × (e.1 ≡ append_error (length self.old.items) 1) × (self.new.items ≡ self.old.items)) }
    {
        // std's set never has so many items that one more passes the greatest length.
        let _len = self.inner.len();
        match self.inner.insert(item) {
            Ok(new) => Ok(new),
            Err(refused) => Err((refused.value, TryReserveError::AllocError)),
        }
    }

    /// Puts the item in the place of the equal one, which it answers, or beside the others where there is none. Where there is room, or an
    /// equal item, it is never refused. std's `HashSet::replace`.
    ///
    /// # Errors
    /// As `insert`.
    pub fn replace(&mut self, item: T) -> Result<Option<T>, (T, TryReserveError)>
    where
        T: Drop,
        ensures old { IfOk result (λ old. old ≡ item_at T.eq item self.old.items) }
        ensures put { IfOk result (λ old. IsReplaced T.eq item old self.old.items self.new.items) }
        ensures set { IsSet T.eq self.new.items }
        ensures fits { 0 < self.old.spare → IsOk result }
        ensures kept { self.old.spare ≤ self.new.spare + 1 }
        ensures back { IfErr result (λ e. e.0 ≡ item) }
        ensures error { IfErr result (λ e. (self.old.spare ≡ 0) × (is_member T.eq self.old.items item ≡ false) × (e.1 ≡ append_error (length self.old.items) 1) × (self.new.items ≡ self.old.items)) }
    {
        let _len = self.inner.len();
        match self.inner.replace(item) {
            Ok(old) => Ok(old),
            Err(refused) => Err((refused.value, TryReserveError::AllocError)),
        }
    }

    /// Makes room for `additional` more items: where that is `Ok`, so many insertions of new items are never refused. A reservation that
    /// fits, as that of no item, takes no memory and is `Ok`. std's `HashSet::reserve`.
    ///
    /// # Errors
    /// `CapacityOverflow` exactly where the length plus `additional` passes `usize::MAX`, else `AllocError`. The set has then the items
    /// that it had.
    pub fn reserve(&mut self, additional: usize) -> Result<(), TryReserveError>
        ensures items { IsPermutation self.old.items self.new.items }
        ensures set { IsSet T.eq self.new.items }
        ensures room { OnOk result (additional ≤ self.new.spare) }
        ensures length { OnOk result (length self.old.items + additional < 2 ^ 64) }
        ensures kept { self.old.spare ≤ self.new.spare }
        ensures fits { additional ≤ self.old.spare → IsOk result × (self.new ≡ self.old) }
        ensures error { IfErr result (λ e. (self.old.spare < additional) × (e ≡ append_error (length self.old.items) additional) × (self.new.items ≡ self.old.items)) }
    {
        let len = self.inner.len();
        if additional <= self.inner.capacity() - len {
            return Ok(());
        }
        if len.checked_add(additional).is_none() {
            return Err(TryReserveError::CapacityOverflow);
        }
        self.inner.reserve(additional)?;
        Ok(())
    }
}
