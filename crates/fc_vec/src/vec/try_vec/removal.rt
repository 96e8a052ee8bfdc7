//! Items taken out of a vector, which takes no memory and gives no room back.
ghost use Rattle.std.specs.Prelude.{◌≡◌, ◌+◌, ◌<◌, ◌≤◌, length, take, slice_index_or};
ghost use Rattle.std.specs.Fn.{CalledAt};
ghost use Rattle.std.specs.List.{remove, swap_remove, dedup};
ghost use Rattle.std.specs.List.Retain.{IsFiltered};

use super::TryVec;
use fc_base::Handle;

impl<T, A: Handle> TryVec<T, A> {
    /// Keeps the first `len` items and drops those after them; where there are no more, it does nothing. Not in upstream: it is
    /// that of std's vector.
    pub fn truncate(&mut self, len: usize)
    where
        T: Drop,
        ensures items { self.new.items ≡ take len self.old.items }
        ensures room { self.new.room ≡ self.old.room }
    {
        self.inner.truncate(len);
    }

    /// Takes out the item at `index`, which is below the length; those after it move down by one place. Not in upstream: it is that
    /// of std's vector, which panics from the length on.
    pub fn remove(&mut self, index: usize) -> T
        requires { index < length self.old.items }
        ensures value { result ≡ slice_index_or self.old.items index result }
        ensures items { self.new.items ≡ remove self.old.items index }
        ensures length { length self.new.items + 1 ≡ length self.old.items }
        ensures room { self.new.room ≡ self.old.room }
    {
        self.inner.remove(index)
    }

    /// Takes out the item at `index`, which is below the length; the last one takes its place. Not in upstream: it is that of std's
    /// vector, which panics from the length on.
    pub fn swap_remove(&mut self, index: usize) -> T
        requires { index < length self.old.items }
        ensures value { result ≡ slice_index_or self.old.items index result }
        ensures items { self.new.items ≡ swap_remove self.old.items index result }
        ensures length { length self.new.items + 1 ≡ length self.old.items }
        ensures room { self.new.room ≡ self.old.room }
    {
        self.inner.swap_remove(index)
    }

    /// Calls `keep` once at each item, in order, and drops those at which it answers `false`. Not in upstream: it is that of std's
    /// vector.
    pub fn retain<F: FnMut(&T) -> bool>(&mut self, keep: F)
    where
        T: Drop,
        requires { F.IsAlwaysCallable keep }
        ensures filtered { IsFiltered (CalledAt F.FnMut) keep self.old.items self.new.items }
        ensures length { length self.new.items ≤ length self.old.items }
        ensures room { self.new.room ≡ self.old.room }
    {
        self.inner.retain(keep);
    }

    /// Drops each item that is equal to the last one kept before it. Not in upstream: it is that of std's vector.
    pub fn dedup(&mut self)
    where
        T: PartialEq + Drop,
        ensures items { self.new.items ≡ dedup T.eq self.old.items }
        ensures room { self.new.room ≡ self.old.room }
    {
        self.inner.dedup();
    }
}
