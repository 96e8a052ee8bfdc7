//! Items taken out of a vector by closures that may write them.
ghost use Rattle.std.specs.Prelude.{◌≡◌, ◌+◌, ◌≤◌, length};
ghost use Rattle.std.specs.Fn.{CalledAtMut, CalledAtPairMut, ComparesKeys};
ghost use Rattle.std.specs.List.Retain.{RetainsInTurn, IsDeduped, PopsIf};

use super::TryVec;
use fc_base::Handle;

impl<T, A: Handle> TryVec<T, A> {
    /// Calls `keep` once at each item, in order, which may write it, and drops those at which it answers `false`. Not in upstream: it is that of std's
    /// vector.
    pub fn retain_mut<F: FnMut(&mut T) -> bool>(&mut self, keep: F)
    where
        T: Drop,
        requires { F.IsAlwaysCallable keep }
        ensures retained { RetainsInTurn (CalledAtMut F.FnMut) keep self.old.items self.new.items }
        ensures length { length self.new.items ≤ length self.old.items }
        ensures room { self.new.room ≡ self.old.room }
    {
        self.inner.retain_mut(keep);
    }

    /// Drops each item whose key, which `key_of` tells, is equal to that of the last item kept before it. Not in upstream: it is that of std's vector.
    pub fn dedup_by_key<K: PartialEq + Drop, F: FnMut(&mut T) -> K>(&mut self, key_of: F)
    where
        T: Drop,
        requires { F.IsAlwaysCallable key_of }
        ensures deduped { IsDeduped (ComparesKeys F.FnMut K.eq) key_of self.old.items self.new.items }
        ensures length { length self.new.items ≤ length self.old.items }
        ensures room { self.new.room ≡ self.old.room }
    {
        self.inner.dedup_by_key(key_of);
    }

    /// Drops each item that `is_same` calls the same as the last one kept before it, which it gets second. Not in upstream: it is that of std's vector.
    pub fn dedup_by<F: FnMut(&mut T, &mut T) -> bool>(&mut self, is_same: F)
    where
        T: Drop,
        requires { F.IsAlwaysCallable is_same }
        ensures deduped { IsDeduped (CalledAtPairMut F.FnMut) is_same self.old.items self.new.items }
        ensures length { length self.new.items ≤ length self.old.items }
        ensures room { self.new.room ≡ self.old.room }
    {
        self.inner.dedup_by(is_same);
    }

    /// Takes out the last item where `is_taken`, called at it, answers `true`; `None` where it does not, or where there is none. Not in upstream: it is
    /// that of std's vector.
    pub fn pop_if<P: FnOnce(&mut T) -> bool>(&mut self, is_taken: P) -> Option<T>
        requires { P.IsAlwaysCallable is_taken }
        ensures popped { PopsIf P.FnOnce self.old.items self.new.items is_taken result }
        ensures room { self.new.room ≡ self.old.room }
    {
        self.inner.pop_if(is_taken)
    }
}
