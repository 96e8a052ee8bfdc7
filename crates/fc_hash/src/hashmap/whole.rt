//! Calls on all pairs of a hashed map, and on its room.
ghost use Rattle.std.specs.Prelude.{◌≡◌, ◌+◌, ◌^◌, ◌<◌, ◌≤◌, [], length, OnOk, IfErr, IsOk, IsTrue, ◌↔◌};
ghost use Rattle.std.specs.List.Sorted.{IsPermutation};
ghost use Rattle.std.specs.Map.Calls.{CalledAtPair, TakesPair, CallableOnEachPair, RetainsPairs};
ghost use Rattle.fc_base.specs.Growth.{append_error};
ghost use Rattle.fc_hash.specs.Pairs.{IsMap, value_at};

use super::TryHashMap;
use fc_base::{Handle, TryReserveError};
use std::hash::Hash;

impl<K: Eq + Hash, V, A: Handle> TryHashMap<K, V, A> {
    /// Whether there is no pair. Not in upstream: it is that of std's map.
    pub fn is_empty(&self) -> bool
        ensures { IsTrue result ↔ (self.now.pairs ≡ []) }
    {
        self.inner.len() == 0
    }

    /// Makes room for `additional` more pairs: where that is `Ok`, so many insertions of new keys are never refused. A reservation that
    /// fits, as that of no pair, takes no memory and is `Ok`. Not in upstream: it is that of std's map.
    ///
    /// # Errors
    /// `CapacityOverflow` exactly where the length plus `additional` passes `usize::MAX`, else `AllocError`. The map has then the pairs
    /// that it had.
    pub fn reserve(&mut self, additional: usize) -> Result<(), TryReserveError>
        ensures pairs { IsPermutation self.old.pairs self.new.pairs }
        ensures values { (q : K) → value_at K.eq q self.new.pairs ≡ value_at K.eq q self.old.pairs }
        ensures map { IsMap K.eq self.new.pairs }
        ensures room { OnOk result (additional ≤ self.new.spare) }
        ensures length { OnOk result (length self.old.pairs + additional < 2 ^ 64) }
        ensures kept { self.old.spare ≤ self.new.spare }
        ensures fits { additional ≤ self.old.spare → IsOk result × (self.new ≡ self.old) }
        ensures error { IfErr result (λ e. (self.old.spare < additional) × (e ≡ append_error (length self.old.pairs) additional) × (self.new.pairs ≡ self.old.pairs)) }
    {
        let len = self.inner.len();
        if additional <= self.inner.capacity() - len {
            return Ok(());
        }
        if len.checked_add(additional).is_none() {
            return Err(TryReserveError::CapacityOverflow);
        }
        self.inner.reserve(additional)?;
        Ok(())
    }

    /// Drops all pairs, and keeps the room. Not in upstream: it is that of std's map.
    pub fn clear(&mut self)
    where
        K: Drop,
        V: Drop,
        ensures pairs { self.new.pairs ≡ [] }
        ensures kept { length self.old.pairs + self.old.spare ≤ self.new.spare }
    {
        self.inner.clear();
    }

    /// Calls `keep` once at each pair, its value lent for writing, and drops those at which it answers `false`. Not in upstream: it is
    /// that of std's map.
    pub fn retain<F: FnMut(&K, &mut V) -> bool>(&mut self, keep: F)
    where
        K: Drop,
        V: Drop,
        requires { CallableOnEachPair (CalledAtPair F.FnMut) (TakesPair F.FnMut) keep self.old.pairs }
        ensures filtered { RetainsPairs (CalledAtPair F.FnMut) keep self.old.pairs self.new.pairs }
        ensures length { length self.new.pairs ≤ length self.old.pairs }
        ensures map { IsMap K.eq self.new.pairs }
        ensures kept { self.old.spare ≤ self.new.spare }
    {
        self.inner.retain(keep);
    }
}
