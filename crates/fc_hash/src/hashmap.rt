//! A map by the hashes of its keys.
ghost use Rattle.std.specs.Prelude.{◌≡◌, ◌+◌, ◌^◌, ◌<◌, ◌≤◌, [], length, None, Some, Option, is_some, if◌then◌else◌, IfOk, OnOk, IfErr, IsOk};
ghost use Rattle.std.specs.Option.{option_copied};
ghost use Rattle.fc_base.specs.Growth.{append_error};
ghost use Rattle.fc_hash.specs.Pairs.{IsMap, value_at, IsPut, IsTaken};

mod compare;
mod copy;
mod debug;
mod extend;
mod into_keys;
mod iter;
mod lend;
mod std_clone;
mod std_map;
mod whole;

use fc_base::{Handle, TryReserveError};
use std::alloc::Global;
use std::collections::HashMap;
use std::hash::{BuildHasherDefault, FoldHasher, Hash};
use std::marker::Model;

/// A map whose keys are found by their hashes. Its pairs have no order: a walk gives them in one that any change may alter.
/// Upstream: `TryHashMap`.
///
/// The hasher is std's fixed one, so whoever chooses the keys can choose many of one hash, and each call then looks at all of
/// them. Where keys come from outside, take `BTreeMap`, whose calls compare few keys whatever these are.
#[derive(Drop)]
pub struct TryHashMap<K: Eq + Hash, V, A: Handle = Global> {
    inner: HashMap<K, V, BuildHasherDefault<FoldHasher>, A>,
    alloc: A,
}

impl<K: Eq + Hash, V, A: Handle> Model for TryHashMap<K, V, A> {
    ghost use Rattle.std.specs.HashMap.{spare as spare_of};
    ghost use Rattle.fc_hash.specs.Pairs.{Hashed};

    ghost Value = { Hashed K V };

    ghost view = { λ m. record { pairs = m.inner.entries; spare = spare_of m.inner } };
}

impl<K: Eq + Hash, V, A: Handle> TryHashMap<K, V, A> {
    /// An empty map, as `default` makes it. Not in upstream: it is that of std's map.
    pub fn new(alloc: A) -> TryHashMap<K, V, A>
        ensures { result.pairs ≡ [] }
    {
        TryHashMap::default(alloc)
    }

    /// An empty map, which takes no memory. Later requests go to `alloc`. Upstream: `TryHashMap::default`.
    pub fn default(alloc: A) -> TryHashMap<K, V, A>
        ensures { result.pairs ≡ [] }
    {
        TryHashMap {
            inner: HashMap::new(alloc),
            alloc,
        }
    }

    /// An empty map with room for `capacity` pairs: so many insertions are `Ok`. No capacity takes no memory. Upstream:
    /// `TryHashMap::with_capacity`.
    ///
    /// # Errors
    /// `AllocError` where the room was refused.
    pub fn with_capacity(alloc: A, capacity: usize) -> Result<TryHashMap<K, V, A>, TryReserveError>
        ensures pairs { IfOk result (λ m. m.pairs ≡ []) }
        ensures spare { IfOk result (λ m. capacity ≤ m.spare) }
        ensures none { capacity ≡ 0 → IsOk result }
        ensures error { IfErr result (λ e. e ≡ TryReserveError.AllocError) }
    {
        if capacity == 0 {
            return Ok(TryHashMap::default(alloc));
        }
        let inner = HashMap::with_capacity(alloc, capacity)?;
        Ok(TryHashMap { inner, alloc })
    }

    /// The number of pairs. Upstream: `TryHashMap::len`.
    pub fn len(&self) -> usize
        ensures len { result ≡ length self.now.pairs }
        ensures map { IsMap K.eq self.now.pairs }
    {
        self.inner.len()
    }

    /// The value at the key that is equal to this one. Upstream: `TryHashMap::get`.
    pub fn get(&self, key: &K) -> Option<&V>
        ensures { option_copied result ≡ value_at K.eq key.now self.now.pairs }
    {
        self.inner.get(key)
    }

    /// Whether there is a key equal to this one. Not in upstream: it is that of std's map.
    pub fn contains_key(&self, key: &K) -> bool
        ensures { result ≡ is_some (value_at K.eq key.now self.now.pairs) }
    {
        self.inner.contains_key(key)
    }

    /// Puts the value at the key, and answers the value that was there. A key that is there stays, and `key` is dropped: that takes
    /// no memory. Where there is room, no insertion is refused, and each uses up room for at most one. Upstream: `TryHashMap::insert`.
    ///
    /// # Errors
    /// Only where the key is new and there was no room: `CapacityOverflow` exactly where the length plus one passes `usize::MAX`, else
    /// `AllocError`. The map has then the pairs that it had, and key and value are dropped.
    pub fn insert(&mut self, key: K, value: V) -> Result<Option<V>, TryReserveError>
    where
        K: Drop,
        V: Drop,
        ensures put { IfOk result (λ old. IsPut K.eq key value old self.old.pairs self.new.pairs) }
        ensures values { OnOk result ((q : K) → value_at K.eq q self.new.pairs ≡ (if K.eq key q then Some value else value_at K.eq q self.old.pairs)) }
        ensures map { IsMap K.eq self.new.pairs }
        ensures length { length self.new.pairs < 2 ^ 64 }
        ensures fits { 0 < self.old.spare → IsOk result }
        ensures kept { self.old.spare ≤ self.new.spare + 1 }
        ensures error { IfErr result (λ e. (self.old.spare ≡ 0) × (value_at K.eq key self.old.pairs ≡ None) × (e ≡ append_error (length self.old.pairs) 1) × (self.new.pairs ≡ self.old.pairs)) }
    {
        // std's map never has so many pairs that one more passes the greatest length.
        let _len = self.inner.len();
        let old = self.inner.insert(key, value)?;
        Ok(old)
    }

    /// Takes out the pair at the key that is equal to this one, drops its key and answers its value. It takes no memory, and there is
    /// room for as many insertions as before.
    /// Upstream: `TryHashMap::remove`.
    pub fn remove(&mut self, key: &K) -> Option<V>
    where
        K: Drop,
        ensures taken { IsTaken K.eq key.now result self.old.pairs self.new.pairs }
        ensures values { (q : K) → value_at K.eq q self.new.pairs ≡ (if K.eq key.now q then None else value_at K.eq q self.old.pairs) }
        ensures map { IsMap K.eq self.new.pairs }
        ensures kept { self.old.spare ≤ self.new.spare }
    {
        self.inner.remove(key)
    }
}
