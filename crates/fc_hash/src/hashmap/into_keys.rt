//! The keys and the values of a hashed map by value.
ghost use Rattle.std.specs.Prelude.{◌≡◌, ◌^◌, ◌<◌, length};
ghost use Rattle.std.specs.Map.{keys_of, values_of};
ghost use Rattle.std.specs.Map.Iter.{GivesInOrder};
ghost use Rattle.fc_hash.specs.Pairs.{IsMap};

use super::TryHashMap;
use fc_base::Handle;
use std::collections::hash_map;
use std::hash::Hash;

impl<K: Eq + Hash, V, A: Handle> TryHashMap<K, V, A> {
    /// The keys by value, in the order of a walk: std's walk, which drops what it did not give, and the values. Not in upstream: it is that of
    /// std's map.
    pub fn into_keys(self) -> hash_map::IntoKeys<K, V, A>
        ensures keys { result ≡ keys_of self.pairs }
        ensures runs { GivesInOrder K }
        ensures map { IsMap K.eq self.pairs }
        ensures fits { length self.pairs < 2 ^ 63 }
    {
        let TryHashMap { inner, alloc: _ } = self;
        inner.into_keys()
    }

    /// The values by value, in the order of a walk: std's walk, which drops what it did not give, and the keys. Not in upstream: it is that of
    /// std's map.
    pub fn into_values(self) -> hash_map::IntoValues<K, V, A>
        ensures values { result ≡ values_of self.pairs }
        ensures runs { GivesInOrder V }
        ensures fits { length self.pairs < 2 ^ 63 }
    {
        let TryHashMap { inner, alloc: _ } = self;
        inner.into_values()
    }
}
