//! Walks over a hashed map.
ghost use Rattle.std.specs.Prelude.{◌≡◌, ◌^◌, ◌<◌, length};
ghost use Rattle.std.specs.Map.Iter.{ShowsInOrder, GivesInOrder, deref_pair};
ghost use Rattle.fc_hash.specs.Pairs.{IsMap};

use super::TryHashMap;
use fc_base::Handle;
use std::collections::hash_map;
use std::hash::Hash;

impl<K: Eq + Hash, V, A: Handle> TryHashMap<K, V, A> {
    /// A walk over the pairs by reference: std's. Upstream: `TryHashMap::iter`.
    pub fn iter(&self) -> hash_map::Iter<'_, K, V>
        ensures pairs { result ≡ self.now.pairs }
        ensures runs { ShowsInOrder (deref_pair {K = K} {X = V}) }
        ensures map { IsMap K.eq self.now.pairs }
    {
        self.inner.iter()
    }
}

/// The pairs by value: std's walk, which drops what it did not give.
impl<K: Eq + Hash + Drop, V: Drop, A: Handle> IntoIterator for TryHashMap<K, V, A> {
    type Item = (K, V);

    type IntoIter = hash_map::IntoIter<K, V, A>;

    ghost into_iter_gives = { λ m r. (r ≡ m.pairs) × (length m.pairs < 2 ^ 63) × GivesInOrder (K × V) × IsMap K.eq m.pairs };

    fn into_iter(self) -> hash_map::IntoIter<K, V, A> {
        let TryHashMap { inner, alloc: _ } = self;
        inner.into_iter()
    }
}
