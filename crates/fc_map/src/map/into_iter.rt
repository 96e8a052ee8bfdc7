//! The owned walks over a map: over its pairs, its keys, its values.
ghost use Rattle.std.specs.Prelude.{◌≡◌, ◌^◌, ◌<◌, length};
ghost use Rattle.std.specs.Iterator.{YieldsFirst, YieldsLast};
ghost use Rattle.std.specs.Iterator.Runs.{YieldsInOrder, YieldsInReverse};
ghost use Rattle.fc_base.specs.Ascending.{IsAscending};
ghost use Rattle.fc_map.specs.Entries.{entries};
ghost use Rattle.fc_map.specs.Walks.{keys_of, values_of};

use super::BTreeMap;
use fc_base::Handle;
pub use fc_map_iter::into_iter::IntoIter;
pub use fc_map_iter::into_keys::IntoKeys;
pub use fc_map_iter::into_values::IntoValues;

/// The pairs in ascending order of their keys. The walk takes no memory. Upstream: `BTreeMap::into_iter`.
impl<K: Ord + Drop, V: Drop, A: Handle> IntoIterator for BTreeMap<K, V, A> {
    type Item = (K, V);

    type IntoIter = IntoIter<K, V, A>;

    ghost into_iter_gives = { λ m walk. (walk ≡ entries m) × (length walk < 2 ^ 64) × IsAscending K.cmp walk
        × YieldsInOrder (YieldsFirst {A = K × V} (λ s. s)) (λ s. s)
        × YieldsInReverse (YieldsLast {A = K × V} (λ s. s)) (λ s. s) };

    fn into_iter(self) -> IntoIter<K, V, A> {
        let left = self.len();
        let BTreeMap {
            root,
            len: _,
            alloc: _,
        } = self;
        IntoIter::over(root, left)
    }
}

impl<K: Ord + Drop, V: Drop, A: Handle> BTreeMap<K, V, A> {
    /// The keys, in ascending order, with the map taken apart. The walk takes no memory. Not in upstream: it is that of std's map.
    pub fn into_keys(self) -> IntoKeys<K, V, A>
        ensures keys { result ≡ keys_of (entries self) }
        ensures ascending { IsAscending K.cmp (entries self) }
    {
        IntoKeys::of(self.into_iter())
    }

    /// The values, in ascending order of their keys, with the map taken apart. The walk takes no memory. Not in upstream: it is that of std's map.
    pub fn into_values(self) -> IntoValues<K, V, A>
        ensures values { result ≡ values_of (entries self) }
        ensures ascending { IsAscending K.cmp (entries self) }
    {
        IntoValues::of(self.into_iter())
    }
}
