//! Reading walks over all pairs of a map, over its keys and over its values, from both ends.
ghost use Rattle.std.specs.Prelude.{◌≡◌};
ghost use Rattle.fc_base.specs.Ascending.{IsAscending};
ghost use Rattle.fc_map.specs.Entries.{entries};
ghost use Rattle.fc_map.specs.Walks.{keys_of, values_of};

use super::BTreeMap;
use fc_base::Handle;
pub use fc_map_iter::iter::{Iter, Keys, Values};

impl<K: Ord, V, A: Handle> BTreeMap<K, V, A> {
    /// A walk over all pairs, in ascending order of their keys. Upstream: `BTreeMap::iter`.
    pub fn iter(&self) -> Iter<'_, K, V, A>
        ensures pairs { result ≡ entries self.now }
        ensures ascending { IsAscending K.cmp result }
    {
        Iter::over(&self.root, self.len)
    }

    /// A walk over all keys, in ascending order. Upstream: `BTreeMap::keys`.
    pub fn keys(&self) -> Keys<'_, K, V, A>
        ensures keys { result ≡ keys_of (entries self.now) }
        ensures ascending { IsAscending K.cmp (entries self.now) }
    {
        Keys::of(self.iter())
    }

    /// A walk over all values, in ascending order of their keys. Upstream: `BTreeMap::values`.
    pub fn values(&self) -> Values<'_, K, V, A>
        ensures values { result ≡ values_of (entries self.now) }
        ensures ascending { IsAscending K.cmp (entries self.now) }
    {
        Values::of(self.iter())
    }
}

impl<'a, K: Ord, V, A: Handle> IntoIterator for &'a BTreeMap<K, V, A> {
    type Item = (&'a K, &'a V);

    type IntoIter = Iter<'a, K, V, A>;

    ghost into_iter_gives = { λ map walk. walk ≡ entries map.now };

    fn into_iter(self) -> Iter<'a, K, V, A> {
        self.iter()
    }
}
