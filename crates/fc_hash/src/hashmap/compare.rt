//! Equality of hashed maps: that of their pairs, in whatever order.
ghost use Rattle.fc_hash.specs.EqualMaps.{equal_maps_equiv, equal_maps_per};
ghost use Rattle.fc_hash.specs.Pairs.{are_equal};

use super::TryHashMap;
use fc_base::Handle;
use std::hash::Hash;

/// Equal are maps that have an equal value at each key of either, whatever the order of their pairs. Not in upstream: it is that of std's
/// map.
impl<K: Eq + Hash, V: PartialEq, A: Handle> PartialEq for TryHashMap<K, V, A> {
    ghost eq = { λ m n. are_equal K.eq V.eq m.pairs n.pairs };

    ghost laws = { equal_maps_per K.Eq.laws V.laws };

    fn eq(&self, other: &TryHashMap<K, V, A>) -> bool {
        self.inner == other.inner
    }
}

impl<K: Eq + Hash, V: Eq, A: Handle> Eq for TryHashMap<K, V, A> {
    ghost laws = { equal_maps_equiv K.Eq.laws V.Eq.laws };
}
