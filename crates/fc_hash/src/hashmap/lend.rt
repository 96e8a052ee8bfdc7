//! A hashed map's values, lent for writing.
ghost use Rattle.std.specs.Prelude.{◌≡◌, Some, OnSome, if◌then◌else◌};
ghost use Rattle.std.specs.Borrow.{sem};
ghost use Rattle.std.specs.Option.{option_copied_mut};
ghost use Rattle.fc_hash.specs.Lends.{lends_value_in, with_value};
ghost use Rattle.fc_hash.specs.Pairs.{IsMap, value_at};

use super::TryHashMap;
use fc_base::Handle;
use std::hash::Hash;

impl<K: Eq + Hash, V, A: Handle> TryHashMap<K, V, A> {
    /// The value at the key that is equal to this one, for writing: it takes no memory, so no write of a value that is there is refused.
    /// Not in upstream: it is that of std's map.
    pub fn get_mut(&mut self, key: &K) -> Option<&mut V>
        ensures* writes_back { sem 𝓛 (lends_value_in K.row V.row A.row K.Hash A.Allocator self.entry key.now result) }
        ensures value { option_copied_mut result ≡ value_at K.eq key.now self.old.pairs }
        ensures values { OnSome result ((w : V) (q : K) → value_at K.eq q (with_value K.eq self.old key.now w).pairs ≡ (if K.eq key.now q then Some w else value_at K.eq q self.old.pairs)) }
        ensures map { (w : V) → IsMap K.eq (with_value K.eq self.old key.now w).pairs }
    {
        self.inner.get_mut(key)
    }
}
