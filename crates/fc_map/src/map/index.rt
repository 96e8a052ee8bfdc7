//! Indexing by a key.
ghost use Rattle.std.specs.Prelude.{◌≡◌, IsSome, Some};

use super::BTreeMap;
use fc_base::{Handle, Query};
use std::ops::Index;

impl<K: Ord, V, Q: Query<K>, A: Handle> Index<Q> for BTreeMap<K, V, A> {
    ghost use Rattle.fc_base.specs.Parts.{at, value_at};
    ghost use Rattle.fc_map.specs.Entries.{entries};

    type Output = V;

    ghost can_index = { λ m key. IsSome (at Q.order (entries m) (Q.sought key)) };

    ghost index_gives = { λ m key v. value_at Q.order (entries m) (Q.sought key) ≡ Some v };

    /// The value at an equal key, which has to be there, as `contains_key` tells.
    fn index(&self, key: Q) -> &V {
        self.get(key).unwrap()
    }
}
