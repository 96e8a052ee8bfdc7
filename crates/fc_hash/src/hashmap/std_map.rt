//! A hashed map read and written as std's.
ghost use Rattle.std.specs.Prelude.{◌≡◌};
ghost use Rattle.std.specs.Borrow.{sem};
ghost use Rattle.fc_hash.specs.StdMap.{seen, lends_std};

use super::TryHashMap;
use fc_base::Handle;
use std::collections::HashMap;
use std::hash::{BuildHasher, BuildHasherDefault, FoldHasher, Hash, Hasher};
use std::ops::{Deref, DerefMut};

/// The calls of std's map that only read: `keys`, `values`, `get_key_value`, `capacity`, .., and look-ups by a text, as `(*map).get("word")`.
/// Not in upstream.
impl<K: Eq + Hash, V, A: Handle> Deref for TryHashMap<K, V, A> {
    type Target = HashMap<K, V, BuildHasherDefault<FoldHasher>, A>;

    ghost deref_gives = { λ m shown. seen shown ≡ m };

    fn deref(&self) -> &HashMap<K, V, BuildHasherDefault<FoldHasher>, A> {
        &self.inner
    }
}

/// The calls of std's map that write: `entry`, which takes the room that its key needs or hands the key back, `iter_mut`, `values_mut`, `drain`,
/// `remove_entry`, `extract_if`, `shrink_to_fit`, .. Where a call of this map has the same name, that one is taken. Not in upstream.
impl<K: Eq + Hash, V, A: Handle> DerefMut for TryHashMap<K, V, A> {
    ghost deref_mut_gives = { λ m shown. seen shown ≡ m };

    fn deref_mut(&mut self) -> &mut HashMap<K, V, BuildHasherDefault<FoldHasher>, A>
        ensures* writes_back { sem 𝓛 (lends_std K.row V.row A.row K.Hash ⟦<BuildHasherDefault<FoldHasher> as BuildHasher>⟧ ⟦<FoldHasher as Hasher>⟧ A.Allocator self.entry result) }
        ensures shows { seen result.now ≡ self.old }
    {
        &mut self.inner
    }
}
