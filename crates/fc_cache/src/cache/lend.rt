//! Values lent for writing.
ghost use Rattle.std.specs.Prelude.{◌≡◌, option_map};
ghost use Rattle.std.specs.Borrow.{sem};
ghost use Rattle.std.specs.Map.{lookup};
ghost use Rattle.std.specs.Option.{option_copied_mut};

use super::Cache;
use fc_base::Handle;
use std::collections::hash_map::Equivalent;
use std::hash::Hash;

impl<K: Eq + Hash, V, A: Handle> Cache<K, V, A> {
    ghost use Rattle.fc_cache.specs.Entries.{used_last};
    ghost use Rattle.fc_cache.specs.Written.{lends_value_in};

    /// The value at the key that is equal to this one, for writing, which is then the most lately used; it costs what it did. `None` where
    /// there is none, and the cache is as it was. It takes no memory.
    pub fn get_mut<Q: Equivalent<K>>(&mut self, key: Q) -> Option<&mut V>
        ensures* writes_back { sem 𝓛 (lends_value_in K.row V.row A.row K.Hash A.Allocator self.entry (Q.equivalent key) (used_last (Q.equivalent key) self.old.entries) result) }
        ensures value { option_copied_mut result ≡ option_map (λ h. h.value) (lookup (Q.equivalent key) self.old.entries) }
    {
        self.recency.get_mut(key)
    }

    /// The value at the key that is equal to this one, for writing, which does not count as a use; it costs what it did. `None` where there
    /// is none, and the cache is as it was. It takes no memory.
    pub fn peek_mut<Q: Equivalent<K>>(&mut self, key: Q) -> Option<&mut V>
        ensures* writes_back { sem 𝓛 (lends_value_in K.row V.row A.row K.Hash A.Allocator self.entry (Q.equivalent key) self.old.entries result) }
        ensures value { option_copied_mut result ≡ option_map (λ h. h.value) (lookup (Q.equivalent key) self.old.entries) }
    {
        self.recency.peek_mut(key)
    }
}
