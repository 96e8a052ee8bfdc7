//! The value at a key, lent for writing.
ghost use Rattle.std.specs.Prelude.{◌≡◌, ◌+◌, length, OnSome, Some};
ghost use Rattle.std.specs.Borrow.{sem};
ghost use Rattle.fc_base.specs.Ascending.{IsAscending};
ghost use Rattle.fc_base.specs.OneKey.{put_by};
ghost use Rattle.fc_base.specs.Parts.{value_at};
ghost use Rattle.fc_map.specs.Counts.{IsBounded};
ghost use Rattle.fc_map.specs.Entries.{entries, IsSoundMap, passed_in};

use super::BTreeMap;
use fc_base::{Count, Handle, Query};
use fc_tree_node::path::Path;

impl<K: Ord, V, A: Handle> BTreeMap<K, V, A> {
    ghost use Rattle.fc_map.specs.LendsKey.{lends_get_in, lent_value, written_at};

    /// The value at an equal key, lent for writing, or `None` where there is none. The map ends with what the caller leaves in
    /// the value's place, and the tree's shape stays. Upstream: `BTreeMap::get_mut`.
    pub fn get_mut<Q: Query<K>>(&mut self, key: Q) -> Option<&mut V>
        ensures* writes_back { sem 𝓛 (lends_get_in K.row V.row A.row K.Ord A.Allocator Q.order self.entry (Q.sought key) result) }
        ensures value { lent_value result ≡ value_at Q.order (entries self.old) (Q.sought key) }
        ensures put { OnSome result ((k : K) (w : V) → entries (written_at Q.order (Q.sought key) self.old w) ≡ put_by Q.order (entries self.old) (Q.sought key) k w) }
        ensures sound { OnSome result ((w : V) → IsSoundMap (written_at Q.order (Q.sought key) self.old w)) }
        ensures ascending { IsAscending K.cmp (entries self.old) }
    {
        self.get_mut_counted(key, &mut Count::new())
    }

    /// `get_mut`, with its comparisons added to the count: exactly those keys that a search from the left passes. It moves no
    /// pair.
    pub fn get_mut_counted<Q: Query<K>>(&mut self, key: Q, count: &mut Count) -> Option<&mut V>
        ensures* writes_back { sem 𝓛 (lends_get_in K.row V.row A.row K.Ord A.Allocator Q.order self.entry (Q.sought key) result) }
        ensures value { lent_value result ≡ value_at Q.order (entries self.old) (Q.sought key) }
        ensures put { OnSome result ((k : K) (w : V) → entries (written_at Q.order (Q.sought key) self.old w) ≡ put_by Q.order (entries self.old) (Q.sought key) k w) }
        ensures sound { OnSome result ((w : V) → IsSoundMap (written_at Q.order (Q.sought key) self.old w)) }
        ensures ascending { IsAscending K.cmp (entries self.old) }
        ensures comparisons { count.new.comparisons ≡ count.old.comparisons + passed_in Q.order (Q.sought key) self.old }
        ensures moves { count.new.moves ≡ count.old.moves }
        ensures bounded { IsBounded (length (entries self.old)) count.old count.new }
    {
        let mut path = Path::new();
        match self.locate(key, &mut path, count) {
            Ok(()) => Some(self.value_mut(&path)),
            Err(_) => None,
        }
    }
}
