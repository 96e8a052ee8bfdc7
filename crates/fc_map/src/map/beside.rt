//! The places of the pairs next to a key.
ghost use Rattle.std.specs.Prelude.{◌≡◌, ◌+◌, [], length, false};
ghost use Rattle.fc_base.specs.Ascending.{IsAscending};
ghost use Rattle.fc_base.specs.Halves.{not_below};
ghost use Rattle.fc_base.specs.Parts.{above, below};
ghost use Rattle.fc_tree_search.specs.Neighbours.{not_above};
ghost use Rattle.fc_tree_cursor.specs.Beside.{IsNextIn, IsLastIn};
ghost use Rattle.fc_map.specs.Entries.{entries, passed_in, IsSoundMap};

use super::BTreeMap;
use fc_base::{Count, Handle, Query};
use fc_tree_cursor::beside::{find_after, find_before, find_from, find_to};
use fc_tree_node::path::Path;

impl<K: Ord, V, A: Handle> BTreeMap<K, V, A> {
    // Fills `path`, which has no step yet, with the way to the first pair whose key is not below `key`; false where there is none.
    pub(crate) fn locate_from<Q: Query<K>>(
        &self,
        key: Q,
        path: &mut Path,
        count: &mut Count,
    ) -> bool
        requires start { path.old ≡ [] }
        ensures place { IsNextIn result self.now path.new (length (below Q.order (entries self.now) (Q.sought key))) }
        ensures none { result ≡ false → not_below Q.order (entries self.now) (Q.sought key) ≡ [] }
        ensures sound { IsSoundMap self.now }
        ensures ascending { IsAscending K.cmp (entries self.now) }
        ensures comparisons { count.new.comparisons ≡ count.old.comparisons + passed_in Q.order (Q.sought key) self.now }
        ensures moves { count.new.moves ≡ count.old.moves }
    {
        match &self.root {
            None => false,
            Some(root) => find_from(root, key, path, count),
        }
    }

    // Fills `path`, which has no step yet, with the way to the first pair whose key is above `key`; false where there is none.
    pub(crate) fn locate_after<Q: Query<K>>(
        &self,
        key: Q,
        path: &mut Path,
        count: &mut Count,
    ) -> bool
        requires start { path.old ≡ [] }
        ensures place { IsNextIn result self.now path.new (length (not_above Q.order (entries self.now) (Q.sought key))) }
        ensures none { result ≡ false → above Q.order (entries self.now) (Q.sought key) ≡ [] }
        ensures sound { IsSoundMap self.now }
        ensures ascending { IsAscending K.cmp (entries self.now) }
        ensures comparisons { count.new.comparisons ≡ count.old.comparisons + passed_in Q.order (Q.sought key) self.now }
        ensures moves { count.new.moves ≡ count.old.moves }
    {
        match &self.root {
            None => false,
            Some(root) => find_after(root, key, path, count),
        }
    }

    // Fills `path`, which has no step yet, with the way to the last pair whose key is not above `key`; false where there is none.
    pub(crate) fn locate_to<Q: Query<K>>(&self, key: Q, path: &mut Path, count: &mut Count) -> bool
        requires start { path.old ≡ [] }
        ensures place { IsLastIn result self.now path.new (length (not_above Q.order (entries self.now) (Q.sought key))) }
        ensures none { result ≡ false → not_above Q.order (entries self.now) (Q.sought key) ≡ [] }
        ensures sound { IsSoundMap self.now }
        ensures ascending { IsAscending K.cmp (entries self.now) }
        ensures comparisons { count.new.comparisons ≡ count.old.comparisons + passed_in Q.order (Q.sought key) self.now }
        ensures moves { count.new.moves ≡ count.old.moves }
    {
        match &self.root {
            None => false,
            Some(root) => find_to(root, key, path, count),
        }
    }

    // Fills `path`, which has no step yet, with the way to the last pair whose key is below `key`; false where there is none.
    pub(crate) fn locate_before<Q: Query<K>>(
        &self,
        key: Q,
        path: &mut Path,
        count: &mut Count,
    ) -> bool
        requires start { path.old ≡ [] }
        ensures place { IsLastIn result self.now path.new (length (below Q.order (entries self.now) (Q.sought key))) }
        ensures none { result ≡ false → below Q.order (entries self.now) (Q.sought key) ≡ [] }
        ensures sound { IsSoundMap self.now }
        ensures ascending { IsAscending K.cmp (entries self.now) }
        ensures comparisons { count.new.comparisons ≡ count.old.comparisons + passed_in Q.order (Q.sought key) self.now }
        ensures moves { count.new.moves ≡ count.old.moves }
    {
        match &self.root {
            None => false,
            Some(root) => find_before(root, key, path, count),
        }
    }
}
