//! Removal of a pair.
ghost use Rattle.std.specs.Prelude.{◌≡◌, ◌+◌, ◌<◌, ◌≤◌, ◌++◌, length, IsSome, None, Some};
ghost use Rattle.fc_base.specs.Ascending.{IsAscending};
ghost use Rattle.fc_base.specs.OneKey.{cut};
ghost use Rattle.fc_base.specs.Parts.{at, value_at};
ghost use Rattle.fc_map.specs.Counts.{IsBounded};
ghost use Rattle.fc_map.specs.Entries.{entries, IsSoundMap, passed_in};
ghost use Rattle.fc_map.specs.Kept.{blocks_in};
ghost use Rattle.fc_map.specs.Place.{IsHeldAt};
ghost use Rattle.fc_tree_node.specs.Depth.{HasFewMoves};
ghost use Rattle.fc_map.specs.Fewest.{HasFewestMoves};
ghost use Rattle.fc_tree_node.specs.TreePlace.{IsPlaceIn, pair_in, before_pair_in, after_pair_in};

use super::BTreeMap;
use fc_base::{Count, Handle, Query};
use fc_tree_node::path::Path;
use fc_tree_removal::removal::remove;

impl<K: Ord + Drop, V: Drop, A: Handle> BTreeMap<K, V, A> {
    /// Takes the pair with an equal key out and answers its value; the key is dropped. `None` where there is none, and the map is
    /// as it was. It takes no memory. Upstream: `BTreeMap::remove`.
    pub fn remove<Q: Query<K>>(&mut self, key: Q) -> Option<V>
        ensures value { result ≡ value_at Q.order (entries self.old) (Q.sought key) }
        ensures rest { entries self.new ≡ cut Q.order (entries self.old) (Q.sought key) }
        ensures absent { at Q.order (entries self.old) (Q.sought key) ≡ None → self.new ≡ self.old }
        ensures ascending { IsAscending K.cmp (entries self.new) }
        ensures sound { IsSoundMap self.new }
    {
        self.remove_counted(key, &mut Count::new())
    }

    /// `remove`, with its comparisons and moves added to the count: exactly the comparisons of the keys that a search from the left
    /// passes, and where there is an equal key the moves of its removal.
    pub fn remove_counted<Q: Query<K>>(&mut self, key: Q, count: &mut Count) -> Option<V>
        ensures value { result ≡ value_at Q.order (entries self.old) (Q.sought key) }
        ensures rest { entries self.new ≡ cut Q.order (entries self.old) (Q.sought key) }
        ensures absent { at Q.order (entries self.old) (Q.sought key) ≡ None → self.new ≡ self.old }
        ensures ascending { IsAscending K.cmp (entries self.new) }
        ensures sound { IsSoundMap self.new }
        ensures comparisons { count.new.comparisons ≡ count.old.comparisons + passed_in Q.order (Q.sought key) self.old }
        ensures no_move { at Q.order (entries self.old) (Q.sought key) ≡ None → count.new.moves ≡ count.old.moves }
        ensures moved { IsSome (at Q.order (entries self.old) (Q.sought key)) → count.old.moves < count.new.moves }
        ensures fewest { HasFewestMoves self.old self.new count.old count.new }
        ensures bounded { IsBounded (length (entries self.old)) count.old count.new }
        ensures blocks { blocks_in self.new ≤ blocks_in self.old }
    {
        match self.remove_entry_counted(key, count) {
            Some(pair) => Some(pair.1),
            None => None,
        }
    }

    /// Takes the pair with an equal key out and answers it, the key being the one that the map held. `None` where there is none, and
    /// the map is as it was. It takes no memory. Not in upstream: it is that of std's map.
    pub fn remove_entry<Q: Query<K>>(&mut self, key: Q) -> Option<(K, V)>
        ensures pair { result ≡ at Q.order (entries self.old) (Q.sought key) }
        ensures rest { entries self.new ≡ cut Q.order (entries self.old) (Q.sought key) }
        ensures absent { at Q.order (entries self.old) (Q.sought key) ≡ None → self.new ≡ self.old }
        ensures ascending { IsAscending K.cmp (entries self.new) }
        ensures sound { IsSoundMap self.new }
    {
        self.remove_entry_counted(key, &mut Count::new())
    }

    /// `remove_entry`, with its comparisons and moves added to the count: exactly the comparisons of the keys that a search from the
    /// left passes, and where there is an equal key the moves of its removal.
    pub fn remove_entry_counted<Q: Query<K>>(&mut self, key: Q, count: &mut Count) -> Option<(K, V)>
        ensures pair { result ≡ at Q.order (entries self.old) (Q.sought key) }
        ensures rest { entries self.new ≡ cut Q.order (entries self.old) (Q.sought key) }
        ensures absent { at Q.order (entries self.old) (Q.sought key) ≡ None → self.new ≡ self.old }
        ensures ascending { IsAscending K.cmp (entries self.new) }
        ensures sound { IsSoundMap self.new }
        ensures comparisons { count.new.comparisons ≡ count.old.comparisons + passed_in Q.order (Q.sought key) self.old }
        ensures no_move { at Q.order (entries self.old) (Q.sought key) ≡ None → count.new.moves ≡ count.old.moves }
        ensures moved { IsSome (at Q.order (entries self.old) (Q.sought key)) → count.old.moves < count.new.moves }
        ensures fewest { HasFewestMoves self.old self.new count.old count.new }
        ensures bounded { IsBounded (length (entries self.old)) count.old count.new }
        ensures blocks { blocks_in self.new ≤ blocks_in self.old }
    {
        let mut path = Path::new();
        match self.locate(key, &mut path, count) {
            Ok(()) => Some(self.remove_at(&path, key, count)),
            Err(_) => None,
        }
    }

    // Takes the pair with the key, to which the path leads, out.
    pub(crate) fn remove_at<Q: Query<K>>(
        &mut self,
        path: &Path,
        key: Q,
        count: &mut Count,
    ) -> (K, V)
        requires held { IsHeldAt Q.order (Q.sought key) self.old path.now }
        requires sound { IsSoundMap self.old }
        ensures pair { at Q.order (entries self.old) (Q.sought key) ≡ Some result }
        ensures rest { entries self.new ≡ cut Q.order (entries self.old) (Q.sought key) }
        ensures length { length (entries self.old) ≡ length (entries self.new) + 1 }
        ensures ascending { IsAscending K.cmp (entries self.new) }
        ensures sound { IsSoundMap self.new }
        ensures comparisons { count.new.comparisons ≡ count.old.comparisons }
        ensures moves { HasFewMoves (length (entries self.old)) count.old count.new }
        ensures moved { count.old.moves < count.new.moves }
        ensures fewest { HasFewestMoves self.old self.new count.old count.new }
        ensures blocks { blocks_in self.new ≤ blocks_in self.old }
    {
        self.take_at(path, count)
    }

    // Takes the pair that the path leads to out.
    pub(crate) fn take_at(&mut self, path: &Path, count: &mut Count) -> (K, V)
        requires { IsPlaceIn self.old path.now }
        ensures pair { pair_in self.old path.now ≡ Some result }
        ensures rest { entries self.new ≡ before_pair_in self.old path.now ++ after_pair_in self.old path.now }
        ensures length { length (entries self.old) ≡ length (entries self.new) + 1 }
        ensures ascending { IsAscending K.cmp (entries self.new) }
        ensures sound { IsSoundMap self.new }
        ensures comparisons { count.new.comparisons ≡ count.old.comparisons }
        ensures moves { HasFewMoves (length (entries self.old)) count.old count.new }
        ensures moved { count.old.moves < count.new.moves }
        ensures fewest { HasFewestMoves self.old self.new count.old count.new }
        ensures blocks { blocks_in self.new ≤ blocks_in self.old }
    {
        let pair = remove(&mut self.root, path.as_slice(), count);
        self.len -= 1;
        pair
    }
}
