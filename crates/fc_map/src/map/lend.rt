//! Values lent for writing.
ghost use Rattle.std.specs.Prelude.{◌≡◌, ◌<◌, [], ◌∷◌, ◌++◌, length, Some};
ghost use Rattle.std.specs.Option.{option_map};
ghost use Rattle.std.specs.Borrow.{sem};

use super::BTreeMap;
use fc_base::Handle;
use fc_tree_node::path::Path;
use fc_tree_search::lend;

impl<K: Ord, V, A: Handle> BTreeMap<K, V, A> {
    ghost use Rattle.fc_base.specs.Ascending.{IsAscending};
    ghost use Rattle.fc_base.specs.Sizes.{most_levels};
    ghost use Rattle.fc_map.specs.Entries.{entries, IsSoundMap};
    ghost use Rattle.fc_map.specs.Lends.{lends_at, written_in};
    ghost use Rattle.fc_tree_node.specs.TreePlace.{IsPlaceIn, pair_in};

    // The value of the pair that the path leads to, lent for writing.
    pub(crate) fn value_mut(&mut self, path: &Path) -> &mut V
        requires { IsPlaceIn self.old path.now }
        ensures* writes_back { sem 𝓛 (lends_at K.row V.row A.row K.Ord A.Allocator self.entry path.now result) }
        ensures value { option_map (λ e. e.1) (pair_in self.old path.now) ≡ Some result.now }
        ensures sound { IsSoundMap self.old }
        ensures kept { (w : V) → IsSoundMap (written_in self.old path.now w) }
        ensures ascends { (w : V) → IsAscending K.cmp (entries (written_in self.old path.now w)) }
    {
        let root = self.root.as_mut().unwrap();
        lend::value_mut(root, path)
    }

    // The value of the pair at a place of the node to which the way leads, lent for writing.
    #[inline]
    pub(crate) fn value_at(&mut self, way: &[u8], place: usize) -> &mut V
        requires bounded { length way.now < most_levels }
        requires place { IsPlaceIn self.old (way.now ++ place ∷ []) }
        ensures* writes_back { sem 𝓛 (lends_at K.row V.row A.row K.Ord A.Allocator self.entry (way.now ++ place ∷ []) result) }
        ensures value { option_map (λ e. e.1) (pair_in self.old (way.now ++ place ∷ [])) ≡ Some result.now }
        ensures sound { IsSoundMap self.old }
    {
        let root = self.root.as_mut().unwrap();
        lend::value_at(root, way, place)
    }
}
