//! The pair at a place that a search found.
ghost use Rattle.std.specs.Prelude.{◌≡◌, ◌<◌, length, Some};
ghost use Rattle.fc_map.specs.Lends.{branch};
ghost use Rattle.fc_map.specs.Place.{IsOpenAt, TellsRoom};
ghost use Rattle.fc_tree_node.specs.TreePlace.{IsPlaceIn, pair_in};

use super::BTreeMap;
use fc_base::Handle;
use fc_tree_insertion::leaf::has_room;
use fc_tree_node::path::Path;
use fc_tree_search::lend;

impl<K: Ord, V, A: Handle> BTreeMap<K, V, A> {
    // The pair that the path leads to.
    pub(crate) fn pair_of(&self, path: &Path) -> &(K, V)
        requires { IsPlaceIn self.now path.now }
        ensures { pair_in self.now path.now ≡ Some result.now }
    {
        match &self.root {
            None => unreachable!(),
            Some(root) => lend::pair_at(root, path),
        }
    }

    // The pair at a place of the node to which so many steps of the path lead.
    pub(crate) fn pair_on(&self, path: &Path, way: usize, place: usize) -> &(K, V)
        requires way { way < length path.now }
        requires small { place < 256 }
        requires place { IsPlaceIn self.now (branch path.now way place) }
        ensures { pair_in self.now (branch path.now way place) ≡ Some result.now }
    {
        let mut end = Path::of(&path.as_slice()[..way]);
        end.push(place);
        self.pair_of(&end)
    }

    // Whether the leaf of the gap that the path leads to has room for a pair; false where there is no leaf.
    pub(crate) fn has_room_at(&self, path: &Path) -> bool
        requires { (key : K) × IsOpenAt K.cmp key self.now path.now }
        ensures { TellsRoom result path.now self.now }
    {
        match &self.root {
            None => false,
            Some(root) => has_room(root, path.as_slice()),
        }
    }
}
