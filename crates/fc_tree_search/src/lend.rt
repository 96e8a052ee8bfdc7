//! The pair at a place of a tree, lent for reading, and its value for writing.
ghost use Rattle.std.specs.Prelude.{◌≡◌, ◌<◌, [], ◌∷◌, ◌++◌, length};
ghost use Rattle.std.specs.Option.{option_map};
ghost use Rattle.std.specs.Borrow.{sem};
ghost use Rattle.fc_base.specs.Sizes.{most_levels};
ghost use Rattle.fc_tree_node.specs.Place.{IsPlace, place_pair};
ghost use Rattle.fc_tree_search.specs.Written.{lends_at};

use fc_base::Handle;
use fc_tree_node::descent::pairs_mut;
use fc_tree_node::node::Node;
use fc_tree_node::path::Path;
use std::alloc::Allocator;

/// The pair at the end of the path.
pub fn pair_at<'a, K, V, A: Handle>(root: &'a Node<K, V, A>, path: &Path) -> &'a (K, V)
    requires { IsPlace path.now root.now }
    ensures { place_pair path.now root.now ≡ Some result.now }
{
    let last = path.len() - 1;
    let mut node = root;
    for i in 0..last {
        node = node.child(path.step(i));
    }
    node.pair(path.step(last))
}

/// The value of the pair at the place in the node that the way leads to, lent for writing: the tree ends with what is written in
/// its place.
pub fn value_at<'a, K, V, A: Handle>(
    root: &'a mut Node<K, V, A>,
    way: &[u8],
    place: usize,
) -> &'a mut V
    requires place { IsPlace (way.now ++ place ∷ []) root.old }
    requires bounded { length way.now < most_levels }
    ensures* writes_back { sem 𝓛 (lends_at K.row V.row A.row A.Allocator root.entry (way.now ++ place ∷ []) result) }
    ensures value { option_map (λ e. e.1) (place_pair (way.now ++ place ∷ []) root.old) ≡ Some result.now }
{
    &mut pairs_mut(root, way).get_mut(place).1
}

/// The value of the pair at the end of the path, lent for writing: the tree ends with what is written in its place.
pub fn value_mut<'a, K, V, A: Handle>(root: &'a mut Node<K, V, A>, path: &Path) -> &'a mut V
    requires { IsPlace path.now root.old }
    ensures* writes_back { sem 𝓛 (lends_at K.row V.row A.row A.Allocator root.entry path.now result) }
    ensures value { option_map (λ e. e.1) (place_pair path.now root.old) ≡ Some result.now }
{
    let steps = path.as_slice();
    let last = steps.len() - 1;
    value_at(root, &steps[..last], steps[last] as usize)
}
