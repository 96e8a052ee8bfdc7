//! The first and the last pair of a tree, lent for reading.
ghost use Rattle.std.specs.Prelude.{◌≡◌, ℕ, ◌-◌, length, slice_get, Some};
ghost use Rattle.fc_tree_node.specs.Node.{pairs_of, IsSoundRoot};

use fc_base::Handle;
use fc_tree_node::node::Node;

/// The first pair of the tree at `root`. It compares nothing.
pub fn first_pair<'a, K, V, A: Handle>(root: &'a Node<K, V, A>) -> &'a (K, V)
    requires { (h : ℕ) × IsSoundRoot h root.now }
    ensures { slice_get (pairs_of root.now) 0 ≡ Some result.now }
{
    let mut node = root;
    'down: while !node.is_leaf() {
        node = node.child(0);
    }
    node.pair(0)
}

/// The last pair of the tree at `root`. It compares nothing.
pub fn last_pair<'a, K, V, A: Handle>(root: &'a Node<K, V, A>) -> &'a (K, V)
    requires { (h : ℕ) × IsSoundRoot h root.now }
    ensures { slice_get (pairs_of root.now) (length (pairs_of root.now) - 1) ≡ Some result.now }
{
    let mut node = root;
    'down: while !node.is_leaf() {
        node = node.child(node.len());
    }
    node.pair(node.len() - 1)
}
