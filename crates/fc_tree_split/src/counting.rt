//! How many pairs a tree holds.
ghost use Rattle.std.specs.Prelude.{◌≡◌, ℕ, ◌<◌, ◌≤◌, ◌^◌, length};
ghost use Rattle.fc_tree_node.specs.Node.{pairs_of, IsLevelled};
ghost use Rattle.fc_tree_node.specs.Tree.{entries, IsSoundMap};

use fc_base::Handle;
use fc_tree_node::node::Node;

/// How many pairs there are in a tree, if there is one, by a walk over its nodes.
pub fn count_in<K, V, A: Handle>(root: &Option<Node<K, V, A>>) -> usize
    requires sound { IsSoundMap root.now }
    requires fits { length (entries root.now) ≤ usize.MAX }
    ensures { result ≡ length (entries root.now) }
{
    match root {
        None => 0,
        Some(root) => count_pairs(root),
    }
}

// How many pairs are in the node and below it, by a walk over the nodes.
fn count_pairs<K, V, A: Handle>(node: &Node<K, V, A>) -> usize
    requires levels { (h : ℕ) × IsLevelled h node.now }
    requires fits { length (pairs_of node.now) < 2 ^ 64 }
    ensures { result ≡ length (pairs_of node.now) }
{
    let mut total = node.len();
    for i in 0..node.child_count() {
        total += count_pairs(node.child(i));
    }
    total
}
