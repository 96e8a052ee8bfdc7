//! Rebalancing of a tree whose nodes may all hold too few pairs.
ghost use Rattle.std.specs.Prelude.{◌≡◌, ℕ, suc, ◌+◌, ◌<◌, length, ◌⊎◌};
ghost use Rattle.fc_base.specs.Sizes.{min_len};
ghost use Rattle.fc_tree_node.specs.Node.{own_pairs, child_at, pairs_of};
ghost use Rattle.fc_tree_node.specs.Tree.{entries, IsSoundWithin};
ghost use Rattle.fc_tree_retain.specs.Unbalanced.{IsUnbalanced};
ghost use Rattle.fc_tree_retain.specs.Rebalancing.{IsUnderfull, IsSeam, IsSeamRebalanced, IsJoined};
ghost use Rattle.fc_tree_retain.specs.Stretch.{IsUnderfullWithin};

use fc_base::{Count, Handle};
use fc_tree_node::lend::child_in;
use fc_tree_node::node::{CAPACITY, MIN_LEN, Node, into_only_child};

// Rebalances all below the node from the leaves up. The node itself may hold few pairs, none too.
pub(crate) fn rebalance<K: Drop, V: Drop, A: Handle>(node: &mut Node<K, V, A>)
    requires unbalanced { (h : ℕ) × IsUnbalanced h node.old }
    ensures pairs { pairs_of node.new ≡ pairs_of node.old }
    ensures levels { (h : ℕ) → IsUnbalanced h node.old → IsUnderfull h node.new }
{
    if node.is_leaf() {
        return;
    }
    let mut at = 0;
    rebalance(child_in(&mut node.children, 0));
    for _ in 0..node.len() {
        rebalance(child_in(&mut node.children, at + 1));
        at = rebalance_seam(node, at);
    }
}

// Sees to it that neither of the two children beside the pair at `index` has too few pairs: where one has, they become one node if they fit,
// and else one takes from the other. Answers the place of the last of them.
fn rebalance_seam<K: Drop, V: Drop, A: Handle>(node: &mut Node<K, V, A>, index: usize) -> usize
    requires { (h : ℕ) × IsSeam h node.old index }
    ensures pairs { pairs_of node.new ≡ pairs_of node.old }
    ensures seam_rebalanced { (h : ℕ) → IsSeam h node.old index → IsSeamRebalanced h index result node.old node.new }
{
    let left = node.child(index).len();
    let right = node.child(index + 1).len();
    if left >= MIN_LEN && right >= MIN_LEN {
        return index + 1;
    }
    let (place, seam, last) = join(node, index, left, right);
    if !node.child(place).is_leaf() {
        rebalance_seam(child_in(&mut node.children, place), seam);
    }
    last
}

// Sees to it that no child has too few pairs, where those from the first of these places to the second may have few, and all others are
// sound.
pub(crate) fn rebalance_between<K: Drop, V: Drop, A: Handle>(
    node: &mut Node<K, V, A>,
    first: usize,
    last: usize,
)
    requires { (h : ℕ) × IsUnderfullWithin h node.old first last }
    ensures pairs { pairs_of node.new ≡ pairs_of node.old }
    ensures underfull { (h : ℕ) → IsUnderfullWithin h node.old first last → IsUnderfull (suc h) node.new }
{
    let start = first.saturating_sub(1);
    let mut at = start;
    for _ in start..last {
        at = rebalance_seam(node, at);
    }
    if at < node.len() {
        rebalance_seam(node, at);
    }
}

// Makes one node of the two children beside the pair at `index`, or lets the one that is short take from the other. Answers the place
// of the child where the children of both meet, where in it they do, and the place of the last of the two.
fn join<K: Drop, V: Drop, A: Handle>(
    node: &mut Node<K, V, A>,
    index: usize,
    left: usize,
    right: usize,
) -> (usize, usize, usize)
    requires seam { (h : ℕ) × IsSeam h node.old index }
    requires left { left ≡ length (own_pairs (child_at node.old index)) }
    requires right { right ≡ length (own_pairs (child_at node.old (index + 1))) }
    requires short { (left < min_len) ⊎ (right < min_len) }
    ensures pairs { pairs_of node.new ≡ pairs_of node.old }
    ensures joined { (h : ℕ) → IsSeam h node.old index → IsJoined h index result.0 result.1 result.2 node.old node.new }
{
    let mut count = Count::new();
    if left + right < CAPACITY {
        node.merge(index, &mut count);
        return (index, left, index);
    }
    if left < MIN_LEN {
        node.bulk_steal_right(index, MIN_LEN + 1 - left, &mut count);
        return (index, left, index + 1);
    }
    let wanted = MIN_LEN + 1 - right;
    node.bulk_steal_left(index, wanted, &mut count);
    (index + 1, wanted - 1, index + 1)
}

// A root without pairs gives way to its only child, and that too.
pub(crate) fn without_empty_roots<K: Drop, V: Drop, A: Handle>(
    root: Node<K, V, A>,
) -> Option<Node<K, V, A>>
    requires { (h : ℕ) × IsUnderfull h root }
    ensures pairs { entries result ≡ pairs_of root }
    ensures levels { (h : ℕ) → IsUnderfull h root → IsSoundWithin h result }
{
    if root.len() > 0 {
        return Some(root);
    }
    match into_only_child(root) {
        None => None,
        Some(child) => without_empty_roots(child),
    }
}
