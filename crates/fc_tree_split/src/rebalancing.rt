//! Rebalancing of a tree whose nodes on the leftmost or on the rightmost path may hold too few pairs.
ghost use Rattle.std.specs.Prelude.{◌≡◌, ℕ, suc, ◌+◌, ◌-◌, ◌<◌, ◌≤◌, length};
ghost use Rattle.fc_base.specs.Sizes.{capacity};
ghost use Rattle.fc_tree_node.specs.Blocks.{blocks_of, blocks_in};
ghost use Rattle.fc_tree_node.specs.Node.{own_pairs, pairs_of};
ghost use Rattle.fc_tree_node.specs.Tree.{entries, IsSoundWithin};
ghost use Rattle.fc_tree_node.specs.Bordered.{IsLeftBordered, IsRightBordered};
ghost use Rattle.fc_tree_split.specs.Border.{IsBordered, border_place, HasSparePair};
ghost use Rattle.fc_tree_node.specs.Shrunk.{IsShrunk};

use fc_base::{Count, Handle};
use fc_tree_node::lend::child_in;
use fc_tree_node::node::{CAPACITY, MIN_LEN, Node, into_only_child};

/// The border of a tree where nodes may hold too few pairs.
#[derive(Clone, Copy)]
pub enum Border {
    /// The path to the first leaf.
    Left,
    /// The path to the last leaf.
    Right,
}

/// Rebalances a tree whose nodes on the rightmost path may hold too few pairs, none too, and hands out what is left of it: none where
/// it held no pair. It compares nothing and takes no memory.
pub fn rebalance_right<K: Drop, V: Drop, A: Handle>(root: Node<K, V, A>) -> Option<Node<K, V, A>>
    requires { (h : ℕ) × IsRightBordered h root }
    ensures pairs { entries result ≡ pairs_of root }
    ensures levels { (h : ℕ) → IsRightBordered h root → IsSoundWithin h result }
    ensures blocks { blocks_in result ≤ blocks_of root }
{
    rebalance(root, Border::Right, &mut Count::new())
}

/// Rebalances a tree whose nodes on the leftmost path may hold too few pairs, none too, and hands out what is left of it: none where
/// it held no pair. It compares nothing and takes no memory.
pub fn rebalance_left<K: Drop, V: Drop, A: Handle>(root: Node<K, V, A>) -> Option<Node<K, V, A>>
    requires { (h : ℕ) × IsLeftBordered h root }
    ensures pairs { entries result ≡ pairs_of root }
    ensures levels { (h : ℕ) → IsLeftBordered h root → IsSoundWithin h result }
    ensures blocks { blocks_in result ≤ blocks_of root }
{
    rebalance(root, Border::Left, &mut Count::new())
}

/// Rebalances a tree whose nodes on that border may hold too few pairs, none too, and hands out what is left of it: none where it held
/// no pair. It compares nothing and takes no memory.
pub fn rebalance<K: Drop, V: Drop, A: Handle>(
    root: Node<K, V, A>,
    side: Border,
    count: &mut Count,
) -> Option<Node<K, V, A>>
    requires { (h : ℕ) × IsBordered side h root }
    ensures pairs { entries result ≡ pairs_of root }
    ensures levels { (h : ℕ) → IsBordered side h root → IsSoundWithin h result }
    ensures blocks { blocks_in result ≤ blocks_of root }
{
    // While the root has no pair, its only child takes its place.
    if root.len() == 0 {
        return match into_only_child(root) {
            None => None,
            Some(child) => rebalance(child, side, count),
        };
    }
    let mut root = root;
    rebalance_below(&mut root, side, count);
    if root.len() > 0 {
        return Some(root);
    }
    into_only_child(root)
}

// Rebalances the border below a node that has a pair, from the node downwards.
fn rebalance_below<K: Drop, V: Drop, A: Handle>(
    node: &mut Node<K, V, A>,
    side: Border,
    count: &mut Count,
)
    requires some { 1 ≤ length (own_pairs node.old) }
    requires bordered { (h : ℕ) × IsBordered side h node.old }
    ensures pairs { pairs_of node.new ≡ pairs_of node.old }
    ensures levels { (h : ℕ) → IsBordered side h node.old → IsShrunk h node.old node.new }
    ensures blocks { blocks_of node.new ≤ blocks_of node.old }
{
    if node.is_leaf() {
        return;
    }
    ensure_spare_pair(node, side, count);
    let place = border_child(node, side);
    rebalance_below(child_in(&mut node.children, place), side, count);
}

/// The place of the child on the border.
pub fn border_child<K, V, A: Handle>(node: &Node<K, V, A>, side: Border) -> usize
    ensures value { result ≡ border_place side node.now }
    ensures fits { result ≤ capacity }
{
    match side {
        Border::Left => 0,
        Border::Right => node.len(),
    }
}

// Sees to it that the child on the border has one pair more than it needs, since the rebalancing below it may take one. It is merged with
// its sibling where both and the pair between them fit in one node, and else takes from it.
fn ensure_spare_pair<K: Drop, V: Drop, A: Handle>(
    node: &mut Node<K, V, A>,
    side: Border,
    count: &mut Count,
)
    requires some { 1 ≤ length (own_pairs node.old) }
    requires bordered { (h : ℕ) × IsBordered side (suc h) node.old }
    ensures pairs { pairs_of node.new ≡ pairs_of node.old }
    ensures with_spare_pair { (h : ℕ) → IsBordered side (suc h) node.old → HasSparePair side h node.old node.new }
    ensures blocks { blocks_of node.new ≤ blocks_of node.old }
{
    let edge = border_child(node, side);
    let held = node.child(edge).len();
    if held > MIN_LEN {
        return;
    }
    let place = edge.saturating_sub(1);
    if node.child(place).len() + node.child(place + 1).len() < CAPACITY {
        node.merge(place, count);
        return;
    }
    let wanted = MIN_LEN + 1 - held;
    match side {
        Border::Left => node.bulk_steal_right(place, wanted, count),
        Border::Right => node.bulk_steal_left(place, wanted, count),
    }
}
