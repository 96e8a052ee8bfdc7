//! A tree grafted on the border of a taller one, at its own level.
ghost use Rattle.std.specs.Prelude.{◌≡◌, ℕ, suc, ◌+◌, ◌*◌, ◌≤◌, length};
ghost use Rattle.fc_base.specs.Sizes.{min_len};
ghost use Rattle.fc_tree_node.specs.Blocks.{blocks_of, blocks_in};
ghost use Rattle.fc_tree_node.specs.Node.{own_pairs, pairs_of, IsLevelled};
ghost use Rattle.fc_tree_node.specs.Tree.{entries, IsSoundWithin};
ghost use Rattle.fc_tree_insertion.specs.Insertion.{spread, blocks_after};
ghost use Rattle.fc_tree_append.specs.Grafted.{beside, IsGrafted, IsPlacedBeside};

use fc_base::{Count, Handle};
use fc_tree_insertion::insertion::{grow, put_inner};
use fc_tree_insertion::spares::Spares;
use fc_tree_node::lend::child_in;
use fc_tree_node::node::Node;
use fc_tree_split::rebalancing::{Border, border_child, rebalance};
use std::mem;

/// Hangs the tree at `other` on one border of the tree at `root`, whose leaves lie `depth` levels deeper, with `pair` between the
/// two. It compares nothing, and what it takes no border for stays as it is. `other` may hold too few pairs for a node, none too.
pub(crate) fn graft<K: Drop, V: Drop, A: Handle>(
    root: Node<K, V, A>,
    side: Border,
    depth: usize,
    pair: (K, V),
    other: Node<K, V, A>,
    spares: Spares<K, V, A>,
) -> Option<Node<K, V, A>>
    requires levels { (h : ℕ) × IsLevelled (depth + h) root × IsLevelled h other }
    requires some { depth ≡ 0 → min_len ≤ length (own_pairs root) }
    requires spares { depth + 1 ≤ spares }
    ensures pairs { entries result ≡ beside side (pairs_of root) pair (pairs_of other) }
    ensures levels { (h : ℕ) → IsLevelled (depth + h) root → IsLevelled h other → IsSoundWithin (suc (depth + h)) result }
    ensures blocks { blocks_in result ≤ blocks_of root + blocks_of other + 2 * spares }
{
    let mut root = root;
    let mut spares = spares;
    let count = &mut Count::new();
    match graft_below(&mut root, side, depth, pair, other, &mut spares) {
        None => rebalance(root, side, count),
        Some((up, right)) => {
            grow(&mut root, up, right, spares.take(), count);
            rebalance(root, side, count)
        }
    }
}

// Hangs the tree at `other` so many levels below the node, on its border. A full node is halved, as by an insertion: it hands out
// the pair in its middle and a node of those after it.
fn graft_below<K: Drop, V: Drop, A: Handle>(
    node: &mut Node<K, V, A>,
    side: Border,
    depth: usize,
    pair: (K, V),
    other: Node<K, V, A>,
    spares: &mut Spares<K, V, A>,
) -> Option<((K, V), Node<K, V, A>)>
    requires levels { (h : ℕ) × IsLevelled (depth + h) node.old × IsLevelled h other }
    requires some { depth ≡ 0 → min_len ≤ length (own_pairs node.old) }
    requires spares { depth ≤ spares.old }
    ensures pairs { spread node.new result ≡ beside side (pairs_of node.old) pair (pairs_of other) }
    ensures levels { (h : ℕ) → IsLevelled (depth + h) node.old → IsLevelled h other → IsGrafted side (depth + h) node.new result }
    ensures spares { spares.old ≤ spares.new + depth }

    // A spare node has two blocks.
    ensures blocks { blocks_after node.new result + 2 * spares.new ≡ blocks_of node.old + blocks_of other + 2 * spares.old }
{
    if depth == 0 {
        return Some((pair, put_beside(node, side, other)));
    }
    let place = border_child(node, side);
    let child = child_in(&mut node.children, place);
    let below = graft_below(child, side, depth - 1, pair, other, spares);
    match below {
        None => None,
        Some((up, right)) => put_inner(node, place, up, right, spares, &mut Count::new()),
    }
}

// Puts the other node on that side of the node, and hands out the one that is then on the right.
fn put_beside<K: Drop, V: Drop, A: Handle>(
    node: &mut Node<K, V, A>,
    side: Border,
    other: Node<K, V, A>,
) -> Node<K, V, A>
    ensures { IsPlacedBeside side node.old other node.new result }
{
    let mut right = other;
    match side {
        Border::Left => mem::swap(node, &mut right),
        Border::Right => {}
    }
    right
}
