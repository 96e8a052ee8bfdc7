//! The pairs between two gaps that are not to stay taken out of a tree, of which only the nodes between these are seen, and rebalanced.
ghost use Rattle.std.specs.Prelude.{ℕ, ◌≤◌, length};
ghost use Rattle.fc_tree_node.specs.Node.{own_pairs, IsLevelled};
ghost use Rattle.fc_tree_retain.specs.Unbalanced.{IsUnbalanced};
ghost use Rattle.fc_tree_retain.specs.Rebalancing.{IsUnderfull};
ghost use Rattle.fc_tree_retain.specs.Filtered.{FiltersPair};
ghost use Rattle.fc_tree_cursor.specs.Ends.{AreInOrder, IsEnd};
ghost use Rattle.fc_tree_retain.specs.Stretch.{IsLeafRangeFiltered, IsRangeFiltered};

use crate::filter::Filter;
use crate::filtering::{filter_pair, filter_separator};
use crate::rebalancing::rebalance_between;
use fc_base::Handle;
use fc_tree_node::lend::child_in;
use fc_tree_node::node::Node;
use fc_tree_node::path::split_step;

// Asks of each pair below the node between two gaps, in order, takes those out that are not to stay, and rebalances what is below the node.
// A path of no step stands for the end of the node on its side.
pub(crate) fn filter_range<K: Drop, V: Drop, S: Filter<K, V>, A: Handle>(
    node: &mut Node<K, V, A>,
    front: &[u8],
    back: &[u8],
    filter: &mut S,
)
    requires ends { (h : ℕ) × IsLevelled h node.old × IsEnd h front.now node.old × IsEnd h back.now node.old }
    requires order { AreInOrder front.now back.now }
    requires callable { S.callable filter.old }
    ensures callable { S.callable filter.new }
    ensures underfull { (h : ℕ) → IsLevelled h node.old → IsUnderfull h node.new }
    ensures filtered { IsRangeFiltered (FiltersPair S.asked S.given) filter.old filter.new front.now back.now node.old node.new }
{
    let (start, front_left) = split_step(front, 0);
    let (end, back_rest) = split_step(back, node.len());
    if node.is_leaf() {
        filter_leaf_range(node, start, end, filter);
        return;
    }
    let mut front_rest = front_left;
    let mut at = start;
    for _ in start..end {
        filter_range(child_in(&mut node.children, at), front_rest, &[], filter);
        at = filter_separator(node, at, true, filter);
        front_rest = &[];
    }
    filter_range(
        child_in(&mut node.children, at),
        front_rest,
        back_rest,
        filter,
    );
    rebalance_between(node, start, at);
}

// Asks of the pairs of a leaf from one place up to another.
fn filter_leaf_range<K: Drop, V: Drop, S: Filter<K, V>, A: Handle>(
    node: &mut Node<K, V, A>,
    start: usize,
    end: usize,
    filter: &mut S,
)
    requires leaf { IsUnbalanced 0 node.old }
    requires order { start ≤ end }
    requires inside { end ≤ length (own_pairs node.old) }
    requires callable { S.callable filter.old }
    ensures callable { S.callable filter.new }
    ensures unbalanced { IsUnbalanced 0 node.new }
    ensures filtered { IsLeafRangeFiltered (FiltersPair S.asked S.given) filter.old filter.new start end (own_pairs node.old) (own_pairs node.new) }
{
    let mut at = start;
    for _ in start..end {
        at = filter_pair(node, at, filter);
    }
}
