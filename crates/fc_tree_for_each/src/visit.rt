//! A closure called at each pair below a node, in order.
ghost use Rattle.std.specs.Prelude.{◌≡◌, ℕ, ◌-◌, ◌<◌, ◌≤◌, length, slice_index_or, drop, Some, IsSome};
ghost use Rattle.std.specs.Borrow.{sem};
ghost use Rattle.fc_tree_node.specs.Bare.{bare};
ghost use Rattle.fc_tree_node.specs.Node.{own_pairs, pairs_of, IsLevelled};
ghost use Rattle.fc_tree_node.specs.Path.{before_gap, after_gap};
ghost use Rattle.fc_tree_search.specs.Written.{with_value};
ghost use Rattle.fc_tree_cursor.specs.Ends.{AreInOrder, IsEnd};
ghost use Rattle.fc_tree_for_each.specs.Visits.{CalledAtPair, IsVisitedAt};

use fc_base::Handle;
use fc_tree_node::lend::child_in;
use fc_tree_node::node::Node;
use fc_tree_node::path::split_step;

/// Calls the closure at each pair below the node between two gaps, in order, with its value lent for writing. A path leads to each
/// gap; one without steps stands for the end of the tree on its side. No memory is taken, and no node on the other side of a gap is
/// entered.
pub fn visit<K, V, F: FnMut(&K, &mut V), A: Handle>(
    node: &mut Node<K, V, A>,
    from: &[u8],
    to: &[u8],
    f: &mut F,
)
    requires ends { (h : ℕ) × IsLevelled h (bare node.old) × IsEnd h from.now (bare node.old) × IsEnd h to.now (bare node.old) }
    requires order { AreInOrder from.now to.now }
    requires callable { F.IsAlwaysCallable f.old }
    ensures callable { F.IsAlwaysCallable f.new }
    ensures same { bare node.new ≡ bare node.old }
    ensures visited { IsVisitedAt (CalledAtPair F.FnMut) f.old f.new (length (before_gap from.now (bare node.old))) (length (pairs_of (bare node.old)) - length (after_gap to.now (bare node.old))) (pairs_of node.old) (pairs_of node.new) }
{
    let (start, rest) = split_step(from, 0);
    let (end, to_rest) = split_step(to, node.len());
    if node.is_leaf() {
        visit_leaf(node, start, end, f);
        return;
    }
    let mut rest = rest;
    for i in start..end {
        visit(child_in(&mut node.children, i), rest, &[], f);
        visit_own(node, i, f);
        rest = &[];
    }
    visit(child_in(&mut node.children, end), rest, to_rest, f);
}

// Calls the closure at the pairs of a leaf from one place to another.
fn visit_leaf<K, V, F: FnMut(&K, &mut V), A: Handle>(
    node: &mut Node<K, V, A>,
    start: usize,
    end: usize,
    f: &mut F,
)
    requires leaf { IsLevelled 0 node.old }
    requires order { (start ≤ end) × (end ≤ length (own_pairs node.old)) }
    requires callable { F.IsAlwaysCallable f.old }
    ensures callable { F.IsAlwaysCallable f.new }
    ensures same { bare node.new ≡ bare node.old }
    ensures visited { IsVisitedAt (CalledAtPair F.FnMut) f.old f.new start end (pairs_of node.old) (pairs_of node.new) }
{
    for i in start..end {
        visit_own(node, i, f);
    }
}

// Calls the closure at the node's own pair at `index`.
fn visit_own<K, V, F: FnMut(&K, &mut V), A: Handle>(
    node: &mut Node<K, V, A>,
    index: usize,
    f: &mut F,
)
    requires inside { index < length (own_pairs node.old) }
    requires callable { F.IsAlwaysCallable f.old }
    ensures callable { F.IsAlwaysCallable f.new }
    ensures visited { (e : _) × (w : _) × CalledAtPair F.FnMut f.old e f.new w × (e ≡ slice_index_or (own_pairs node.old) index e) × (node.new ≡ with_value node.old index w) }
{
    let pair = node.pairs.get_mut(index);
    f(&pair.0, &mut pair.1);
}
