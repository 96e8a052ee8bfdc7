//! Steps from gap to gap where values are written: within a leaf, and on to the next one.
//!
//! A walk that keeps how many pairs of its leaf lie after it goes from pair to pair there without a look at the tree.
ghost use Rattle.std.specs.Prelude.{◌≡◌, ℕ, suc, ◌+◌, ◌-◌, ◌<◌, ◌≤◌, [], ◌∷◌, ◌++◌, length, slice_index, take};
ghost use Rattle.fc_tree_node.specs.Node.{own_pairs, pairs_of, IsLevelled, IsTree};
ghost use Rattle.fc_tree_node.specs.LeafGap.{IsLeafGap};
ghost use Rattle.fc_tree_node.specs.Path.{IsPath, before_gap};
ghost use Rattle.fc_tree_node.specs.Place.{IsPlace, before_pair};
ghost use Rattle.fc_tree_cursor.specs.Gap.{zeros};
ghost use Rattle.fc_tree_cursor.specs.Leaf.{advanced};

use crate::run::lowest_with_next;
use fc_base::Handle;
use fc_tree_node::node::Node;
use fc_tree_node::path::Path;

/// How many pairs of its leaf lie after a gap.
pub fn pairs_after<K, V, A: Handle>(node: &Node<K, V, A>, gap: &[u8]) -> usize
    requires some { 0 < length gap.now }
    requires path { IsPath gap.now node.now }
    requires levels { IsLevelled (length gap.now - 1) node.now }
    ensures there { IsPath (advanced gap.now result) node.now }
    ensures all { (k : ℕ) → IsPath (advanced gap.now k) node.now → k ≤ result }
{
    let step = gap[0] as usize;
    if gap.len() == 1 {
        node.len() - step
    } else {
        pairs_after(node.child(step), &gap[1..])
    }
}

/// Goes on over so many pairs of the leaf. A path of no step stays.
#[inline]
pub fn advance(gap: &mut Path, count: usize)
    requires small { 0 < length gap.old → slice_index gap.old (length gap.old - 1) + count < 256 }
    ensures { gap.new ≡ advanced gap.old count }
{
    if gap.len() == 0 {
        return;
    }
    let last = gap.len() - 1;
    gap.set(last, gap.step(last) + count);
}

// Goes down from a node at a level of a path, by the path's step there and then by first children, and answers how many pairs of the
// leaf lie after.
fn go_down<K, V, A: Handle>(node: &Node<K, V, A>, gap: &mut Path, level: usize) -> usize
    requires level { level < length gap.old }
    requires step { slice_index gap.old level ≤ length (own_pairs node.now) }
    requires levels { IsLevelled (length gap.old - suc level) node.now }
    ensures gap { gap.new ≡ take (suc level) gap.old ++ zeros (length gap.old - suc level) }
    ensures run { IsPath (advanced (slice_index gap.old level ∷ zeros (length gap.old - suc level)) result) node.now }
    ensures all { (k : ℕ) → IsPath (advanced (slice_index gap.old level ∷ zeros (length gap.old - suc level)) k) node.now → k ≤ result }
{
    let len = gap.len();
    let step = gap.step(level);
    if level + 1 == len {
        return node.len() - step;
    }
    gap.set(level + 1, 0);
    go_down(node.child(step), gap, level + 1)
}

/// Goes on over the pair after a gap, and answers how many steps of the path lead to its node, its place there, and how many pairs of
/// the leaf lie after the gap where the path then leads.
#[inline]
pub fn next_place<K, V, A: Handle>(root: &Node<K, V, A>, gap: &mut Path) -> (usize, usize, usize)
    requires levels { IsTree root.now }
    requires gap { IsLeafGap gap.old root.now }
    requires later { length (before_gap gap.old root.now) < length (pairs_of root.now) }
    ensures way { result.0 < length gap.old }
    ensures own { result.1 ≡ slice_index gap.old result.0 }
    ensures place { IsPlace (take result.0 gap.old ++ result.1 ∷ []) root.now }
    ensures before { length (before_pair (take result.0 gap.old ++ result.1 ∷ []) root.now) ≡ length (before_gap gap.old root.now) }
    ensures gap { gap.new ≡ take result.0 gap.old ++ (result.1 + 1) ∷ zeros (length gap.old - suc result.0) }
    ensures run { IsPath (advanced gap.new result.2) root.now }
    ensures all { (k : ℕ) → IsPath (advanced gap.new k) root.now → k ≤ result.2 }
{
    let (holder, level) = lowest_with_next(root, gap);
    let place = gap.step(level);
    gap.set(level, place + 1);
    let run = go_down(holder, gap, level);
    (level, place, run)
}

/// Goes back to the gap before the pair before it in the leaf.
#[inline]
pub fn next_back_in_leaf(gap: &mut Path)
    requires some { 0 < length gap.old }
    requires before { 0 < slice_index gap.old (length gap.old - 1) }
    requires small { slice_index gap.old (length gap.old - 1) < 256 }
    ensures { advanced gap.new 1 ≡ gap.old }
{
    let last = gap.len() - 1;
    gap.set(last, gap.step(last) - 1);
}
