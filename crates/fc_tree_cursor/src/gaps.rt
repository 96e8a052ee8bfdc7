//! From a gap between two pairs to the pair on either side, and to the gap on the other side of it.
//!
//! A gap is a path to a gap of a leaf. It stays one where values are written.
ghost use Rattle.std.specs.Prelude.{◌≡◌, ℕ, ◌+◌, ◌-◌, ◌<◌, ◌≤◌, ◌∷◌, ◌++◌, length, slice_index, take};
ghost use Rattle.fc_base.specs.Sizes.{most_levels};
ghost use Rattle.fc_tree_node.specs.Node.{pairs_of, IsLevelled};
ghost use Rattle.fc_tree_node.specs.Path.{IsPath, before_gap};
ghost use Rattle.fc_tree_node.specs.Place.{IsPlace, before_pair};
ghost use Rattle.fc_tree_cursor.specs.Gap.{one_back, GoesOn, EndsIn};

use fc_base::Handle;
use fc_tree_node::node::Node;
use fc_tree_node::path::Path;

// One step, to a pair of the node itself, where it has so many on that side; 0 where it has none.
pub(crate) fn one_of(count: usize) -> usize
    ensures none { result ≡ 0 → count ≡ 0 }
    ensures one { 0 < result → (result ≡ 1) × (0 < count) }
{
    if 0 < count { 1 } else { 0 }
}

/// How many steps of the path to a gap lead over the pair before it: 0 where there is none.
pub fn steps_to_previous<K, V, A: Handle>(node: &Node<K, V, A>, gap: &[u8]) -> usize
    requires some { 0 < length gap.now }
    requires path { IsPath gap.now node.now }
    requires levels { IsLevelled (length gap.now - 1) node.now }
    ensures within { result ≤ length gap.now }
    ensures none { result ≡ 0 → length (before_gap gap.now node.now) ≡ 0 }
    ensures place { 0 < result → IsPlace (one_back (take result gap.now)) node.now }
    ensures before { 0 < result → length (before_pair (one_back (take result gap.now)) node.now) + 1 ≡ length (before_gap gap.now node.now) }
    ensures step { (last : ℕ) → last + 1 ≡ result → 0 < slice_index gap.now last }
{
    let own = one_of(gap[0] as usize);
    if gap.len() == 1 {
        return own;
    }
    let below = steps_to_previous(node.child(gap[0] as usize), &gap[1..]);
    if below == 0 { own } else { below + 1 }
}

/// Goes on to the last gap below the node, and answers its leaf.
pub fn last_leaf_edge<'a, K, V, A: Handle>(
    node: &'a Node<K, V, A>,
    gap: &mut Path,
) -> &'a Node<K, V, A>
    requires levels { (h : ℕ) × IsLevelled h node.now × (length gap.old + h < most_levels) }
    ensures gap { GoesOn gap.old gap.new node.now (length (pairs_of node.now)) }
    ensures leaf { EndsIn gap.old gap.new node.now result.now }
{
    let end = node.len();
    gap.push(end);
    if end < node.child_count() {
        return last_leaf_edge(node.child(end), gap);
    }
    node
}

/// Goes on to the first gap below the node, and answers its leaf.
pub fn first_leaf_edge<'a, K, V, A: Handle>(
    node: &'a Node<K, V, A>,
    gap: &mut Path,
) -> &'a Node<K, V, A>
    requires levels { (h : ℕ) × IsLevelled h node.now × (length gap.old + h < most_levels) }
    ensures gap { GoesOn gap.old gap.new node.now 0 }
    ensures leaf { EndsIn gap.old gap.new node.now result.now }
{
    gap.push(0);
    if 0 < node.child_count() {
        return first_leaf_edge(node.child(0), gap);
    }
    node
}

/// Goes on to the gap before the pair that the path leads to.
pub fn push_gap_before<K, V, A: Handle>(node: &Node<K, V, A>, place: &[u8], gap: &mut Path)
    requires place { IsPlace place.now node.now }
    requires levels { (h : ℕ) × IsLevelled h node.now × (length gap.old + h < most_levels) }
    ensures { GoesOn gap.old gap.new node.now (length (before_pair place.now node.now)) }
{
    let step = place[0] as usize;
    gap.push(step);
    if place.len() > 1 {
        push_gap_before(node.child(step), &place[1..], gap);
    } else if step < node.child_count() {
        last_leaf_edge(node.child(step), gap);
    }
}
