//! Removal at a place, which rebalances the nodes above it on its way up.
ghost use Rattle.std.specs.Prelude.{◌≡◌, ℕ, suc, ◌+◌, ◌-◌, ◌*◌, ◌<◌, ◌≤◌, [], ◌∷◌, ◌++◌, length, Some, IsTrue};
ghost use Rattle.fc_base.specs.Sizes.{capacity, min_len, most_levels, level_moves};
ghost use Rattle.fc_tree_node.specs.Blocks.{blocks_of, blocks_in};
ghost use Rattle.fc_tree_node.specs.Node.{own_pairs, child_at, pairs_of, IsLevelled, IsSoundRoot};
ghost use Rattle.fc_tree_node.specs.Place.{IsPlace, place_pair, before_pair, after_pair};
ghost use Rattle.fc_tree_node.specs.Siblings.{IsMerged, IsShared};
ghost use Rattle.fc_tree_node.specs.Tree.{entries};
ghost use Rattle.fc_tree_node.specs.TreePlace.{IsPlaceIn, pair_in, before_pair_in, after_pair_in};
ghost use Rattle.fc_tree_removal.specs.Fewest.{least_rebalancing, fewest_moves, HasFewestMoves};
ghost use Rattle.fc_tree_removal.specs.Rebalancing.{together, IsShortAt};
ghost use Rattle.fc_tree_removal.specs.Removal.{IsSoundTree, IsTreeLeft, IsSpared};
ghost use Rattle.fc_tree_node.specs.Shrunk.{IsShrunk};

use fc_base::{Count, Handle};
use fc_tree_node::descent::pairs_mut;
use fc_tree_node::lend::child_in;
use fc_tree_node::node::{CAPACITY, MIN_LEN, Node, into_only_child};
use fc_tree_node::path::MAX_STEPS;

/// Takes the pair at the place out of the tree, of which nothing is left where that was the only pair. It compares nothing and takes
/// no memory.
pub fn remove<K: Drop, V: Drop, A: Handle>(
    tree: &mut Option<Node<K, V, A>>,
    path: &[u8],
    count: &mut Count,
) -> (K, V)
    requires sound { (h : ℕ) × IsSoundTree h tree.old }
    requires place { IsPlaceIn tree.old path.now }
    ensures pair { pair_in tree.old path.now ≡ Some result }
    ensures pairs { entries tree.new ≡ before_pair_in tree.old path.now ++ after_pair_in tree.old path.now }

    // The tree is as high as before or one level lower.
    ensures levels { (h : ℕ) → IsSoundTree h tree.old → IsTreeLeft h tree.new }
    ensures moves { (h : ℕ) → IsSoundTree h tree.old → count.new.moves ≤ count.old.moves + level_moves * (h + 1) }
    ensures moved { count.old.moves < count.new.moves }
    ensures fewest { HasFewestMoves tree.old tree.new count.old count.new }
    ensures comparisons { count.new.comparisons ≡ count.old.comparisons }
    ensures blocks { blocks_in tree.new ≤ blocks_in tree.old }
{
    let Some(root) = tree else { unreachable!() };
    let node: &mut Node<K, V, A> = root;
    if path.len() <= MAX_STEPS && is_spared(node, path) {
        return remove_spared(node, path, count);
    }
    let pair = remove_at(node, path, count);
    if node.len() > 0 {
        return pair;
    }
    take_empty_root(tree);
    pair
}

// Whether the place is one of a leaf that keeps enough pairs without one.
fn is_spared<K, V, A: Handle>(node: &Node<K, V, A>, path: &[u8]) -> bool
    requires { IsPlace path.now node.now }
    ensures { IsTrue result → IsSpared path.now node.now }
{
    if path.len() == 1 {
        return node.is_leaf() && MIN_LEN < node.len();
    }
    is_spared(node.child(path[0] as usize), &path[1..])
}

// Takes the pair at the place out of a leaf that keeps enough without it, whose pairs are lent: no node above it changes, and nothing
// is left to do on the way back.
fn remove_spared<K: Drop, V: Drop, A: Handle>(
    node: &mut Node<K, V, A>,
    path: &[u8],
    count: &mut Count,
) -> (K, V)
    requires sound { (h : ℕ) × IsSoundRoot h node.old }
    requires short { length path.now ≤ most_levels }
    requires place { IsPlace path.now node.old }
    requires spared { IsSpared path.now node.old }
    ensures pair { place_pair path.now node.old ≡ Some result }
    ensures pairs { pairs_of node.new ≡ before_pair path.now node.old ++ after_pair path.now node.old }
    ensures levels { (h : ℕ) → IsSoundRoot h node.old → IsShrunk h node.old node.new }
    ensures some { 0 < length (own_pairs node.new) }
    ensures moves { count.new.moves ≤ count.old.moves + (capacity + 2) }
    ensures moved { count.old.moves < count.new.moves }
    ensures fewest { (h : ℕ) → IsSoundRoot h node.old → length (own_pairs node.new) < length (own_pairs node.old) → count.old.moves + fewest_moves h ≤ count.new.moves }
    ensures comparisons { count.new.comparisons ≡ count.old.comparisons }
    ensures blocks { blocks_of node.new ≤ blocks_of node.old }
{
    let last = path.len() - 1;
    let i = path[last] as usize;
    pairs_mut(node, &path[..last]).remove(i, count)
}

// Takes a root without pairs out of the tree. It is not inlined, since few removals come to it.
#[inline(never)]
pub(crate) fn take_empty_root<K: Drop, V: Drop, A: Handle>(tree: &mut Option<Node<K, V, A>>)
    requires { (root : Node K V A) × (tree.old ≡ Some root) × (h : ℕ) × IsLevelled h root }
    ensures pairs { entries tree.new ≡ entries tree.old }
    ensures levels { (root : Node K V A) → tree.old ≡ Some root → (h : ℕ) → IsLevelled h root → IsTreeLeft h tree.new }
    ensures blocks { blocks_in tree.new ≤ blocks_in tree.old }
{
    let Some(root) = tree.take() else {
        unreachable!()
    };
    *tree = without_empty_root(root);
}

// A root without pairs gives way to its only child.
fn without_empty_root<K: Drop, V: Drop, A: Handle>(root: Node<K, V, A>) -> Option<Node<K, V, A>>
    requires { (h : ℕ) × IsLevelled h root }
    ensures pairs { entries result ≡ pairs_of root }
    ensures levels { (h : ℕ) → IsLevelled h root → IsTreeLeft h result }
    ensures blocks { blocks_in result ≤ blocks_of root }
{
    if root.len() > 0 {
        return Some(root);
    }
    into_only_child(root)
}

// Takes the pair at the place out, and rebalances the nodes below `node`.
fn remove_at<K: Drop, V: Drop, A: Handle>(
    node: &mut Node<K, V, A>,
    path: &[u8],
    count: &mut Count,
) -> (K, V)
    requires sound { (h : ℕ) × IsSoundRoot h node.old }
    requires place { IsPlace path.now node.old }
    ensures pair { place_pair path.now node.old ≡ Some result }
    ensures pairs { pairs_of node.new ≡ before_pair path.now node.old ++ after_pair path.now node.old }
    ensures levels { (h : ℕ) → IsSoundRoot h node.old → IsShrunk h node.old node.new }
    ensures moves { (h : ℕ) → IsSoundRoot h node.old → count.new.moves ≤ count.old.moves + (capacity + 2 + level_moves * h) }
    ensures moved { count.old.moves < count.new.moves }
    ensures fewest { (h : ℕ) → IsSoundRoot h node.old → length (own_pairs node.new) < length (own_pairs node.old) → count.old.moves + fewest_moves h ≤ count.new.moves }
    ensures comparisons { count.new.comparisons ≡ count.old.comparisons }
    ensures blocks { blocks_of node.new ≤ blocks_of node.old }
{
    let i = path[0] as usize;
    if path.len() == 1 {
        return remove_own(node, i, count);
    }
    let pair = remove_at(child_in(&mut node.children, i), &path[1..], count);
    rebalance_child(node, i, count);
    pair
}

// Takes the node's own pair at `index` out. In an inner node the first pair of the subtree on its right takes its place.
fn remove_own<K: Drop, V: Drop, A: Handle>(
    node: &mut Node<K, V, A>,
    index: usize,
    count: &mut Count,
) -> (K, V)
    requires sound { (h : ℕ) × IsSoundRoot h node.old }
    requires place { IsPlace (index ∷ []) node.old }
    ensures pair { place_pair (index ∷ []) node.old ≡ Some result }
    ensures pairs { pairs_of node.new ≡ before_pair (index ∷ []) node.old ++ after_pair (index ∷ []) node.old }
    ensures levels { (h : ℕ) → IsSoundRoot h node.old → IsShrunk h node.old node.new }
    ensures moves { (h : ℕ) → IsSoundRoot h node.old → count.new.moves ≤ count.old.moves + (capacity + 2 + level_moves * h) }
    ensures moved { count.old.moves < count.new.moves }
    ensures fewest { (h : ℕ) → IsSoundRoot h node.old → length (own_pairs node.new) < length (own_pairs node.old) → count.old.moves + fewest_moves h ≤ count.new.moves }
    ensures comparisons { count.new.comparisons ≡ count.old.comparisons }
    ensures blocks { blocks_of node.new ≤ blocks_of node.old }
{
    if node.is_leaf() {
        return node.remove_leaf(index, count);
    }
    let next = remove_first(child_in(&mut node.children, index + 1), count);
    let pair = node.replace_pair(index, next, count);
    rebalance_child(node, index + 1, count);
    pair
}

/// Takes the first pair in the node or below it out. The levels below the node stay, and the node itself may lose a pair.
pub fn remove_first<K: Drop, V: Drop, A: Handle>(
    node: &mut Node<K, V, A>,
    count: &mut Count,
) -> (K, V)
    requires sound { (h : ℕ) × IsSoundRoot h node.old }
    ensures pairs { pairs_of node.old ≡ result ∷ pairs_of node.new }
    ensures levels { (h : ℕ) → IsSoundRoot h node.old → IsShrunk h node.old node.new }
    ensures moves { (h : ℕ) → IsSoundRoot h node.old → count.new.moves ≤ count.old.moves + (capacity + level_moves * h) }
    ensures moved { count.old.moves < count.new.moves }
    ensures fewest { (h : ℕ) → IsSoundRoot h node.old → length (own_pairs node.new) < length (own_pairs node.old) → count.old.moves + fewest_moves h ≤ count.new.moves }
    ensures comparisons { count.new.comparisons ≡ count.old.comparisons }
    ensures blocks { blocks_of node.new ≤ blocks_of node.old }
{
    if node.is_leaf() {
        return node.remove_leaf(0, count);
    }
    let pair = remove_first(child_in(&mut node.children, 0), count);
    rebalance_child(node, 0, count);
    pair
}

// Rebalances the child at `index` where it has fewer than `MIN_LEN` pairs.
#[inline]
pub(crate) fn rebalance_child<K: Drop, V: Drop, A: Handle>(
    node: &mut Node<K, V, A>,
    index: usize,
    count: &mut Count,
)
    requires { (h : ℕ) × IsShortAt h node.old index }

    // A child that has `MIN_LEN` pairs stays.
    ensures whole { min_len ≤ length (own_pairs (child_at node.old index)) → node.new ≡ node.old }
    ensures whole_moves { min_len ≤ length (own_pairs (child_at node.old index)) → count.new.moves ≡ count.old.moves }

    // All pairs stay, and no child is short.
    ensures pairs { pairs_of node.new ≡ pairs_of node.old }
    ensures levels { (h : ℕ) → IsShortAt h node.old index → IsShrunk (suc h) node.old node.new }
    ensures kept_moves { count.old.moves ≤ count.new.moves }
    ensures least { length (own_pairs (child_at node.old index)) < min_len → count.old.moves + least_rebalancing ≤ count.new.moves }
    ensures moves { count.new.moves ≤ count.old.moves + level_moves }
    ensures comparisons { count.new.comparisons ≡ count.old.comparisons }
    ensures blocks { blocks_of node.new ≤ blocks_of node.old }
{
    if node.child(index).len() >= MIN_LEN {
        return;
    }
    rebalance_short(node, index, count);
}

// Rebalances the child at `index`, which has one fewer: with the child on its left where there is one, else with the one on its right.
// Where both and the pair between them fit in one node, they are merged, and else one pair is stolen.
#[inline(never)]
fn rebalance_short<K: Drop, V: Drop, A: Handle>(
    node: &mut Node<K, V, A>,
    index: usize,
    count: &mut Count,
)
    requires at { (h : ℕ) × IsShortAt h node.old index }
    requires short { length (own_pairs (child_at node.old index)) < min_len }
    ensures merged { together node.old (index - 1) ≤ capacity → IsMerged (index - 1) node.old node.new }
    ensures stolen_left { capacity < together node.old (index - 1) → 0 < index → IsShared (index - 1) (length (own_pairs (child_at node.old (index - 1))) - 1) node.old node.new }
    ensures stolen_right { capacity < together node.old (index - 1) → index ≡ 0 → IsShared 0 min_len node.old node.new }
    ensures pairs { pairs_of node.new ≡ pairs_of node.old }
    ensures levels { (h : ℕ) → IsShortAt h node.old index → IsShrunk (suc h) node.old node.new }
    ensures merge_moves { together node.old (index - 1) ≤ capacity → count.new.moves ≡ count.old.moves + ((length (own_pairs node.old) - (index - 1)) + (length (own_pairs (child_at node.old (index - 1 + 1))) + 1)) }
    ensures left_theft_moves { capacity < together node.old (index - 1) → 0 < index → count.new.moves ≡ count.old.moves + (length (own_pairs (child_at node.old (index - 1 + 1))) + 4) }
    ensures right_theft_moves { capacity < together node.old (index - 1) → index ≡ 0 → count.new.moves ≡ count.old.moves + (length (own_pairs (child_at node.old 1)) + 3) }
    ensures kept_moves { count.old.moves ≤ count.new.moves }
    ensures least { count.old.moves + least_rebalancing ≤ count.new.moves }
    ensures moves { count.new.moves ≤ count.old.moves + level_moves }
    ensures theft_moves { capacity < together node.old (index - 1) → count.new.moves ≤ count.old.moves + (capacity + 3) }
    ensures comparisons { count.new.comparisons ≡ count.old.comparisons }
    ensures blocks { blocks_of node.new ≤ blocks_of node.old }
{
    let place = index.saturating_sub(1);
    if node.child(place).len() + node.child(place + 1).len() < CAPACITY {
        node.merge(place, count);
    } else if index > 0 {
        node.steal_left(place, count);
    } else {
        node.steal_right(place, count);
    }
}
