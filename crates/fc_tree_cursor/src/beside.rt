//! The places of the pairs next to a key.
//!
//! One search compares, and leads to the pair with an equal key, or to the gap where the key would go. The pair next to it is mostly one of
//! the same leaf. Else it is one of the nodes on the way down, which are looked at once more, without a comparison.
ghost use Rattle.std.specs.Prelude.{◌≡◌, ℕ, ◌+◌, ◌-◌, ◌<◌, ◌≤◌, [], length, slice_index, take, Some};
ghost use Rattle.fc_base.specs.Ascending.{IsAscending};
ghost use Rattle.fc_base.specs.Parts.{below};
ghost use Rattle.fc_base.specs.Sizes.{most_levels};
ghost use Rattle.fc_tree_node.specs.Leaf.{leaf_at};
ghost use Rattle.fc_tree_node.specs.LeafGap.{IsLeafGap};
ghost use Rattle.fc_tree_node.specs.Node.{own_pairs, pairs_of, IsLevelled, IsTree};
ghost use Rattle.fc_tree_node.specs.Path.{IsPath, before_gap};
ghost use Rattle.fc_tree_node.specs.Place.{before_own, IsPlace, before_pair};
ghost use Rattle.fc_tree_search.specs.Neighbours.{not_above};
ghost use Rattle.fc_tree_search.specs.Passed.{passed};
ghost use Rattle.fc_tree_cursor.specs.Gap.{GoesOn, EndsIn};
ghost use Rattle.fc_tree_cursor.specs.Beside.{IsNextIn, IsLastIn};

use crate::gaps::{first_leaf_edge, last_leaf_edge, one_of, steps_to_previous};
use fc_base::{Count, Handle, Query};
use fc_tree_node::node::Node;
use fc_tree_node::path::Path;
use fc_tree_search::search::descend;

// How many steps of the path to a gap lead to the pair after it: 0 where there is none.
fn steps_to_next<K, V, A: Handle>(node: &Node<K, V, A>, gap: &[u8]) -> usize
    requires some { 0 < length gap.now }
    requires path { IsPath gap.now node.now }
    requires levels { IsLevelled (length gap.now - 1) node.now }
    ensures within { result ≤ length gap.now }
    ensures none { result ≡ 0 → length (before_gap gap.now node.now) ≡ length (pairs_of node.now) }
    ensures place { 0 < result → IsPlace (take result gap.now) node.now }
    ensures before { 0 < result → length (before_pair (take result gap.now) node.now) ≡ length (before_gap gap.now node.now) }
{
    let own = one_of(node.len() - gap[0] as usize);
    if gap.len() == 1 {
        return own;
    }
    let below = steps_to_next(node.child(gap[0] as usize), &gap[1..]);
    if below == 0 { own } else { below + 1 }
}

// Turns the path to a gap of the leaf into that to the pair after it; false where there is none.
fn next_kv<K, V, A: Handle>(root: &Node<K, V, A>, leaf: &Node<K, V, A>, path: &mut Path) -> bool
    requires levels { IsTree root.now }
    requires gap { IsLeafGap path.old root.now }
    requires leaf { leaf.now ≡ leaf_at path.old root.now }
    ensures { IsNextIn result (Some root.now) path.new (length (before_gap path.old root.now)) }
{
    if path.step(path.len() - 1) < leaf.len() {
        return true;
    }
    let old = *path;
    let gap = old.as_slice();
    let steps = steps_to_next(root, gap);
    if steps == 0 {
        return false;
    }
    *path = Path::of(&gap[..steps]);
    true
}

// Turns the path to a gap of a leaf into that to the pair before it; false where there is none.
fn next_back_kv<K, V, A: Handle>(root: &Node<K, V, A>, path: &mut Path) -> bool
    requires levels { IsTree root.now }
    requires gap { IsLeafGap path.old root.now }
    ensures { IsLastIn result (Some root.now) path.new (length (before_gap path.old root.now)) }
{
    let old = *path;
    let gap = old.as_slice();
    let steps = steps_to_previous(root, gap);
    if steps == 0 {
        return false;
    }
    let last = steps - 1;
    let mut place = Path::of(&gap[..last]);
    place.push(gap[last] as usize - 1);
    *path = place;
    true
}

// Goes on from the node's own pair that the path ends at to the gap after it, and answers that gap's leaf.
fn next_leaf_edge<'a, K, V, A: Handle>(
    node: &'a Node<K, V, A>,
    path: &mut Path,
) -> &'a Node<K, V, A>
    requires some { 0 < length path.old }
    requires own { slice_index path.old (length path.old - 1) < length (own_pairs node.now) }
    requires levels { (h : ℕ) × IsLevelled h node.now × (length path.old + h ≤ most_levels) }
    ensures gap { GoesOn (take (length path.old - 1) path.old) path.new node.now (length (before_own node.now (slice_index path.old (length path.old - 1))) + 1) }
    ensures leaf { EndsIn (take (length path.old - 1) path.old) path.new node.now result.now }
{
    let last = path.len() - 1;
    let place = path.step(last) + 1;
    path.set(last, place);
    if node.is_leaf() {
        return node;
    }
    first_leaf_edge(node.child(place), path)
}

// Goes back from the node's own pair that the path ends at to the gap before it.
fn next_back_leaf_edge<K, V, A: Handle>(node: &Node<K, V, A>, path: &mut Path)
    requires some { 0 < length path.old }
    requires own { slice_index path.old (length path.old - 1) < length (own_pairs node.now) }
    requires levels { (h : ℕ) × IsLevelled h node.now × (length path.old + h ≤ most_levels) }
    ensures { GoesOn (take (length path.old - 1) path.old) path.new node.now (length (before_own node.now (slice_index path.old (length path.old - 1)))) }
{
    if node.is_leaf() {
        return;
    }
    let place = path.step(path.len() - 1);
    last_leaf_edge(node.child(place), path);
}

/// Fills `path`, which has no step yet, with the way to the first pair of the tree whose key is not below `key`; false where there is none. It
/// compares each key that a search passes once, and moves no pair.
pub fn find_from<K: Ord, V, Q: Query<K>, A: Handle>(
    root: &Node<K, V, A>,
    key: Q,
    path: &mut Path,
    count: &mut Count,
) -> bool
    requires levels { IsTree root.now }
    requires order { IsAscending K.cmp (pairs_of root.now) }
    requires start { path.old ≡ [] }
    ensures place { IsNextIn result (Some root.now) path.new (length (below Q.order (pairs_of root.now) (Q.sought key))) }
    ensures comparisons { count.new.comparisons ≡ count.old.comparisons + passed Q.order (Q.sought key) root.now }
    ensures moves { count.new.moves ≡ count.old.moves }
{
    match descend(root, key, path, count) {
        Ok(_holder) => true,
        Err(leaf) => next_kv(root, leaf, path),
    }
}

/// Fills `path`, which has no step yet, with the way to the first pair of the tree whose key is above `key`; false where there is none. It
/// compares each key that a search passes once, and moves no pair.
pub fn find_after<K: Ord, V, Q: Query<K>, A: Handle>(
    root: &Node<K, V, A>,
    key: Q,
    path: &mut Path,
    count: &mut Count,
) -> bool
    requires levels { IsTree root.now }
    requires order { IsAscending K.cmp (pairs_of root.now) }
    requires start { path.old ≡ [] }
    ensures place { IsNextIn result (Some root.now) path.new (length (not_above Q.order (pairs_of root.now) (Q.sought key))) }
    ensures comparisons { count.new.comparisons ≡ count.old.comparisons + passed Q.order (Q.sought key) root.now }
    ensures moves { count.new.moves ≡ count.old.moves }
{
    match descend(root, key, path, count) {
        Ok(holder) => {
            let leaf = next_leaf_edge(holder, path);
            next_kv(root, leaf, path)
        }
        Err(leaf) => next_kv(root, leaf, path),
    }
}

/// Fills `path`, which has no step yet, with the way to the last pair of the tree whose key is not above `key`; false where there is none. It
/// compares each key that a search passes once, and moves no pair.
pub fn find_to<K: Ord, V, Q: Query<K>, A: Handle>(
    root: &Node<K, V, A>,
    key: Q,
    path: &mut Path,
    count: &mut Count,
) -> bool
    requires levels { IsTree root.now }
    requires order { IsAscending K.cmp (pairs_of root.now) }
    requires start { path.old ≡ [] }
    ensures place { IsLastIn result (Some root.now) path.new (length (not_above Q.order (pairs_of root.now) (Q.sought key))) }
    ensures comparisons { count.new.comparisons ≡ count.old.comparisons + passed Q.order (Q.sought key) root.now }
    ensures moves { count.new.moves ≡ count.old.moves }
{
    match descend(root, key, path, count) {
        Ok(_holder) => true,
        Err(_leaf) => next_back_kv(root, path),
    }
}

/// Fills `path`, which has no step yet, with the way to the last pair of the tree whose key is below `key`; false where there is none. It
/// compares each key that a search passes once, and moves no pair.
pub fn find_before<K: Ord, V, Q: Query<K>, A: Handle>(
    root: &Node<K, V, A>,
    key: Q,
    path: &mut Path,
    count: &mut Count,
) -> bool
    requires levels { IsTree root.now }
    requires order { IsAscending K.cmp (pairs_of root.now) }
    requires start { path.old ≡ [] }
    ensures place { IsLastIn result (Some root.now) path.new (length (below Q.order (pairs_of root.now) (Q.sought key))) }
    ensures comparisons { count.new.comparisons ≡ count.old.comparisons + passed Q.order (Q.sought key) root.now }
    ensures moves { count.new.moves ≡ count.old.moves }
{
    match descend(root, key, path, count) {
        Ok(holder) => {
            next_back_leaf_edge(holder, path);
            next_back_kv(root, path)
        }
        Err(_leaf) => next_back_kv(root, path),
    }
}
