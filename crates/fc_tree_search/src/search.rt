//! Search for a key, in a node and down a tree.
ghost use Rattle.std.specs.Prelude.{◌≡◌, ℕ, ◌+◌, ◌*◌, ◌<◌, ◌≤◌, ◌↔◌, [], length, IsTrue, IfOk, IfErr, OnOk, OnErr, option_copied};
ghost use Rattle.fc_base.specs.Sizes.{capacity, level_comparisons};
ghost use Rattle.fc_base.specs.Ascending.{IsAscending};
ghost use Rattle.fc_base.specs.Parts.{at};
ghost use Rattle.fc_tree_node.specs.Leaf.{leaf_at};
ghost use Rattle.fc_tree_node.specs.Node.{own_pairs, pairs_of, IsLevelled, IsTree};
ghost use Rattle.fc_tree_search.specs.Found.{IsFoundAt, IsGapAt, IsFound, IsGap, seen};
ghost use Rattle.fc_tree_search.specs.Passed.{passed};
ghost use Rattle.fc_tree_search.specs.Way.{path_to};

use fc_base::{Count, Handle, Query, compare};
use fc_tree_node::node::{CAPACITY, Node};
use fc_tree_node::path::Path;

// Where the key stands among the node's own, or else the gap where it would go. From the left each key is compared, until
// one is not below it.
pub(crate) fn search_node<K: Ord, V, Q: Query<K>, A: Handle>(
    node: &Node<K, V, A>,
    key: Q,
    count: &mut Count,
) -> Result<usize, usize>
    ensures found { IfOk result (IsFoundAt Q.order (Q.sought key) (own_pairs node.now)) }
    ensures gap { IfErr result (IsGapAt Q.order (Q.sought key) (own_pairs node.now)) }
    ensures comparisons { count.new.comparisons ≡ count.old.comparisons + seen result (length (own_pairs node.now)) }
    ensures moves { count.new.moves ≡ count.old.moves }
{
    let n = node.len();
    for i in 0..n {
        let order = compare(&node.pair(i).0, key, count);
        if order.is_lt() {
            continue;
        }
        return if order.is_eq() { Ok(i) } else { Err(i) };
    }
    Err(n)
}

/// What a search tells of the gap that it ends in.
#[derive(Clone, Copy)]
pub struct NotFound {
    /// Whether the leaf has room for another pair.
    pub has_room: bool,
}

/// Fills `path`, which has no step yet, with the way down the tree at `root` to where the key stands: `Ok` where it leads to the
/// pair that has an equal key, or `Err` where it leads to the gap between the pairs of a leaf where the key would go; with the node
/// of that pair or gap. It compares each key that it passes once, and moves no pair.
pub fn descend<'a, K: Ord, V, Q: Query<K>, A: Handle>(
    root: &'a Node<K, V, A>,
    key: Q,
    path: &mut Path,
    count: &mut Count,
) -> Result<&'a Node<K, V, A>, &'a Node<K, V, A>>
    requires levels { IsTree root.now }
    requires order { IsAscending K.cmp (pairs_of root.now) }
    requires start { path.old ≡ [] }
    ensures found { OnOk result (IsFound Q.order (Q.sought key) root.now path.new) }
    ensures gap { OnErr result (IsGap Q.order (Q.sought key) root.now path.new) }
    ensures node { IfOk result (λ n. n.now ≡ leaf_at path.new root.now) }
    ensures leaf { IfErr result (λ n. n.now ≡ leaf_at path.new root.now) }
    ensures path { path.new ≡ path_to Q.order (Q.sought key) root.now }
    ensures comparisons { count.new.comparisons ≡ count.old.comparisons + passed Q.order (Q.sought key) root.now }
    ensures bounded { (h : ℕ) → IsLevelled h root.now → count.new.comparisons ≤ count.old.comparisons + level_comparisons * (h + 1) }
    ensures moves { count.new.moves ≡ count.old.moves }
{
    let mut node = root;
    'down: loop {
        match search_node(node, key, count) {
            Ok(i) => {
                path.push(i);
                return Ok(node);
            }
            Err(i) => {
                path.push(i);
                if node.is_leaf() {
                    return Err(node);
                }
                node = node.child(i);
            }
        }
    }
}

/// The same, of which the gap's leaf tells only what an insertion has to know.
pub fn search<K: Ord, V, Q: Query<K>, A: Handle>(
    root: &Node<K, V, A>,
    key: Q,
    path: &mut Path,
    count: &mut Count,
) -> Result<(), NotFound>
    requires levels { IsTree root.now }
    requires order { IsAscending K.cmp (pairs_of root.now) }
    requires start { path.old ≡ [] }
    ensures found { OnOk result (IsFound Q.order (Q.sought key) root.now path.new) }
    ensures gap { OnErr result (IsGap Q.order (Q.sought key) root.now path.new) }
    ensures room { IfErr result (λ gap. IsTrue gap.has_room ↔ (length (own_pairs (leaf_at path.new root.now)) < capacity)) }
    ensures path { path.new ≡ path_to Q.order (Q.sought key) root.now }
    ensures comparisons { count.new.comparisons ≡ count.old.comparisons + passed Q.order (Q.sought key) root.now }
    ensures bounded { (h : ℕ) → IsLevelled h root.now → count.new.comparisons ≤ count.old.comparisons + level_comparisons * (h + 1) }
    ensures moves { count.new.moves ≡ count.old.moves }
{
    match descend(root, key, path, count) {
        Ok(_holder) => Ok(()),
        Err(leaf) => {
            let has_room = leaf.len() < CAPACITY;
            Err(NotFound { has_room })
        }
    }
}

/// The pair in the tree at `root` whose key is equal to `key`, if there is one. It compares each key that it passes once, and
/// moves no pair.
pub fn get<'a, K: Ord, V, Q: Query<K>, A: Handle>(
    root: &'a Node<K, V, A>,
    key: Q,
    count: &mut Count,
) -> Option<&'a (K, V)>
    requires levels { IsTree root.now }
    requires order { IsAscending K.cmp (pairs_of root.now) }
    ensures value { option_copied result ≡ at Q.order (pairs_of root.now) (Q.sought key) }
    ensures comparisons { count.new.comparisons ≡ count.old.comparisons + passed Q.order (Q.sought key) root.now }
    ensures bounded { (h : ℕ) → IsLevelled h root.now → count.new.comparisons ≤ count.old.comparisons + level_comparisons * (h + 1) }
    ensures moves { count.new.moves ≡ count.old.moves }
{
    let mut node = root;
    'down: loop {
        match search_node(node, key, count) {
            Ok(i) => return Some(node.pair(i)),
            Err(gap) => {
                if node.is_leaf() {
                    return None;
                }
                node = node.child(gap);
            }
        }
    }
}
