//! Insertion at a path, with the nodes that were made ahead for it.
ghost use Rattle.std.specs.Prelude.{◌≡◌, ◌+◌, ◌-◌, ◌*◌, ◌<◌, ◌≤◌, [], ◌∷◌, ◌++◌, length, insert, MatchOption, IfSome, IfOk, IfErr, IsTrue, IsFalse, Some};
ghost use Rattle.fc_base.specs.Sizes.{capacity, most_levels, level_moves, most_split_moves};
ghost use Rattle.fc_tree_node.specs.Node.{own_pairs, children_of, pairs_of, IsLeaf, IsInner, IsLevelled, IsSoundRoot, IsEmptyLeaf, IsEmptyInner};
ghost use Rattle.fc_tree_node.specs.Path.{IsPath, before_gap, after_gap};
ghost use Rattle.fc_tree_node.specs.Blocks.{blocks_of};
ghost use Rattle.fc_tree_insertion.specs.Cascade.{all_full, cascade, nodes_needed, requests_for, insertion_moves, IsSpareLeaf};
ghost use Rattle.fc_tree_insertion.specs.Insertion.{spread, own_pairs_after, children_after, blocks_after, IsHalved};
ghost use Rattle.fc_tree_node.specs.Split.{left_length, split_moves};
ghost use Rattle.fc_tree_insertion.specs.NewPair.{steps_after, path_after, IsPutAt, IsLedToNewPair};

use crate::new_nodes::NewNodes;
use crate::spares::Spares;
use crate::steps_to_new_pair::lead_to_new_pair;
use fc_base::{Asked, Count, Handle, TryReserveError};
use fc_tree_node::lend::child_in;
use fc_tree_node::node::{CAPACITY, Node};
use fc_tree_node::path::Path;
use std::mem;

/// Puts `pair` into the gap that the path leads to. Each node that this takes is in `new_nodes`, so nothing can be refused once
/// the first pair moves. The path then leads to the pair in the tree as it is now.
pub fn insert<K: Drop, V: Drop, A: Handle>(
    root: &mut Node<K, V, A>,
    path: &mut Path,
    pair: (K, V),
    new_nodes: NewNodes<K, V, A>,
    count: &mut Count,
)
    requires some { 0 < length path.old }
    requires short { steps_after path.old root.old ≤ most_levels }
    requires path { IsPath path.old root.old }
    requires sound { IsSoundRoot (length path.old - 1) root.old }
    requires new_nodes { new_nodes ≡ nodes_needed path.old root.old }

    // The pairs before the gap, the new pair and the pairs after the gap.
    ensures pairs { pairs_of root.new ≡ before_gap path.old root.old ++ pair ∷ after_gap path.old root.old }

    // The path leads to the new pair, with the pairs that were before the gap before it and those after the gap after it.
    ensures place { IsPutAt path.new root.new pair (before_gap path.old root.old) (after_gap path.old root.old) }

    // The tree is as high as before, unless each node of the path was full: then a new root stands above it, with one pair.
    ensures same_height { IsFalse (all_full path.old root.old) → IsSoundRoot (length path.old - 1) root.new }
    ensures higher { IsTrue (all_full path.old root.old) → IsSoundRoot (length path.old) root.new × (length (own_pairs root.new) ≡ 1) }
    ensures blocks { blocks_of root.new ≡ blocks_of root.old + requests_for (nodes_needed path.old root.old) }
    ensures comparisons { count.new.comparisons ≡ count.old.comparisons }
    ensures moves { count.new.moves ≤ count.old.moves + insertion_moves path.old root.old }
    ensures few_moves { count.new.moves ≤ count.old.moves + level_moves * length path.old }
    ensures moved { count.old.moves < count.new.moves }
{
    let nodes = new_nodes.len();
    let NewNodes { leaf, mut inner } = new_nodes;
    insert_with(root, path.as_slice(), pair, leaf, &mut inner, count);
    lead_to_new_pair(path, nodes);
}

// Inserts with the nodes made ahead, and uses up all of them.
fn insert_with<K: Drop, V: Drop, A: Handle>(
    root: &mut Node<K, V, A>,
    path: &[u8],
    pair: (K, V),
    leaf: Option<Node<K, V, A>>,
    inner: &mut Spares<K, V, A>,
    count: &mut Count,
)
    requires some { 0 < length path.now }
    requires path { IsPath path.now root.old }
    requires sound { IsSoundRoot (length path.now - 1) root.old }
    requires leaf { IsSpareLeaf leaf (cascade path.now root.old) }
    requires inner { inner.old ≡ nodes_needed path.now root.old - 1 }
    ensures used_up { inner.new ≡ 0 }
    ensures pairs { pairs_of root.new ≡ before_gap path.now root.old ++ pair ∷ after_gap path.now root.old }
    ensures place { IsPutAt (path_after (nodes_needed path.now root.old) path.now) root.new pair (before_gap path.now root.old) (after_gap path.now root.old) }
    ensures same_height { IsFalse (all_full path.now root.old) → IsSoundRoot (length path.now - 1) root.new }
    ensures higher { IsTrue (all_full path.now root.old) → IsSoundRoot (length path.now) root.new × (length (own_pairs root.new) ≡ 1) }
    ensures blocks { blocks_of root.new ≡ blocks_of root.old + requests_for (nodes_needed path.now root.old) }
    ensures comparisons { count.new.comparisons ≡ count.old.comparisons }
    ensures moves { count.new.moves ≤ count.old.moves + insertion_moves path.now root.old }
    ensures few_moves { count.new.moves ≤ count.old.moves + level_moves * length path.now }
    ensures moved { count.old.moves < count.new.moves }
{
    match insert_below(root, path, pair, leaf, inner, count) {
        None => {}
        Some((up, right)) => {
            let empty = inner.take();
            grow(root, up, right, empty, count);
        }
    }
}

/// Puts a new root above the root and the node on its right, with the pair between them.
pub fn grow<K: Drop, V: Drop, A: Handle>(
    root: &mut Node<K, V, A>,
    pair: (K, V),
    right: Node<K, V, A>,
    empty: Node<K, V, A>,
    count: &mut Count,
)
    requires { IsEmptyInner empty }
    ensures pairs { own_pairs root.new ≡ pair ∷ [] }
    ensures children { children_of root.new ≡ root.old ∷ right ∷ [] }
    ensures comparisons { count.new.comparisons ≡ count.old.comparisons }
    ensures moves { count.new.moves ≡ count.old.moves + 1 }
{
    let left = mem::replace(root, empty);
    let Node { pairs, children } = root;
    let Some(children) = children else {
        unreachable!()
    };
    pairs.insert(0, pair, count);
    children.insert(0, left);
    children.insert(1, right);
}

// Puts `pair` into the gap below the node. A full node is halved: it hands out the pair in its middle and a node of those
// after it.
fn insert_below<K: Drop, V: Drop, A: Handle>(
    node: &mut Node<K, V, A>,
    path: &[u8],
    pair: (K, V),
    leaf: Option<Node<K, V, A>>,
    inner: &mut Spares<K, V, A>,
    count: &mut Count,
) -> Option<((K, V), Node<K, V, A>)>
    requires some { 0 < length path.now }
    requires path { IsPath path.now node.old }
    requires levels { IsLevelled (length path.now - 1) node.old }
    requires leaf { IsSpareLeaf leaf (cascade path.now node.old) }
    requires inner { cascade path.now node.old ≤ inner.old + 1 }

    // The pairs are those that were before the gap, the new pair and those that were after it.
    ensures pairs { spread node.new result ≡ before_gap path.now node.old ++ pair ∷ after_gap path.now node.old }

    // The new pair stands where the path leads it, in the node or in the one that is handed out.
    ensures led { IsLedToNewPair path.now node.old node.new result }

    // The levels are as before, in each half of a node that was full.
    ensures levels { IsLevelled (length path.now - 1) node.new × IfSome result (λ s. IsLevelled (length path.now - 1) s.1) }
    ensures size { MatchOption result (length (own_pairs node.old) ≤ length (own_pairs node.new)) (λ s. IsHalved node.new × IsHalved s.1) }

    // The node is halved where all of the path was full, and an inner node is used for each that was halved above the leaf.
    ensures halved { MatchOption result (cascade path.now node.old < length path.now) (λ _. cascade path.now node.old ≡ length path.now) }
    ensures used { inner.new + (cascade path.now node.old - 1) ≡ inner.old }

    // The blocks that nodes made ahead have are the tree's now.
    ensures blocks { blocks_after node.new result ≡ blocks_of node.old + requests_for (cascade path.now node.old) }
    ensures comparisons { count.new.comparisons ≡ count.old.comparisons }
    ensures moves { MatchOption result (count.new.moves ≤ count.old.moves + most_split_moves * cascade path.now node.old + capacity) (λ _. count.new.moves ≤ count.old.moves + most_split_moves * cascade path.now node.old) }
    ensures moved { count.old.moves < count.new.moves }
{
    let i = path[0] as usize;
    if path.len() == 1 {
        return put_leaf(node, i, pair, leaf, count);
    }
    let child = child_in(&mut node.children, i);
    let below = insert_below(child, &path[1..], pair, leaf, inner, count);
    match below {
        None => None,
        Some((up, right)) => put_inner(node, i, up, right, inner, count),
    }
}

// Puts `pair` into a leaf, which is halved with the spare leaf where it is full.
fn put_leaf<K: Drop, V: Drop, A: Handle>(
    node: &mut Node<K, V, A>,
    i: usize,
    pair: (K, V),
    spare: Option<Node<K, V, A>>,
    count: &mut Count,
) -> Option<((K, V), Node<K, V, A>)>
    requires in_bounds { i ≤ length (own_pairs node.old) }
    requires leaf { IsLeaf node.old }
    requires spare { MatchOption spare (length (own_pairs node.old) < capacity) (λ b. (length (own_pairs node.old) ≡ capacity) × IsEmptyLeaf b) }
    ensures pairs { own_pairs_after node.new result ≡ insert (own_pairs node.old) i pair }
    ensures leaf { IsLeaf node.new × IfSome result (λ s. IsLeaf s.1) }
    ensures size { MatchOption result (length (own_pairs node.new) ≤ capacity) (λ s. IsHalved node.new × IsHalved s.1) }
    ensures halved { MatchOption result (length (own_pairs node.old) < capacity) (λ _. length (own_pairs node.old) ≡ capacity) }
    ensures left { IfSome result (λ _. length (own_pairs node.new) ≡ left_length i) }
    ensures comparisons { count.new.comparisons ≡ count.old.comparisons }
    ensures moves { MatchOption result (count.new.moves ≤ count.old.moves + capacity) (λ _. count.new.moves ≤ count.old.moves + most_split_moves) }
    ensures exact { MatchOption result (count.new.moves ≡ count.old.moves + (length (own_pairs node.old) - i + 1)) (λ _. count.new.moves ≡ count.old.moves + split_moves i) }
{
    match spare {
        None => {
            node.insert_leaf(i, pair, count);
            None
        }
        Some(right) => Some(node.split_leaf(i, pair, right, count)),
    }
}

/// Puts `pair` into an inner node with the child on its right. The node is halved with one of the spare nodes where it is full. It is
/// inlined, since an insertion that splits would pay for a call at each node above the leaf.
#[inline(always)]
pub fn put_inner<K: Drop, V: Drop, A: Handle>(
    node: &mut Node<K, V, A>,
    i: usize,
    pair: (K, V),
    child: Node<K, V, A>,
    spares: &mut Spares<K, V, A>,
    count: &mut Count,
) -> Option<((K, V), Node<K, V, A>)>
    requires in_bounds { i ≤ length (own_pairs node.old) }
    requires inner { IsInner node.old }
    requires some { length (own_pairs node.old) ≡ capacity → 0 < spares.old }
    ensures pairs { own_pairs_after node.new result ≡ insert (own_pairs node.old) i pair }
    ensures children { children_after node.new result ≡ insert (children_of node.old) (i + 1) child }
    ensures inner { IsInner node.new × IfSome result (λ s. IsInner s.1) }
    ensures size { MatchOption result (length (own_pairs node.new) ≤ capacity) (λ s. IsHalved node.new × IsHalved s.1) }
    ensures halved { MatchOption result (length (own_pairs node.old) < capacity) (λ _. length (own_pairs node.old) ≡ capacity) }
    ensures left { IfSome result (λ _. length (own_pairs node.new) ≡ left_length i) }
    ensures used { MatchOption result (spares.new ≡ spares.old) (λ _. spares.new + 1 ≡ spares.old) }
    ensures comparisons { count.new.comparisons ≡ count.old.comparisons }
    ensures moves { MatchOption result (count.new.moves ≤ count.old.moves + capacity) (λ _. count.new.moves ≤ count.old.moves + most_split_moves) }
    ensures exact { MatchOption result (count.new.moves ≡ count.old.moves + (length (own_pairs node.old) - i + 1)) (λ _. count.new.moves ≡ count.old.moves + split_moves i) }
{
    if node.len() < CAPACITY {
        node.insert_inner(i, pair, child, count);
        return None;
    }
    let right = spares.take();
    Some(node.split_inner(i, pair, child, right, count))
}

/// The root of a tree of one pair: a leaf.
///
/// # Errors
/// `AllocError` if the leaf is refused. The pair then comes back.
pub fn first_leaf<K: Drop, V: Drop, A: Handle>(
    alloc: A,
    pair: (K, V),
    count: &mut Count,
    asked: &mut Asked,
) -> Result<Node<K, V, A>, (K, V, TryReserveError)>
    ensures pairs { IfOk result (λ root. pairs_of root ≡ pair ∷ []) }
    ensures sound { IfOk result (λ root. IsSoundRoot 0 root) }
    ensures blocks { IfOk result (λ root. blocks_of root ≡ 1) }
    ensures back { IfErr result (λ e. (e.0, e.1) ≡ pair) }
    ensures error { IfErr result (λ e. e.2 ≡ TryReserveError.AllocError) }
    ensures comparisons { count.new.comparisons ≡ count.old.comparisons }
    ensures moves { IfOk result (λ _. count.new.moves ≡ count.old.moves + 1) }
    ensures no_move { IfErr result (λ _. count.new.moves ≡ count.old.moves) }
    ensures requests { asked.new.requests ≡ asked.old.requests + 1 }
{
    match Node::try_leaf(alloc, asked) {
        Ok(mut root) => {
            root.insert_leaf(0, pair, count);
            Ok(root)
        }
        Err(e) => Err((pair.0, pair.1, e)),
    }
}
