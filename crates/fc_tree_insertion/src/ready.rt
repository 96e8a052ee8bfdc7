//! An insertion in two halves: its nodes are made, and then nothing refuses it.
ghost use Rattle.std.specs.Prelude.{◌≡◌, ℕ, ◌+◌, ◌<◌, ◌≤◌, [], ◌∷◌, ◌++◌, length, IfOk, IfErr, OnOk, OnErr, Some};
ghost use Rattle.fc_base.specs.Sizes.{capacity};
ghost use Rattle.fc_tree_node.specs.Node.{own_pairs, pairs_of, IsLevelled, IsSoundRoot, IsEmptyLeaf};
ghost use Rattle.fc_tree_node.specs.Depth.{HasFewMoves};
ghost use Rattle.fc_tree_node.specs.Path.{IsPath, before_gap, after_gap};
ghost use Rattle.fc_tree_node.specs.Tree.{IsSoundMap};
ghost use Rattle.fc_tree_node.specs.Blocks.{blocks_of};
ghost use Rattle.fc_tree_insertion.specs.NewPair.{IsPutAt};
ghost use Rattle.fc_tree_insertion.specs.Cascade.{leaf_at, nodes_needed, requests_for};

use crate::insertion::insert;
use crate::new_nodes::{NewNodes, try_new_nodes};
use crate::spares::Spares;
use fc_base::{Asked, Count, Handle, TryReserveError};
use fc_tree_node::node::Node;
use fc_tree_node::path::Path;

/// Makes the nodes that an insertion into a gap of a sound tree takes. The tree is only read.
///
/// # Errors
/// `AllocError` if one of these nodes is refused, which takes a full leaf.
#[inline(always)]
pub fn try_nodes_at<K: Drop, V: Drop, A: Handle>(
    alloc: A,
    root: &Node<K, V, A>,
    path: &Path,
    asked: &mut Asked,
) -> Result<NewNodes<K, V, A>, TryReserveError>
    requires sound { IsSoundMap (Some root.now) }
    requires path { IsPath path.now root.now }
    requires levels { (h : ℕ) → IsLevelled h root.now → length path.now ≡ h + 1 }
    ensures ok { IfOk result (λ made. made ≡ nodes_needed path.now root.now) }
    ensures error { IfErr result (λ e. e ≡ TryReserveError.AllocError) }
    ensures leaf { OnErr result (capacity ≤ length (pairs_of root.now)) }
    ensures full { OnErr result (length (own_pairs (leaf_at path.now root.now)) ≡ capacity) }
    ensures requests { IfOk result (λ _. asked.new.requests ≡ asked.old.requests + requests_for (nodes_needed path.now root.now)) }
    ensures at_most { asked.new.requests ≤ asked.old.requests + requests_for (nodes_needed path.now root.now) }
{
    try_new_nodes(alloc, root, path.as_slice(), asked)
}

/// Puts a pair into the gap of a sound tree that the path leads to, by the nodes that this takes. The path then leads to the pair.
#[inline(always)]
pub fn insert_ready<K: Drop, V: Drop, A: Handle>(
    root: &mut Node<K, V, A>,
    path: &mut Path,
    pair: (K, V),
    new_nodes: NewNodes<K, V, A>,
    count: &mut Count,
)
    requires sound { IsSoundMap (Some root.old) }
    requires path { IsPath path.old root.old }
    requires levels { (h : ℕ) → IsLevelled h root.old → length path.old ≡ h + 1 }
    requires fits { length (pairs_of root.old) < usize.MAX }
    requires new_nodes { new_nodes ≡ nodes_needed path.old root.old }

    // The pairs before the gap, the new pair and the pairs after the gap.
    ensures pairs { pairs_of root.new ≡ before_gap path.old root.old ++ pair ∷ after_gap path.old root.old }
    ensures place { IsPutAt path.new root.new pair (before_gap path.old root.old) (after_gap path.old root.old) }
    ensures length { length (pairs_of root.new) ≡ length (pairs_of root.old) + 1 }
    ensures sound { IsSoundMap (Some root.new) }
    ensures blocks { blocks_of root.new ≡ blocks_of root.old + requests_for (nodes_needed path.old root.old) }
    ensures comparisons { count.new.comparisons ≡ count.old.comparisons }
    ensures moves { HasFewMoves (length (pairs_of root.new)) count.old count.new }
    ensures moved { count.old.moves < count.new.moves }
{
    insert(root, path, pair, new_nodes, count);
}

/// Puts a pair into the gap of a sound tree that the path leads to, with every node that it takes made before. The path then leads
/// to the pair.
///
/// # Errors
/// `AllocError` if one of these nodes is refused, which takes a full leaf. The tree is then as before, and the pair comes back.
#[inline(always)]
pub fn try_insert<K: Drop, V: Drop, A: Handle>(
    alloc: A,
    root: &mut Node<K, V, A>,
    path: &mut Path,
    pair: (K, V),
    count: &mut Count,
    asked: &mut Asked,
) -> Result<(), (K, V, TryReserveError)>
    requires sound { IsSoundMap (Some root.old) }
    requires path { IsPath path.old root.old }
    requires levels { (h : ℕ) → IsLevelled h root.old → length path.old ≡ h + 1 }
    requires fits { length (pairs_of root.old) < usize.MAX }

    // The pairs before the gap, the new pair and the pairs after the gap.
    ensures pairs { OnOk result (pairs_of root.new ≡ before_gap path.old root.old ++ pair ∷ after_gap path.old root.old) }
    ensures place { OnOk result (IsPutAt path.new root.new pair (before_gap path.old root.old) (after_gap path.old root.old)) }
    ensures length { OnOk result (length (pairs_of root.new) ≡ length (pairs_of root.old) + 1) }
    ensures sound { IsSoundMap (Some root.new) }
    ensures blocks { OnOk result (blocks_of root.new ≡ blocks_of root.old + requests_for (nodes_needed path.old root.old)) }
    ensures unchanged { OnErr result (root.new ≡ root.old) }
    ensures back { IfErr result (λ e. (e.0 ≡ pair.0) × (e.1 ≡ pair.1)) }
    ensures error { IfErr result (λ e. e.2 ≡ TryReserveError.AllocError) }
    ensures leaf { OnErr result (capacity ≤ length (pairs_of root.old)) }
    ensures full { OnErr result (length (own_pairs (leaf_at path.old root.old)) ≡ capacity) }
    ensures comparisons { count.new.comparisons ≡ count.old.comparisons }
    ensures no_move { OnErr result (count.new.moves ≡ count.old.moves) }
    ensures moves { OnOk result (HasFewMoves (length (pairs_of root.new)) count.old count.new) }
    ensures moved { OnOk result (count.old.moves < count.new.moves) }
    ensures requests { OnOk result (asked.new.requests ≡ asked.old.requests + requests_for (nodes_needed path.old root.old)) }
    ensures at_most { asked.new.requests ≤ asked.old.requests + requests_for (nodes_needed path.old root.old) }
{
    match try_nodes_at(alloc, root, path, asked) {
        Ok(new_nodes) => {
            insert_ready(root, path, pair, new_nodes, count);
            Ok(())
        }
        Err(e) => Err((pair.0, pair.1, e)),
    }
}

/// Makes the one node that the first pair of a tree takes: a leaf.
///
/// # Errors
/// `AllocError` if it is refused.
pub fn try_first_node<K: Drop, V: Drop, A: Handle>(
    alloc: A,
    asked: &mut Asked,
) -> Result<NewNodes<K, V, A>, TryReserveError>
    ensures ok { IfOk result (λ made. made ≡ 1) }
    ensures error { IfErr result (λ e. e ≡ TryReserveError.AllocError) }
    ensures requests { asked.new.requests ≡ asked.old.requests + 1 }
{
    let leaf = Node::try_leaf(alloc, asked)?;
    Ok(NewNodes {
        leaf: Some(leaf),
        inner: Spares::new(),
    })
}

/// The root of a tree of one pair: the leaf that was made for it.
pub fn first_root<K: Drop, V: Drop, A: Handle>(
    pair: (K, V),
    new_nodes: NewNodes<K, V, A>,
    count: &mut Count,
) -> Node<K, V, A>
    requires { new_nodes ≡ 1 }
    ensures pairs { pairs_of result ≡ pair ∷ [] }
    ensures sound { IsSoundRoot 0 result }
    ensures comparisons { count.new.comparisons ≡ count.old.comparisons }
    ensures moves { count.new.moves ≡ count.old.moves + 1 }
{
    let mut root = new_leaf(new_nodes);
    root.insert_leaf(0, pair, count);
    root
}

// The leaf among the nodes that were made.
fn new_leaf<K: Drop, V: Drop, A: Handle>(new_nodes: NewNodes<K, V, A>) -> Node<K, V, A>
    requires { 0 < new_nodes }
    ensures { IsEmptyLeaf result }
{
    let NewNodes { leaf, inner: _ } = new_nodes;
    match leaf {
        Some(leaf) => leaf,
        None => unreachable!(),
    }
}
