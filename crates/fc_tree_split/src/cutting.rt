//! Cuts of a tree in two, along a path.
ghost use Rattle.std.specs.Prelude.{◌≡◌, ℕ, ◌+◌, ◌*◌, ◌<◌, ◌≤◌, [], ◌++◌, length, Some, IfOk, IfErr, OnOk, IsTrue, ◌↔◌, slice_index};
ghost use Rattle.fc_tree_node.specs.Blocks.{blocks_of, blocks_in};
ghost use Rattle.fc_tree_node.specs.Measures.{height_of};
ghost use Rattle.fc_tree_node.specs.Node.{own_pairs, children_of, pairs_of, IsLevelled, IsSoundRoot};
ghost use Rattle.fc_tree_node.specs.Path.{IsPath, after_gap};
ghost use Rattle.fc_tree_node.specs.Place.{before_pair};
ghost use Rattle.fc_tree_node.specs.Tree.{entries, IsSoundMap, IsSoundWithin};
ghost use Rattle.fc_tree_node.specs.Bordered.{IsLeftBordered, IsRightBordered};
ghost use Rattle.fc_tree_split.specs.Cut.{IsEmpty, IsCutPath, IsCutPathIn, IsCutInTwo, border_requests};

use crate::counting::count_in;
use crate::rebalancing::{rebalance_left, rebalance_right};
use fc_base::{Asked, Count, Handle, TryReserveError};
use fc_tree_node::lend::child_in;
use fc_tree_node::node::Node;

/// Cuts a tree of `len` pairs in two, as `try_split` does, and answers the right part with the number of its pairs. Only the part
/// that seems to be the smaller is counted, node by node.
///
/// # Errors
/// As `try_split`.
pub fn try_split_counted<K: Drop, V: Drop, A: Handle>(
    alloc: A,
    root: &mut Option<Node<K, V, A>>,
    len: usize,
    path: &[u8],
    asked: &mut Asked,
) -> Result<(Option<Node<K, V, A>>, usize), TryReserveError>
    requires sound { IsSoundMap root.old }
    requires path { IsCutPathIn path.now root.old }
    requires len { len ≡ length (entries root.old) }
    ensures cut { IfOk result (λ right. IsCutInTwo path.now root.old root.new right.0) }

    // The two parts are the whole, and each has the pairs that it is said to have.
    ensures parts { IfOk result (λ right. entries root.new ++ entries right.0 ≡ entries root.old) }
    ensures moved { IfOk result (λ right. right.1 ≡ length (entries right.0)) }
    ensures kept { IfOk result (λ right. length (entries root.new) + right.1 ≡ len) }
    ensures sound { IfOk result (λ right. IsSoundMap root.new × IsSoundMap right.0) }
    ensures error { IfErr result (λ e. e ≡ TryReserveError.AllocError) }
    ensures unchanged { IfErr result (λ _. root.new ≡ root.old) }
    ensures requests { OnOk result (asked.new.requests ≡ asked.old.requests + border_requests root.old) }
    ensures at_most { asked.new.requests ≤ asked.old.requests + border_requests root.old }
    ensures blocks { IfOk result (λ right. blocks_in root.new + blocks_in right.0 ≤ blocks_in root.old + border_requests root.old) }
{
    let Some(tree) = &*root else { unreachable!() };
    let is_left_smaller = is_left_smaller(tree, path);
    let right = try_split(alloc, root, path, asked)?;
    let moved = if is_left_smaller {
        len - count_in(root)
    } else {
        count_in(&right)
    };
    Ok((right, moved))
}

/// Cuts a tree in two at the pair, or at the gap of a leaf, that the path leads to: `root` keeps the pairs before it, and the
/// answer takes the pair and those after it. It asks for one node a level, before a pair moves.
///
/// # Errors
/// `AllocError` if one of these nodes is refused. The tree is then as before.
pub fn try_split<K: Drop, V: Drop, A: Handle>(
    alloc: A,
    root: &mut Option<Node<K, V, A>>,
    path: &[u8],
    asked: &mut Asked,
) -> Result<Option<Node<K, V, A>>, TryReserveError>
    requires sound { IsSoundMap root.old }
    requires path { IsCutPathIn path.now root.old }
    ensures pairs { IfOk result (λ right. IsCutInTwo path.now root.old root.new right) }
    ensures sound { IfOk result (λ right. IsSoundMap root.new × IsSoundMap right) }
    ensures error { IfErr result (λ e. (e ≡ TryReserveError.AllocError) × (root.new ≡ root.old)) }
    ensures requests { OnOk result (asked.new.requests ≡ asked.old.requests + border_requests root.old) }
    ensures at_most { asked.new.requests ≤ asked.old.requests + border_requests root.old }
    ensures blocks { IfOk result (λ right. blocks_in root.new + blocks_in right ≤ blocks_in root.old + border_requests root.old) }
{
    let Some(whole) = &*root else { unreachable!() };
    let border = try_border(alloc, whole, asked)?;
    let Some(whole) = root.take() else {
        unreachable!()
    };
    let (left, right) = cut(whole, path, border);
    *root = left;
    Ok(right)
}

/// Makes the border of the right part of a tree before it is cut: a node without pairs for each level of the tree, each the
/// only child of the one above it.
///
/// # Errors
/// `AllocError` if one is refused. Those made before are dropped.
pub fn try_border<K: Drop, V: Drop, A: Handle>(
    alloc: A,
    node: &Node<K, V, A>,
    asked: &mut Asked,
) -> Result<Node<K, V, A>, TryReserveError>
    requires { (h : ℕ) × IsLevelled h node.now }
    ensures ok { IfOk result (λ top. (h : ℕ) → IsLevelled h node.now → IsEmpty h top) }
    ensures error { IfErr result (λ e. e ≡ TryReserveError.AllocError) }
    ensures requests { OnOk result (asked.new.requests ≡ asked.old.requests + (2 * height_of node.now + 1)) }
    ensures at_most { asked.new.requests ≤ asked.old.requests + (2 * height_of node.now + 1) }
    ensures blocks { IfOk result (λ top. blocks_of top ≡ 2 * height_of node.now + 1) }
{
    if node.is_leaf() {
        return Node::try_leaf(alloc, asked);
    }
    let below = try_border(alloc, node.child(0), asked)?;
    let mut top = Node::try_inner(alloc, asked)?;
    top.adopt(below);
    Ok(top)
}

/// Cuts a tree in two at the pair, or at the gap of a leaf, that the path leads to: into the pairs before it, and the pair with
/// those after it. What the path doesn't touch stays as it is, and `border` becomes the border of the right part. It
/// takes no memory.
pub fn cut<K: Drop, V: Drop, A: Handle>(
    root: Node<K, V, A>,
    path: &[u8],
    border: Node<K, V, A>,
) -> (Option<Node<K, V, A>>, Option<Node<K, V, A>>)
    requires levels { (h : ℕ) × IsLevelled h root }
    requires path { IsCutPath path.now root }
    requires border { (h : ℕ) → IsLevelled h root → IsEmpty h border }
    ensures pairs { IsCutInTwo path.now (Some root) result.0 result.1 }
    ensures levels { (h : ℕ) → IsLevelled h root → IsSoundWithin h result.0 × IsSoundWithin h result.1 }
    ensures blocks { blocks_in result.0 + blocks_in result.1 ≤ blocks_of root + blocks_of border }
{
    let mut left = root;
    let mut right = border;
    cut_into(&mut left, path, &mut right, &mut Count::new());
    (rebalance_right(left), rebalance_left(right))
}

// Moves the pairs from the place on to the nodes of the border, level by level.
fn cut_into<K: Drop, V: Drop, A: Handle>(
    node: &mut Node<K, V, A>,
    path: &[u8],
    right: &mut Node<K, V, A>,
    count: &mut Count,
)
    requires some { 0 < length path.now }
    requires path { IsPath path.now node.old }
    requires levels { (h : ℕ) × (length path.now ≤ h + 1) × IsLevelled h node.old × IsEmpty h right.old }
    ensures front { pairs_of node.new ≡ before_pair path.now node.old }
    ensures back { pairs_of right.new ≡ after_gap path.now node.old }
    ensures front_levels { (h : ℕ) → IsLevelled h node.old → IsEmpty h right.old → IsRightBordered h node.new }
    ensures back_levels { (h : ℕ) → IsLevelled h node.old → IsEmpty h right.old → IsLeftBordered h right.new }
    ensures blocks { blocks_of node.new + blocks_of right.new ≡ blocks_of node.old + blocks_of right.old }
{
    let i = path[0] as usize;
    node.move_suffix(i, right, count);
    if path.len() == 1 {
        return;
    }
    let rest = &path[1..];
    let child = child_in(&mut node.children, i);
    let other = child_in(&mut right.children, 0);
    cut_into(child, rest, other, count);
}

// A guess which part of a cut is the smaller, from the first step of the path alone: whether it is in the left half of the root.
fn is_left_smaller<K, V, A: Handle>(root: &Node<K, V, A>, path: &[u8]) -> bool
    requires some { 0 < length path.now }
    ensures { IsTrue result ↔ (2 * slice_index path.now 0 < length (own_pairs root.now)) }
{
    2 * (path[0] as usize) < root.len()
}
