//! Two trees made one where all pairs of one lie before those of the other: the shorter one is grafted on the taller one's border.
ghost use Rattle.std.specs.Prelude.{◌≡◌, ℕ, suc, ◌+◌, ◌*◌, ◌<◌, ◌≤◌, ◌∷◌, ◌++◌, length, None, IfOk, IfErr};
ghost use Rattle.fc_base.specs.Sizes.{most_levels, most_height};
ghost use Rattle.fc_tree_node.specs.Blocks.{blocks_of, blocks_in};
ghost use Rattle.fc_tree_node.specs.Node.{pairs_of, IsEmptyInner, IsLevelled, IsSoundRoot, IsTree};
ghost use Rattle.fc_tree_node.specs.Measures.{height_of};
ghost use Rattle.fc_tree_node.specs.Tree.{entries, IsSoundMap, IsSoundWithin};
ghost use Rattle.fc_tree_append.specs.Requests.{join_requests};

use crate::grafting::graft;
use fc_base::{Asked, Count, Handle, TryReserveError};
use fc_tree_insertion::insertion::grow;
use fc_tree_insertion::new_nodes::try_spares;
use fc_tree_insertion::spares::Spares;
use fc_tree_node::node::{CAPACITY, MIN_LEN, Node};
use fc_tree_removal::first_last::remove_last;
use fc_tree_removal::removal::remove_first;
use fc_tree_split::rebalancing::{Border, rebalance};

/// Puts the pairs of `theirs` after those of `ours`, in a few nodes of each level from the shorter tree's root up. It compares
/// nothing.
///
/// # Errors
/// `AllocError` if a node is refused: one is made for each of these levels, and one for a new root. Both are then as before.
pub(crate) fn try_join<K: Drop, V: Drop, A: Handle>(
    alloc: A,
    ours: &mut Option<Node<K, V, A>>,
    theirs: &mut Option<Node<K, V, A>>,
    asked: &mut Asked,
) -> Result<(), TryReserveError>
    requires sound { IsSoundMap ours.old × IsSoundMap theirs.old }
    requires some { (0 < length (entries ours.old)) × (0 < length (entries theirs.old)) }
    requires fits { length (entries ours.old) + length (entries theirs.old) ≤ usize.MAX }
    ensures pairs { IfOk result (λ _. entries ours.new ≡ entries ours.old ++ entries theirs.old) }
    ensures emptied { IfOk result (λ _. theirs.new ≡ None) }
    ensures sound { IfOk result (λ _. IsSoundMap ours.new) }
    ensures error { IfErr result (λ e. (e ≡ TryReserveError.AllocError) × (ours.new ≡ ours.old) × (theirs.new ≡ theirs.old)) }
    ensures requests { IfOk result (λ _. asked.new.requests ≡ asked.old.requests + join_requests ours.old theirs.old) }
    ensures at_most { asked.new.requests ≤ asked.old.requests + join_requests ours.old theirs.old }

    // No block stands that neither was there nor was asked for.
    ensures blocks { IfOk result (λ _. blocks_in ours.new + asked.old.requests ≤ blocks_in ours.old + blocks_in theirs.old + asked.new.requests) }
{
    let Some(left) = &*ours else { unreachable!() };
    let Some(right) = &*theirs else {
        unreachable!()
    };
    let our_height = height(left);
    let their_height = height(right);
    let spares = try_spares(alloc, our_height.abs_diff(their_height) + 1, asked)?;
    let Some(left) = ours.take() else {
        unreachable!()
    };
    let Some(right) = theirs.take() else {
        unreachable!()
    };
    *ours = join(left, our_height, right, their_height, spares);
    Ok(())
}

// How many levels lie below the node.
fn height<K, V, A: Handle>(node: &Node<K, V, A>) -> usize
    requires { IsTree node.now }
    ensures { result ≡ height_of node.now }
{
    if node.is_leaf() {
        return 0;
    }
    height(node.child(0)) + 1
}

// One tree of the pairs of two. The pair between them comes from the shorter one.
fn join<K: Drop, V: Drop, A: Handle>(
    left: Node<K, V, A>,
    our_height: usize,
    right: Node<K, V, A>,
    their_height: usize,
    spares: Spares<K, V, A>,
) -> Option<Node<K, V, A>>
    requires left { (our_height ≤ most_height) × IsSoundRoot our_height left }
    requires right { (their_height ≤ most_height) × IsSoundRoot their_height right }
    requires spares { (our_height + 1 ≤ spares + their_height) × (their_height + 1 ≤ spares + our_height) }
    ensures pairs { entries result ≡ pairs_of left ++ pairs_of right }
    ensures levels { IsSoundWithin most_levels result }
    ensures blocks { blocks_in result ≤ blocks_of left + blocks_of right + 2 * spares }
{
    let mut left = left;
    let mut right = right;
    if our_height < their_height {
        let pair = remove_last(&mut left, &mut Count::new());
        let levels = their_height - our_height;
        return graft(right, Border::Left, levels, pair, left, spares);
    }
    let pair = remove_first(&mut right, &mut Count::new());
    if our_height > their_height {
        let levels = our_height - their_height;
        return graft(left, Border::Right, levels, pair, right, spares);
    }
    let mut spares = spares;
    join_under_root(left, pair, right, spares.take())
}

// A tree of two others of one height, with the pair between them: both go below a new root, or become one node where they fit.
fn join_under_root<K: Drop, V: Drop, A: Handle>(
    left: Node<K, V, A>,
    pair: (K, V),
    right: Node<K, V, A>,
    empty: Node<K, V, A>,
) -> Option<Node<K, V, A>>
    requires levels { (h : ℕ) × IsLevelled h left × IsLevelled h right }
    requires empty { IsEmptyInner empty }
    ensures pairs { entries result ≡ pairs_of left ++ pair ∷ pairs_of right }
    ensures levels { (h : ℕ) → IsLevelled h left → IsLevelled h right → IsSoundWithin (suc h) result }
    ensures blocks { blocks_in result ≤ blocks_of left + blocks_of right + 2 }
{
    let count = &mut Count::new();
    let ours = left.len();
    let theirs = right.len();
    let mut root = left;
    grow(&mut root, pair, right, empty, count);
    if ours + theirs < CAPACITY {
        root.merge(0, count);
        return rebalance(root, Border::Right, count);
    }
    if ours < MIN_LEN {
        return rebalance(root, Border::Left, count);
    }
    rebalance(root, Border::Right, count)
}
