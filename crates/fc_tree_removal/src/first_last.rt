//! The first or the last pair of a tree taken out, with the nodes above it rebalanced.
ghost use Rattle.std.specs.Prelude.{◌≡◌, ℕ, ◌+◌, ◌*◌, ◌<◌, ◌≤◌, [], ◌∷◌, ◌++◌, length};
ghost use Rattle.fc_base.specs.Sizes.{capacity, level_moves};
ghost use Rattle.fc_tree_node.specs.Blocks.{blocks_of, blocks_in};
ghost use Rattle.fc_tree_node.specs.Node.{own_pairs, pairs_of, IsSoundRoot};
ghost use Rattle.fc_tree_node.specs.Tree.{entries};
ghost use Rattle.fc_tree_removal.specs.Fewest.{fewest_moves, HasFewestMoves};
ghost use Rattle.fc_tree_removal.specs.Removal.{IsSoundTree, IsTreeLeft};
ghost use Rattle.fc_tree_node.specs.Shrunk.{IsShrunk};

use crate::removal::{rebalance_child, remove_first, take_empty_root};
use fc_base::{Count, Handle};
use fc_tree_node::lend::child_in;
use fc_tree_node::node::Node;

/// Takes the first pair out of the tree, of which nothing is left where that was the only pair. It compares nothing and takes no memory.
pub fn take_first<K: Drop, V: Drop, A: Handle>(
    tree: &mut Option<Node<K, V, A>>,
    count: &mut Count,
) -> (K, V)
    requires { (h : ℕ) × IsSoundTree h tree.old }
    ensures pairs { entries tree.old ≡ result ∷ entries tree.new }

    // The tree is as high as before or one level lower.
    ensures levels { (h : ℕ) → IsSoundTree h tree.old → IsTreeLeft h tree.new }
    ensures moves { (h : ℕ) → IsSoundTree h tree.old → count.new.moves ≤ count.old.moves + level_moves * (h + 1) }
    ensures moved { count.old.moves < count.new.moves }
    ensures fewest { HasFewestMoves tree.old tree.new count.old count.new }
    ensures comparisons { count.new.comparisons ≡ count.old.comparisons }
    ensures blocks { blocks_in tree.new ≤ blocks_in tree.old }
{
    let Some(root) = tree else { unreachable!() };
    let node: &mut Node<K, V, A> = root;
    let pair = remove_first(node, count);
    if node.len() > 0 {
        return pair;
    }
    take_empty_root(tree);
    pair
}

/// Takes the last pair out of the tree, of which nothing is left where that was the only pair. It compares nothing and takes no memory.
pub fn take_last<K: Drop, V: Drop, A: Handle>(
    tree: &mut Option<Node<K, V, A>>,
    count: &mut Count,
) -> (K, V)
    requires { (h : ℕ) × IsSoundTree h tree.old }
    ensures pairs { entries tree.old ≡ entries tree.new ++ result ∷ [] }

    // The tree is as high as before or one level lower.
    ensures levels { (h : ℕ) → IsSoundTree h tree.old → IsTreeLeft h tree.new }
    ensures moves { (h : ℕ) → IsSoundTree h tree.old → count.new.moves ≤ count.old.moves + level_moves * (h + 1) }
    ensures moved { count.old.moves < count.new.moves }
    ensures fewest { HasFewestMoves tree.old tree.new count.old count.new }
    ensures comparisons { count.new.comparisons ≡ count.old.comparisons }
    ensures blocks { blocks_in tree.new ≤ blocks_in tree.old }
{
    let Some(root) = tree else { unreachable!() };
    let node: &mut Node<K, V, A> = root;
    let pair = remove_last(node, count);
    if node.len() > 0 {
        return pair;
    }
    take_empty_root(tree);
    pair
}

/// Takes the last pair in the node or below it out. The levels below the node stay, and the node itself may lose a pair.
pub fn remove_last<K: Drop, V: Drop, A: Handle>(
    node: &mut Node<K, V, A>,
    count: &mut Count,
) -> (K, V)
    requires sound { (h : ℕ) × IsSoundRoot h node.old }
    ensures pairs { pairs_of node.old ≡ pairs_of node.new ++ result ∷ [] }
    ensures levels { (h : ℕ) → IsSoundRoot h node.old → IsShrunk h node.old node.new }
    ensures moves { (h : ℕ) → IsSoundRoot h node.old → count.new.moves ≤ count.old.moves + (capacity + level_moves * h) }
    ensures moved { count.old.moves < count.new.moves }
    ensures fewest { (h : ℕ) → IsSoundRoot h node.old → length (own_pairs node.new) < length (own_pairs node.old) → count.old.moves + fewest_moves h ≤ count.new.moves }
    ensures comparisons { count.new.comparisons ≡ count.old.comparisons }
    ensures blocks { blocks_of node.new ≤ blocks_of node.old }
{
    let end = node.len();
    if node.is_leaf() {
        return node.remove_leaf(end - 1, count);
    }
    let pair = remove_last(child_in(&mut node.children, end), count);
    rebalance_child(node, end, count);
    pair
}
