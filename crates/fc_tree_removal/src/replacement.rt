//! A pair put in the place of another one, by which no other pair moves.
ghost use Rattle.std.specs.Prelude.{◌≡◌, ℕ, ◌+◌, ◌<◌, [], ◌∷◌, ◌++◌, length, Some};
ghost use Rattle.fc_tree_node.specs.Depth.{HasFewMoves};
ghost use Rattle.fc_tree_node.specs.Blocks.{blocks_of};
ghost use Rattle.fc_tree_node.specs.Node.{own_pairs, pairs_of, IsLevelled};
ghost use Rattle.fc_tree_node.specs.Place.{IsPlace, place_pair, before_pair, after_pair};
ghost use Rattle.fc_tree_node.specs.Tree.{IsSoundMap};

use fc_base::{Count, Handle};
use fc_tree_node::lend::child_in;
use fc_tree_node::node::Node;
use fc_tree_node::path::Path;

/// Puts `pair` in the place of the one that the path leads to in a sound tree, which is handed out. It compares nothing and takes
/// no memory.
pub fn exchange<K: Drop, V: Drop, A: Handle>(
    root: &mut Node<K, V, A>,
    path: &Path,
    pair: (K, V),
    count: &mut Count,
) -> (K, V)
    requires sound { IsSoundMap (Some root.old) }
    requires place { IsPlace path.now root.old }
    ensures old { place_pair path.now root.old ≡ Some result }

    // The pairs before the place, the new pair and the pairs after the place.
    ensures pairs { pairs_of root.new ≡ before_pair path.now root.old ++ pair ∷ after_pair path.now root.old }
    ensures length { length (pairs_of root.new) ≡ length (pairs_of root.old) }
    ensures some { 0 < length (pairs_of root.new) }
    ensures sound { IsSoundMap (Some root.new) }
    ensures moves { HasFewMoves (length (pairs_of root.new)) count.old count.new }
    ensures exchanged { count.new.moves ≡ count.old.moves + 2 }
    ensures comparisons { count.new.comparisons ≡ count.old.comparisons }
    ensures blocks { blocks_of root.new ≡ blocks_of root.old }
{
    replace(root, path.as_slice(), pair, count)
}

/// Puts `pair` in the place of the one that the path leads to, which is handed out. It compares nothing and takes no memory.
pub fn replace<K: Drop, V: Drop, A: Handle>(
    node: &mut Node<K, V, A>,
    path: &[u8],
    pair: (K, V),
    count: &mut Count,
) -> (K, V)
    requires levels { (h : ℕ) × IsLevelled h node.old }
    requires place { IsPlace path.now node.old }
    ensures old { place_pair path.now node.old ≡ Some result }

    // The pairs before the place, the new pair and the pairs after the place.
    ensures pairs { pairs_of node.new ≡ before_pair path.now node.old ++ pair ∷ after_pair path.now node.old }

    // The levels are as before.
    ensures size { length (own_pairs node.new) ≡ length (own_pairs node.old) }
    ensures levels { (h : ℕ) → IsLevelled h node.old → IsLevelled h node.new }
    ensures moves { count.new.moves ≡ count.old.moves + 2 }
    ensures comparisons { count.new.comparisons ≡ count.old.comparisons }
    ensures blocks { blocks_of node.new ≡ blocks_of node.old }
{
    let i = path[0] as usize;
    if path.len() == 1 {
        return replace_own(node, i, pair, count);
    }
    replace(child_in(&mut node.children, i), &path[1..], pair, count)
}

// Puts `pair` in the place of the node's own pair at `index`.
fn replace_own<K: Drop, V: Drop, A: Handle>(
    node: &mut Node<K, V, A>,
    index: usize,
    pair: (K, V),
    count: &mut Count,
) -> (K, V)
    requires levels { (h : ℕ) × IsLevelled h node.old }
    requires place { IsPlace (index ∷ []) node.old }
    ensures old { place_pair (index ∷ []) node.old ≡ Some result }
    ensures pairs { pairs_of node.new ≡ before_pair (index ∷ []) node.old ++ pair ∷ after_pair (index ∷ []) node.old }
    ensures size { length (own_pairs node.new) ≡ length (own_pairs node.old) }
    ensures levels { (h : ℕ) → IsLevelled h node.old → IsLevelled h node.new }
    ensures moves { count.new.moves ≡ count.old.moves + 2 }
    ensures comparisons { count.new.comparisons ≡ count.old.comparisons }
    ensures blocks { blocks_of node.new ≡ blocks_of node.old }
{
    node.replace_pair(index, pair, count)
}
