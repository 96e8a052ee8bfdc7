//! Insertion into a leaf that has room, by which no other node changes.
ghost use Rattle.std.specs.Prelude.{◌≡◌, ◌+◌, ◌-◌, ◌<◌, ◌≤◌, ◌∷◌, ◌++◌, ◌↔◌, length, IsTrue};
ghost use Rattle.fc_base.specs.Sizes.{capacity};
ghost use Rattle.fc_tree_node.specs.Blocks.{blocks_of};
ghost use Rattle.fc_tree_node.specs.Node.{own_pairs, pairs_of, IsLevelled};
ghost use Rattle.fc_tree_node.specs.Path.{IsPath, before_gap, after_gap};
ghost use Rattle.fc_tree_insertion.specs.NewPair.{IsPutAt};
ghost use Rattle.fc_tree_insertion.specs.Cascade.{leaf_at};

use fc_base::{Count, Handle};
use fc_tree_node::descent::pairs_mut;
use fc_tree_node::lend::child_in;
use fc_tree_node::node::{CAPACITY, Node};
use fc_tree_node::path::MAX_STEPS;

/// Whether the leaf that the path ends in has room for a pair.
pub fn has_room<K, V, A: Handle>(node: &Node<K, V, A>, path: &[u8]) -> bool
    requires some { 0 < length path.now }
    requires path { IsPath path.now node.now }
    requires levels { IsLevelled (length path.now - 1) node.now }
    ensures { IsTrue result ↔ (length (own_pairs (leaf_at path.now node.now)) < capacity) }
{
    if path.len() == 1 {
        return node.len() < CAPACITY;
    }
    has_room(node.child(path[0] as usize), &path[1..])
}

/// Puts `pair` into the gap that the path leads to, whose leaf has room. The path then leads to the pair.
pub fn insert_in_leaf<K: Drop, V: Drop, A: Handle>(
    node: &mut Node<K, V, A>,
    path: &[u8],
    pair: (K, V),
    count: &mut Count,
)
    requires some { 0 < length path.now }
    requires path { IsPath path.now node.old }
    requires levels { IsLevelled (length path.now - 1) node.old }
    requires room { length (own_pairs (leaf_at path.now node.old)) < capacity }

    // The pairs before the gap, the new pair and the pairs after the gap.
    ensures pairs { pairs_of node.new ≡ before_gap path.now node.old ++ pair ∷ after_gap path.now node.old }
    ensures place { IsPutAt path.now node.new pair (before_gap path.now node.old) (after_gap path.now node.old) }

    // The levels are as before.
    ensures levels { IsLevelled (length path.now - 1) node.new }
    ensures size { length (own_pairs node.old) ≤ length (own_pairs node.new) }
    ensures blocks { blocks_of node.new ≡ blocks_of node.old }
    ensures comparisons { count.new.comparisons ≡ count.old.comparisons }
    ensures moves { count.new.moves ≤ count.old.moves + capacity }
    ensures moved { count.old.moves < count.new.moves }
{
    // No map has such a path: over so many levels the pairs of a leaf can't be lent.
    if path.len() > MAX_STEPS {
        let child = child_in(&mut node.children, path[0] as usize);
        return insert_in_leaf(child, &path[1..], pair, count);
    }
    let last = path.len() - 1;
    let i = path[last] as usize;
    pairs_mut(node, &path[..last]).insert(i, pair, count);
}
