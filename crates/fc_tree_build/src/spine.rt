//! The right spine of a tree that grows at its right end.
ghost use Rattle.std.specs.Prelude.{◌≡◌, ℕ, suc, ◌+◌, ◌-◌, ◌*◌, ◌<◌, ◌≤◌, ◌↔◌, [], ◌∷◌, ◌++◌, length, map, IsTrue};
ghost use Rattle.std.specs.List.{AllByRecursion};
ghost use Rattle.fc_base.specs.Sizes.{capacity, most_children, most_height, most_levels};
ghost use Rattle.fc_tree_node.specs.Blocks.{blocks_of};
ghost use Rattle.fc_tree_node.specs.Measures.{total};
ghost use Rattle.fc_tree_node.specs.Node.{own_pairs, children_of, pairs_of, IsLeaf, IsSound, IsEmptyInner};
ghost use Rattle.fc_tree_node.specs.Bordered.{IsRightBordered};
ghost use Rattle.fc_tree_drain.specs.Opened.{before_back_in, before_back};
ghost use Rattle.fc_tree_build.specs.Spine.{IsLastPair, IsOpenEnd, IsSpine, level_above};
ghost use Rattle.fc_tree_build.specs.Spares.{own_count, worth, needed};

use crate::spares::take_spare;
use fc_base::{Count, Handle};
use fc_tree_drain::stack::Stack;
use fc_tree_node::node::{CAPACITY, Node};
use std::alloc::Global;

/// The nodes on the right edge of a tree, from the root down, each without its last child: that is the next one, or what comes
/// below the last of them.
pub type Spine<K, V, A: Handle = Global> = Stack<Node<K, V, A>>;

/// Puts a subtree at the spine's end, and the pair that comes after it: both go into the lowest node with room. The full nodes
/// below that one are closed, and empty ones take their places; where all are full there is a new root.
pub fn attach<K: Drop, V: Drop, A: Handle>(
    spine: &mut Spine<K, V, A>,
    subtree: Node<K, V, A>,
    pair: (K, V),
    spares: &mut Vec<Node<K, V, A>, A>,
)
    requires levels { (h : ℕ) × IsSpine h spine.old × IsSound h subtree }
    requires empty { AllByRecursion (λ b. IsEmptyInner b) spares.old.items }
    requires enough { needed spine.old ≤ length spares.old.items }
    requires low { (d : ℕ) × (d ≤ most_levels) × (length spine.old ≤ d) × (needed spine.old ≤ d) }
    ensures pairs { before_back spine.new ≡ before_back spine.old ++ (pairs_of subtree ++ pair ∷ []) }
    ensures levels { (h : ℕ) → IsSpine h spine.old → IsSound h subtree → IsSpine h spine.new }
    ensures empty { AllByRecursion (λ b. IsEmptyInner b) spares.new.items }
    ensures worth { worth spine.new ≡ worth spine.old + 1 }
    ensures left { capacity * (length spares.new.items + length spine.new) + own_count spine.old + 1 ≡ capacity * (length spares.old.items + length spine.old) + own_count spine.new }
    ensures used { length spares.old.items ≡ length spares.new.items + needed spine.old }
    ensures short { (d : ℕ) → length spine.old ≤ d → needed spine.old ≤ d → length spine.new ≤ d }

    // The blocks of the spares that it takes are the spine's now.
    ensures blocks { total (map blocks_of spine.new) + 2 * length spares.new.items ≡ total (map blocks_of spine.old) + 2 * length spares.old.items + blocks_of subtree }
{
    let mut node = open_end(spine, spares);
    put_child(&mut node, subtree);
    if node.len() < CAPACITY {
        put_pair(&mut node, pair);
        spine.push(node);
        return;
    }
    attach(spine, node, pair, spares);
    spine.push(take_spare(spares));
}

/// The same where the spine's last node has room.
pub(crate) fn put_in_room<K: Drop, V: Drop, A: Handle>(
    spine: &mut Spine<K, V, A>,
    subtree: Node<K, V, A>,
    pair: (K, V),
)
    requires levels { IsSpine 0 spine.old × IsSound 0 subtree }
    requires room { needed spine.old ≡ 0 }
    requires low { length spine.old ≤ most_height }
    ensures pairs { before_back spine.new ≡ before_back spine.old ++ (pairs_of subtree ++ pair ∷ []) }
    ensures levels { IsSpine 0 spine.new }
    ensures length { length spine.new ≡ length spine.old }
    ensures blocks { total (map blocks_of spine.new) ≡ total (map blocks_of spine.old) + blocks_of subtree }
    ensures worth { worth spine.new ≡ worth spine.old + 1 }
{
    let mut node = spine.pop();
    put_child(&mut node, subtree);
    put_pair(&mut node, pair);
    spine.push(node);
}

/// The tree with the spine on its right edge and `last` below it.
pub fn close<K: Drop, V: Drop, A: Handle>(
    spine: &mut Spine<K, V, A>,
    last: Node<K, V, A>,
) -> Node<K, V, A>
    requires levels { (h : ℕ) × IsSpine h spine.old × IsRightBordered h last }
    ensures pairs { pairs_of result ≡ before_back spine.old ++ pairs_of last }
    ensures levels { (h : ℕ) → IsSpine h spine.old → IsRightBordered h last → IsRightBordered (level_above h spine.old) result }
    ensures blocks { blocks_of result ≡ total (map blocks_of spine.old) + blocks_of last }
{
    if spine.len() == 0 {
        return last;
    }
    let mut node = spine.pop();
    put_child(&mut node, last);
    close(spine, node)
}

/// Whether the spine's last node has room for one more subtree.
pub(crate) fn has_room<K, V, A: Handle>(spine: &Spine<K, V, A>) -> bool
    ensures { IsTrue result ↔ (needed spine.now ≡ 0) }
{
    let len = spine.len();
    len > 0 && spine.get(len - 1).len() < CAPACITY
}

/// How many inner nodes one more subtree at the spine's end takes.
pub(crate) fn needed<K, V, A: Handle>(spine: &Spine<K, V, A>) -> usize
    ensures { result ≡ needed spine.now }
{
    let mut count = 1;
    for i in 0..spine.len() {
        if spine.get(i).len() < CAPACITY {
            count = 0;
        } else {
            count += 1;
        }
    }
    count
}

/// The last of the pairs in the spine's nodes; none where they hold no pair.
pub(crate) fn last_of<K, V, A: Handle>(spine: &Spine<K, V, A>) -> Option<&(K, V)>
    requires { (h : ℕ) × IsSpine h spine.now }
    ensures { IsLastPair (before_back spine.now) result }
{
    let mut last = None;
    for i in 0..spine.len() {
        let node = spine.get(i);
        if node.len() > 0 {
            last = Some(node.pair(node.len() - 1));
        }
    }
    last
}

// Takes the spine's last node out, or an empty one where it has none.
fn open_end<K: Drop, V: Drop, A: Handle>(
    spine: &mut Spine<K, V, A>,
    spares: &mut Vec<Node<K, V, A>, A>,
) -> Node<K, V, A>
    requires empty { AllByRecursion (λ b. IsEmptyInner b) spares.old.items }
    requires some { 0 < length spine.old + length spares.old.items }
    ensures pairs { before_back spine.old ≡ before_back spine.new ++ before_back_in result }
    ensures levels { (h : ℕ) → IsSpine h spine.old → IsOpenEnd h result × IsSpine (suc h) spine.new }
    ensures empty { AllByRecursion (λ b. IsEmptyInner b) spares.new.items }
    ensures worth { worth spine.old ≡ most_children * worth spine.new + length (own_pairs result) }
    ensures count { own_count spine.old ≡ own_count spine.new + length (own_pairs result) }
    ensures nodes { length spares.old.items + length spine.old ≡ length spares.new.items + length spine.new + 1 }
    ensures shorter { length spine.new ≡ length spine.old - 1 }
    ensures new_root { length spine.old ≡ 0 → own_pairs result ≡ [] }
    ensures full { 0 < length spine.old → capacity ≤ length (own_pairs result) → needed spine.old ≡ needed spine.new + 1 }
    ensures room { 0 < length spine.old → length (own_pairs result) < capacity → needed spine.old ≡ 0 }
    ensures used { length spares.old.items ≤ length spares.new.items + needed spine.old }
    ensures kept { 0 < length spine.old → spares.new ≡ spares.old }
    ensures blocks { total (map blocks_of spine.new) + 2 * length spares.new.items + blocks_of result ≡ total (map blocks_of spine.old) + 2 * length spares.old.items }
{
    if spine.len() == 0 {
        return take_spare(spares);
    }
    spine.pop()
}

// Puts a child at the node's end.
fn put_child<K: Drop, V: Drop, A: Handle>(node: &mut Node<K, V, A>, child: Node<K, V, A>)
    requires inner { IsLeaf node.old → ⊥ }
    requires room { length (children_of node.old) ≤ capacity }
    ensures pairs { own_pairs node.new ≡ own_pairs node.old }
    ensures children { children_of node.new ≡ children_of node.old ++ child ∷ [] }
    ensures inner { IsLeaf node.new → ⊥ }
{
    let Some(children) = &mut node.children else {
        unreachable!()
    };
    children.push(child);
}

/// Puts a pair at the node's end. Its children stay.
pub(crate) fn put_pair<K: Drop, V: Drop, A: Handle>(node: &mut Node<K, V, A>, pair: (K, V))
    requires room { length (own_pairs node.old) < capacity }
    ensures pairs { own_pairs node.new ≡ own_pairs node.old ++ pair ∷ [] }
    ensures children { children_of node.new ≡ children_of node.old }
    ensures leaf { IsLeaf node.new ↔ IsLeaf node.old }
{
    node.pairs.push(pair, &mut Count::new());
}
