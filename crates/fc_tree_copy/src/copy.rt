//! A copy of a tree, node by node.
ghost use Rattle.std.specs.Prelude.{◌≡◌, ℕ, ◌+◌, ◌<◌, ◌≤◌, [], ◌∷◌, ◌++◌, length, IfOk, IfErr};
ghost use Rattle.std.specs.List.{AllZip};
ghost use Rattle.fc_base.specs.Sizes.{most_children};
ghost use Rattle.fc_base.specs.Copies.{MayRefusePair};
ghost use Rattle.fc_tree_node.specs.Node.{own_pairs, children_of, pairs_of, IsLeaf, IsLevelled};
ghost use Rattle.fc_tree_node.specs.Blocks.{blocks_alone, blocks_of};
ghost use Rattle.fc_tree_copy.specs.Copy.{AreSame, MayRefuseNodes, IsCopy, IsCopyUpTo};

use fc_base::{Asked, Count, Handle, TryClone, TryReserveError};
use fc_tree_node::node::{CAPACITY, Node};
use fc_tree_slots::children::Children;
use fc_tree_slots::slots::Slots;

/// A copy of the tree at `node`: a node for each node, with as many pairs and children, and a copy of each pair by `try_clone`.
/// The tree is only read. A request for memory is added to `asked` for each block that the tree has: for the copy's nodes, not for what
/// copies of keys and values take.
///
/// # Errors
/// `AllocError` where a node was refused, or the error of a key or a value whose copy was. What was made by then is dropped.
pub fn try_copy<K: TryClone, V: TryClone, A: Handle>(
    alloc: A,
    node: &Node<K, V, A>,
    asked: &mut Asked,
) -> Result<Node<K, V, A>, TryReserveError>
    requires keys { K.can_clone }
    requires values { V.can_clone }
    ensures copied { IfOk result (λ copy. IsCopy (AreSame K.same V.same) node.now copy) }
    ensures error { (h : ℕ) → IsLevelled h node.now → IfErr result (MayRefuseNodes (MayRefusePair K.may_refuse V.may_refuse) (pairs_of node.now)) }
    ensures requests { IfOk result (λ _. asked.new.requests ≡ asked.old.requests + blocks_of node.now) }
    ensures at_most { asked.new.requests ≤ asked.old.requests + blocks_of node.now }
{
    let mut copy = try_copy_own(alloc, node, asked)?;
    for i in 0..node.child_count() {
        let child = try_copy(alloc, node.child(i), asked)?;
        push_child(&mut copy, child);
    }
    Ok(copy)
}

// A node with copies of the node's own pairs, and with room for children where the node has it.
fn try_copy_own<K: TryClone, V: TryClone, A: Handle>(
    alloc: A,
    node: &Node<K, V, A>,
    asked: &mut Asked,
) -> Result<Node<K, V, A>, TryReserveError>
    requires keys { K.can_clone }
    requires values { V.can_clone }
    ensures copied { IfOk result (λ copy. IsCopyUpTo (AreSame K.same V.same) 0 node.now copy) }
    ensures error { IfErr result (MayRefuseNodes (MayRefusePair K.may_refuse V.may_refuse) (own_pairs node.now)) }
    ensures requests { IfOk result (λ _. asked.new.requests ≡ asked.old.requests + blocks_alone node.now) }
    ensures at_most { asked.new.requests ≤ asked.old.requests + blocks_alone node.now }
{
    let pairs = try_copy_pairs(alloc, &node.pairs, asked)?;
    if node.is_leaf() {
        let children = None;
        return Ok(Node { pairs, children });
    }
    let children = Some(Children::try_new(alloc, asked)?);
    Ok(Node { pairs, children })
}

// Copies of the pairs, in order.
fn try_copy_pairs<K: TryClone, V: TryClone, A: Handle>(
    alloc: A,
    pairs: &Slots<(K, V), CAPACITY, A>,
    asked: &mut Asked,
) -> Result<Slots<(K, V), CAPACITY, A>, TryReserveError>
    requires keys { K.can_clone }
    requires values { V.can_clone }
    ensures copied { IfOk result (λ copies. AllZip (AreSame K.same V.same) pairs.now copies) }
    ensures error { IfErr result (MayRefuseNodes (MayRefusePair K.may_refuse V.may_refuse) pairs.now) }
    ensures requests { asked.new.requests ≡ asked.old.requests + 1 }
{
    let mut copies = Slots::try_new(alloc, asked)?;
    for i in 0..pairs.len() {
        let pair = try_copy_pair(pairs.get(i))?;
        copies.push(pair, &mut Count::new());
    }
    Ok(copies)
}

// A copy of the key, and then of the value.
fn try_copy_pair<K: TryClone, V: TryClone>(pair: &(K, V)) -> Result<(K, V), TryReserveError>
    requires keys { K.can_clone }
    requires values { V.can_clone }
    ensures copied { IfOk result (AreSame K.same V.same pair.now) }
    ensures error { IfErr result (MayRefusePair K.may_refuse V.may_refuse pair.now) }
{
    let key = pair.0.try_clone()?;
    let value = pair.1.try_clone()?;
    Ok((key, value))
}

// Puts a child after those that are there.
fn push_child<K: Drop, V: Drop, A: Handle>(node: &mut Node<K, V, A>, child: Node<K, V, A>)
    requires inner { ¬ (IsLeaf node.old) }
    requires room { length (children_of node.old) < most_children }
    ensures own { own_pairs node.new ≡ own_pairs node.old }
    ensures children { children_of node.new ≡ children_of node.old ++ child ∷ [] }
    ensures inner { ¬ (IsLeaf node.new) }
{
    let Some(children) = &mut node.children else {
        unreachable!()
    };
    children.push(child);
}
