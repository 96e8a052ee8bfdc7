//! Trees of numbers, each with itself as its value: what they are made of, and what the tests ask of them.
ghost use Rattle.std.specs.Bool.{OnTrue};
ghost use Rattle.fc_tree_node.specs.Node.{IsLevelled};
ghost use Rattle.fc_tree_node.specs.Place.{IsPlace};

use fc_base::{Asked, Count};
use fc_tree_node::node::{CAPACITY, MIN_LEN, Node};
use std::alloc::Global;
use std::process::Abort;
use std::test::Fail;

// Whether the leaves lie `height` levels down, and each node below this one holds the fewest pairs or more.
pub(crate) fn is_levelled(node: &Node<u64, u64>, height: usize) -> bool
    ensures { OnTrue result (IsLevelled height node.now) }
{
    let len = node.len();
    if height == 0 {
        return node.is_leaf();
    }
    if node.child_count() != len + 1 {
        return false;
    }
    for i in 0..node.child_count() {
        if node.child(i).len() < MIN_LEN || !is_levelled(node.child(i), height - 1) {
            return false;
        }
    }
    true
}

// Whether the node itself holds these keys, with their values.
pub(crate) fn shows(node: &Node<u64, u64>, keys: &[u64]) -> bool {
    if node.len() != keys.len() {
        return false;
    }
    for i in 0..keys.len() {
        if !is_pair_of(node.pair(i), keys[i]) {
            return false;
        }
    }
    true
}

pub(crate) fn is_pair_of(pair: &(u64, u64), key: u64) -> bool {
    pair.0 == key && pair.1 == key
}

// Whether the node has such a child, and the child itself holds these keys.
pub(crate) fn child_shows(node: &Node<u64, u64>, index: usize, keys: &[u64]) -> bool {
    index < node.child_count() && shows(node.child(index), keys)
}

// Whether the tree has two levels, and the root these keys over first children of these keys.
pub(crate) fn shows_two_levels(
    root: &Node<u64, u64>,
    keys: &[u64],
    first: &[u64],
    second: &[u64],
) -> bool {
    is_levelled(root, 1)
        && shows(root, keys)
        && child_shows(root, 0, first)
        && child_shows(root, 1, second)
}

// Whether the path leads to a pair.
pub(crate) fn is_place(node: &Node<u64, u64>, path: &[u8]) -> bool
    ensures { OnTrue result (IsPlace path.now node.now) }
{
    if path.is_empty() {
        return false;
    }
    let i = path[0] as usize;
    if path.len() == 1 {
        return i < node.len();
    }
    i < node.child_count() && is_place(node.child(i), &path[1..])
}

// Puts the key after those of a leaf.
fn push(rt: &impl Abort, leaf: &mut Node<u64, u64>, key: u64) {
    let len = leaf.len();
    assert!(rt; len < CAPACITY && leaf.is_leaf());
    leaf.insert_leaf(len, (key, key), &mut Count::new());
}

// Puts the key and the child after those of an inner node.
pub(crate) fn push_child(
    rt: &impl Abort,
    node: &mut Node<u64, u64>,
    key: u64,
    child: Node<u64, u64>,
) {
    let len = node.len();
    assert!(rt; len < CAPACITY && node.child_count() == len + 1);
    node.insert_inner(len, (key, key), child, &mut Count::new());
}

// A leaf of the keys from `start` to `end`.
pub(crate) fn leaf(
    rt: &impl Abort,
    alloc: Global,
    start: u64,
    end: u64,
) -> Result<Node<u64, u64>, Fail> {
    let mut node = Node::try_leaf(alloc, &mut Asked::new())?;
    for key in start..end {
        push(rt, &mut node, key);
    }
    Ok(node)
}

// An inner node of this subtree alone: others come after it, so that nobody holds two at a time.
pub(crate) fn over(alloc: Global, first: Node<u64, u64>) -> Result<Node<u64, u64>, Fail> {
    let mut node = Node::try_inner(alloc, &mut Asked::new())?;
    node.adopt(first);
    Ok(node)
}

// The fewest children of an inner node below the root.
const LEAST_CHILDREN: usize = MIN_LEN + 1;

// A leaf of the fewest keys, and the key after it.
pub(crate) const LEAF: u64 = LEAST_CHILDREN as u64;

// The keys of an inner node with the fewest, over such leaves, and the key after it.
pub(crate) const INNER: u64 = LEAF * LEAF;

// An inner node of the fewest keys, between leaves of the fewest keys each, from `start` on.
pub(crate) fn least_inner(
    rt: &impl Abort,
    alloc: Global,
    start: u64,
) -> Result<Node<u64, u64>, Fail> {
    let mut node = Node::try_inner(alloc, &mut Asked::new())?;
    let mut key = start.wrapping_add(MIN_LEN as u64);
    node.adopt(leaf(rt, alloc, start, key)?);
    for _ in 0..MIN_LEN {
        let first = key.wrapping_add(1);
        let end = first.wrapping_add(MIN_LEN as u64);
        push_child(rt, &mut node, key, leaf(rt, alloc, first, end)?);
        key = end;
    }
    Ok(node)
}

// A root of one key over two such inner nodes.
pub(crate) fn three_levels(
    rt: &impl Abort,
    alloc: Global,
    start: u64,
) -> Result<Node<u64, u64>, Fail> {
    let mut root = over(alloc, least_inner(rt, alloc, start)?)?;
    let key = start.wrapping_add(INNER - 1);
    push_child(
        rt,
        &mut root,
        key,
        least_inner(rt, alloc, key.wrapping_add(1))?,
    );
    Ok(root)
}
