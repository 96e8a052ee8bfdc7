//! Cuts of whole trees at each of their pairs, and the two trees that each leaves.
ghost use Rattle.std.specs.Prelude.{◌≤◌};

use crate::trees::{INNER, LEAF, is_levelled, is_pair_of, is_place, least_inner, three_levels};
use fc_base::Asked;
use fc_tree_node::node::Node;
use fc_tree_split::cutting::try_split;
use std::alloc::Global;
use std::process::Abort;
use std::test::Fail;

// The key after the last one, if the keys of the tree follow one another from `start` on.
fn run_end(node: &Node<u64, u64>, height: usize, start: u64) -> Option<u64> {
    let mut key = start;
    for i in 0..node.len() {
        if height > 0 && i < node.child_count() {
            key = run_end(node.child(i), height - 1, key)?;
        }
        if !is_pair_of(node.pair(i), key) {
            return None;
        }
        key = key.wrapping_add(1);
    }
    let last = node.len();
    if height > 0 && last < node.child_count() {
        return run_end(node.child(last), height - 1, key);
    }
    Some(key)
}

// Whether the part is a sound tree of the keys from `start` to `end`, no higher than the tree that was cut.
fn is_part(part: &Option<Node<u64, u64>>, height: usize, start: u64, end: u64) -> bool
    requires { height ≤ 2 }
{
    let Some(root) = part else {
        return start == end;
    };
    for h in 0..height + 1 {
        if root.len() > 0 && is_levelled(root, h) {
            return run_end(root, h, start) == Some(end);
        }
    }
    false
}

// Cuts a tree of this height and of the keys up to `end` at the key, which the path leads to.
fn cut_at(
    rt: &impl Abort,
    alloc: Global,
    root: Node<u64, u64>,
    height: usize,
    path: &[u8],
    key: u64,
    end: u64,
) -> Result<(), Fail>
    requires { height ≤ 2 }
{
    assert!(rt; root.len() > 0 && is_levelled(&root, height));
    assert!(rt; is_place(&root, path));
    let mut left = Some(root);
    let right = try_split(alloc, &mut left, path, &mut Asked::new())?;
    assert!(rt; is_part(&left, height, 0, key));
    assert!(rt; is_part(&right, height, key, end));
    Ok(())
}

// Where the key stands in a root of one key over two such inner nodes: the child of the root, and the path below it.
fn steps_to(key: u64) -> ([u8; 3], usize)
    ensures { (2 ≤ result.1) × (result.1 ≤ 3) }
{
    let half = (key / INNER % 2) as u8;
    let leaf = (key / LEAF % LEAF) as u8;
    let place = (key % LEAF) as u8;
    if place as u64 == LEAF - 1 {
        ([half, leaf, 0], 2)
    } else {
        ([half, leaf, place], 3)
    }
}

#[test]
fn two_levels_at_each_key(rt: HostRuntime) -> Result<(), Fail> {
    for key in 0..INNER - 1 {
        let root = least_inner(&rt, rt.alloc(), 0)?;
        let (steps, len) = steps_to(key);
        cut_at(&rt, rt.alloc(), root, 1, &steps[1..len], key, INNER - 1)?;
    }
    Ok(())
}

#[test]
fn three_levels_at_each_key(rt: HostRuntime) -> Result<(), Fail> {
    for key in 0..2 * INNER - 1 {
        let root = three_levels(&rt, rt.alloc(), 0)?;
        let (steps, len) = steps_to(key);
        let len = if key == INNER - 1 { 1 } else { len };
        cut_at(&rt, rt.alloc(), root, 2, &steps[..len], key, 2 * INNER - 1)?;
    }
    Ok(())
}
