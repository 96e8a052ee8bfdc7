//! Removals at paths that are written out, and the trees that they leave.

use crate::trees::{
    child_shows, is_levelled, is_pair_of, is_place, leaf, over, push_child, shows,
    shows_two_levels, three_levels,
};
use fc_base::Count;
use fc_tree_node::node::Node;
use fc_tree_removal::removal::remove;
use std::alloc::Global;
use std::process::Abort;
use std::test::Fail;

// Removes the key at the path from a tree of this height, and hands out what is left.
pub(crate) fn without(
    rt: &impl Abort,
    root: Node<u64, u64>,
    height: usize,
    path: &[u8],
    key: u64,
) -> Option<Node<u64, u64>> {
    assert!(rt; root.len() > 0 && is_levelled(&root, height));
    assert!(rt; is_place(&root, path));
    let mut tree = Some(root);
    let pair = remove(&mut tree, path, &mut Count::new());
    assert!(rt; is_pair_of(&pair, key));
    tree
}

// What a removal leaves of a root over two leaves: the leaves of the keys from `start` to `end`, the root of `middle` between them.
fn of_two_leaves(
    rt: &impl Abort,
    alloc: Global,
    (start, middle, end): (u64, u64, u64),
    path: &[u8],
    key: u64,
) -> Result<Node<u64, u64>, Fail> {
    let mut root = over(alloc, leaf(rt, alloc, start, middle)?)?;
    let right = leaf(rt, alloc, middle.wrapping_add(1), end)?;
    push_child(rt, &mut root, middle, right);
    Ok(without(rt, root, 1, path, key).ok_or("no root")?)
}

// What a removal leaves of a root of 64 over two inner nodes with as few keys as can be, of the keys from 1 to 127: worked out for nodes
// of at least seven.
fn of_sixteen_leaves(
    rt: &impl Abort,
    alloc: Global,
    path: &[u8],
    key: u64,
) -> Result<Node<u64, u64>, Fail> {
    let root = three_levels(rt, alloc, 1)?;
    Ok(without(rt, root, 2, path, key).ok_or("no root")?)
}

fn is_one_leaf(root: &Node<u64, u64>, keys: &[u64]) -> bool {
    root.is_leaf() && shows(root, keys)
}

// Whether the tree has two levels, and these keys in its root between leaves.
fn shows_above_leaves(root: &Node<u64, u64>, keys: &[u64]) -> bool {
    is_levelled(root, 1) && root.child_count() == keys.len() + 1 && shows(root, keys)
}

#[test]
fn last_key_of_two_leaves_merges_them(rt: HostRuntime) -> Result<(), Fail> {
    let root = of_two_leaves(&rt, rt.alloc(), (1, 9, 17), &[1, 6], 16)?;
    assert!(&rt; is_one_leaf(&root, &[1, 2, 3, 4, 5, 6, 7, 8, 9, 10, 11, 12, 13, 14, 15]));
    Ok(())
}

#[test]
fn next_key_takes_the_place_of_an_inner_one(rt: HostRuntime) -> Result<(), Fail> {
    let root = of_two_leaves(&rt, rt.alloc(), (1, 9, 17), &[0], 9)?;
    assert!(&rt; is_one_leaf(&root, &[1, 2, 3, 4, 5, 6, 7, 8, 10, 11, 12, 13, 14, 15, 16]));
    let root = of_two_leaves(&rt, rt.alloc(), (1, 9, 18), &[0], 9)?;
    let left = [1, 2, 3, 4, 5, 6, 7, 8];
    let right = [11, 12, 13, 14, 15, 16, 17];
    assert!(&rt; shows_two_levels(&root, &[10], &left, &right));
    Ok(())
}

#[test]
fn pair_is_stolen_from_the_left(rt: HostRuntime) -> Result<(), Fail> {
    let root = of_two_leaves(&rt, rt.alloc(), (0, 9, 17), &[1, 6], 16)?;
    let left = [0, 1, 2, 3, 4, 5, 6, 7];
    let right = [9, 10, 11, 12, 13, 14, 15];
    assert!(&rt; shows_two_levels(&root, &[8], &left, &right));
    Ok(())
}

#[test]
fn first_child_is_mended_from_the_right(rt: HostRuntime) -> Result<(), Fail> {
    let root = of_two_leaves(&rt, rt.alloc(), (1, 8, 17), &[0, 0], 1)?;
    assert!(&rt; is_one_leaf(&root, &[2, 3, 4, 5, 6, 7, 8, 9, 10, 11, 12, 13, 14, 15, 16]));
    let root = of_two_leaves(&rt, rt.alloc(), (1, 8, 18), &[0, 0], 1)?;
    let left = [2, 3, 4, 5, 6, 7, 8];
    let right = [10, 11, 12, 13, 14, 15, 16, 17];
    assert!(&rt; shows_two_levels(&root, &[9], &left, &right));
    Ok(())
}

#[test]
fn only_pair_leaves_no_tree(rt: HostRuntime) -> Result<(), Fail> {
    let root = leaf(&rt, rt.alloc(), 1, 3)?;
    let root = without(&rt, root, 0, &[0], 1).ok_or("no root")?;
    assert!(&rt; shows(&root, &[2]));
    assert!(&rt; without(&rt, root, 0, &[0], 2).is_none());
    Ok(())
}

#[test]
fn merges_climb_to_the_root(rt: HostRuntime) -> Result<(), Fail> {
    let root = of_sixteen_leaves(&rt, rt.alloc(), &[0, 0, 0], 1)?;
    let keys = [16, 24, 32, 40, 48, 56, 64, 72, 80, 88, 96, 104, 112, 120];
    assert!(&rt; shows_above_leaves(&root, &keys));
    assert!(&rt; child_shows(&root, 0, &[2, 3, 4, 5, 6, 7, 8, 9, 10, 11, 12, 13, 14, 15]));
    assert!(&rt; child_shows(&root, 14, &[121, 122, 123, 124, 125, 126, 127]));
    Ok(())
}

#[test]
fn root_pair_is_replaced_from_below(rt: HostRuntime) -> Result<(), Fail> {
    let root = of_sixteen_leaves(&rt, rt.alloc(), &[0], 64)?;
    let keys = [8, 16, 24, 32, 40, 48, 56, 65, 80, 88, 96, 104, 112, 120];
    assert!(&rt; shows_above_leaves(&root, &keys));
    assert!(&rt; child_shows(&root, 7, &[57, 58, 59, 60, 61, 62, 63]));
    let merged = [66, 67, 68, 69, 70, 71, 72, 73, 74, 75, 76, 77, 78, 79];
    assert!(&rt; child_shows(&root, 8, &merged));
    Ok(())
}
