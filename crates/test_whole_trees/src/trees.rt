//! Trees of keys that follow one another, built and split: each has neither too few pairs nor too many in every node but the root,
//! and all leaves at one depth.
ghost use Rattle.std.specs.Prelude.{IfOk};
ghost use Rattle.std.specs.Bool.{OnTrue};
ghost use Rattle.fc_tree_node.specs.Place.{IsPlace};
ghost use Rattle.fc_tree_node.specs.Tree.{IsSoundMap};

use fc_base::{Asked, TryReserveError};
use fc_tree_build::builder::Builder;
use fc_tree_build::growing::GrowingBuilder;
use fc_tree_node::node::{CAPACITY, MIN_LEN, Node};
use fc_tree_node::path::{MAX_STEPS, Path};
use fc_tree_split::cutting::try_split;
use std::alloc::Global;
use std::test::Fail;

type Tree = Option<Node<u64, u64>>;

// A tree of the keys below n, each with itself as its value.
fn built(alloc: Global, n: u32) -> Result<Tree, TryReserveError>
    ensures { IfOk result (λ tree. IsSoundMap tree) }
{
    let mut builder = Builder::try_new(alloc, n as usize)?;
    for key in 0..u64::from(n) {
        if builder.room() > 0 {
            builder.push((key, key));
        }
    }
    Ok(builder.finish())
}

// Whether the leaves lie `height` levels down, each node above them has a child on either side of each pair, and each node below this
// one holds as many pairs as a node may.
fn is_laid_out(node: &Node<u64, u64>, height: usize) -> bool {
    if height == 0 {
        return node.is_leaf();
    }
    if node.child_count() != node.len() + 1 {
        return false;
    }
    for i in 0..node.child_count() {
        let child = node.child(i);
        if child.len() < MIN_LEN || child.len() > CAPACITY || !is_laid_out(child, height - 1) {
            return false;
        }
    }
    true
}

// The key after the last one, if the keys of the tree follow one another from `start` on.
fn run_end(node: &Node<u64, u64>, height: usize, start: u64) -> Option<u64> {
    let mut key = start;
    for i in 0..node.len() {
        if height > 0 && i < node.child_count() {
            key = run_end(node.child(i), height - 1, key)?;
        }
        let pair = node.pair(i);
        if pair.0 != key || pair.1 != key {
            return None;
        }
        key = key.wrapping_add(1);
    }
    let last = node.len();
    if height > 0 && last < node.child_count() {
        return run_end(node.child(last), height - 1, key);
    }
    Some(key)
}

// Whether the tree holds the keys from `start` to `end`, and its nodes as many as they should.
fn is_sound(tree: &Tree, start: u64, end: u64) -> bool {
    let Some(root) = tree else {
        return start == end;
    };
    for height in 0..8 {
        if is_laid_out(root, height) {
            let is_filled = root.len() > 0 && root.len() <= CAPACITY;
            return is_filled && run_end(root, height, start) == Some(end);
        }
    }
    false
}

fn is_built(alloc: Global, n: u32) -> Result<bool, TryReserveError> {
    let tree = built(alloc, n)?;
    Ok(is_sound(&tree, 0, u64::from(n)))
}

// `tools/requests.txt` says how many requests these two make, and for how many bytes.
#[test]
fn a_full_tree_of_two_levels_asks_for_its_nodes_alone(rt: HostRuntime) -> Result<(), Fail> {
    assert!(rt; is_built(rt.alloc(), 255)?);
    Ok(())
}

#[test]
fn a_full_tree_of_three_levels_asks_for_its_nodes_alone(rt: HostRuntime) -> Result<(), Fail> {
    assert!(rt; is_built(rt.alloc(), 4095)?);
    Ok(())
}

// Whether the last key is this one after all below it; none where it is 0.
fn ends_before(tree: &GrowingBuilder<u64, u64>, key: u64) -> bool {
    match tree.last() {
        None => key == 0,
        Some(last) => last.0.wrapping_add(1) == key && last.1 == last.0,
    }
}

// Puts the keys up to `end` one after the other, each with itself.
fn grows(tree: &mut GrowingBuilder<u64, u64>, end: u64) -> Result<bool, TryReserveError> {
    let asked = &mut Asked::new();
    for key in 0..end {
        if !ends_before(tree, key) {
            return Ok(false);
        }
        match tree.push((key, key), asked) {
            Ok(()) => (),
            Err((_pair, error)) => return Err(error),
        }
    }
    Ok(ends_before(tree, end))
}

// Whether a tree that grows to n keys is sound.
fn is_grown(alloc: Global, n: u64) -> Result<bool, TryReserveError> {
    let mut tree = GrowingBuilder::new(alloc);
    if !grows(&mut tree, n)? || tree.len() as u64 != n {
        return Ok(false);
    }
    Ok(is_sound(&tree.finish(), 0, n))
}

#[test]
fn trees_that_grow(rt: HostRuntime) -> Result<(), Fail> {
    for n in 0..301 {
        assert!(rt; is_grown(rt.alloc(), n)?);
    }
    assert!(rt; is_grown(rt.alloc(), 5000)?);
    Ok(())
}

#[test]
fn trees_of_up_to_three_hundred_pairs(rt: HostRuntime) -> Result<(), Fail> {
    for n in 0..301 {
        assert!(rt; is_built(rt.alloc(), n)?);
    }
    Ok(())
}

// Full trees of three and of four levels, those with one pair less or more, and others.
#[test]
fn trees_of_many_pairs(rt: HostRuntime) -> Result<(), Fail> {
    for n in [
        1000, 4094, 4095, 4096, 20_000, 65_534, 65_535, 65_536, 100_000,
    ] {
        assert!(rt; is_built(rt.alloc(), n)?);
    }
    Ok(())
}

// Whether the path leads to a pair.
fn is_place(node: &Node<u64, u64>, path: &[u8]) -> bool
    ensures { OnTrue result (IsPlace path.now node.now) }
{
    if path.is_empty() {
        return false;
    }
    let i = path[0] as usize;
    if path.len() == 1 {
        return i < node.len();
    }
    i < node.child_count() && is_place(node.child(i), &path[1..])
}

// How many of the node's own keys are below the key.
fn count_below(node: &Node<u64, u64>, key: u64) -> usize {
    for i in 0..node.len() {
        if node.pair(i).0 >= key {
            return i;
        }
    }
    node.len()
}

// Puts the way from the node to the key after the path.
fn find(node: &Node<u64, u64>, height: usize, key: u64, path: &mut Path) {
    let place = count_below(node, key);
    if path.len() < MAX_STEPS && place < 256 {
        path.push(place);
    }
    let is_here = place < node.len() && node.pair(place).0 == key;
    if !is_here && height > 0 && place < node.child_count() {
        find(node.child(place), height - 1, key, path);
    }
}

// Whether the tree of n keys is split at the key into two sound ones.
fn splits(alloc: Global, n: u32, key: u64) -> Result<bool, TryReserveError> {
    let Some(root) = built(alloc, n)? else {
        return Ok(false);
    };
    let mut path = Path::new();
    find(&root, 8, key, &mut path);
    if !is_place(&root, path.as_slice()) {
        return Ok(false);
    }
    let mut left = Some(root);
    let right = try_split(alloc, &mut left, path.as_slice(), &mut Asked::new())?;
    Ok(is_sound(&left, 0, key) && is_sound(&right, key, u64::from(n)))
}

// Whether the tree is split at each `step`th key.
fn splits_each(alloc: Global, n: u32, step: u64) -> Result<bool, TryReserveError> {
    for key in 0..u64::from(n) {
        if key.checked_rem(step) == Some(0) && !splits(alloc, n, key)? {
            return Ok(false);
        }
    }
    Ok(true)
}

#[test]
fn splits_of_up_to_two_hundred_pairs(rt: HostRuntime) -> Result<(), Fail> {
    for n in 0..201 {
        assert!(rt; splits_each(rt.alloc(), n, 1)?);
    }
    Ok(())
}

// A full tree of two levels has 255 pairs.
#[test]
fn splits_about_two_full_levels(rt: HostRuntime) -> Result<(), Fail> {
    for n in 252..260 {
        assert!(rt; splits_each(rt.alloc(), n, 1)?);
    }
    Ok(())
}

// From 256 pairs on a tree that is built has three levels, and from 4096 on four.
#[test]
fn splits_of_three_and_four_levels(rt: HostRuntime) -> Result<(), Fail> {
    assert!(rt; splits_each(rt.alloc(), 3500, 17)?);
    assert!(rt; splits_each(rt.alloc(), 9000, 113)?);
    Ok(())
}
