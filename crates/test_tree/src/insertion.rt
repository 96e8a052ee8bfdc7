//! Insertions at paths that are written out, and the nodes that they leave.
ghost use Rattle.std.specs.Prelude.{◌-◌, ◌<◌, length};
ghost use Rattle.std.specs.Bool.{OnTrue};
ghost use Rattle.fc_tree_node.specs.Node.{IsLevelled};
ghost use Rattle.fc_tree_node.specs.Path.{IsPath};

use crate::trees::{child_shows, is_levelled, shows, shows_two_levels};
use fc_base::{Asked, Count, TryReserveError};
use fc_tree_insertion::insertion::{first_leaf, insert};
use fc_tree_insertion::leaf::has_room;
use fc_tree_insertion::new_nodes::try_new_nodes;
use fc_tree_node::node::{CAPACITY, Node};
use fc_tree_node::path::{MAX_STEPS, Path};
use fc_tree_search::lend::pair_at;
use std::alloc::Global;
use std::process::Abort;
use std::test::Fail;

// Whether each step of the path is a place in the node that it has come to.
fn is_path(node: &Node<u64, u64>, path: &[u8]) -> bool
    requires some { 0 < length path.now }
    requires levels { IsLevelled (length path.now - 1) node.now }
    ensures { OnTrue result (IsPath path.now node.now) }
{
    let step = path[0] as usize;
    if step > node.len() {
        return false;
    }
    path.len() == 1 || is_path(node.child(step), &path[1..])
}

// A leaf of one key.
fn leaf_of(alloc: Global, key: u64) -> Result<Node<u64, u64>, TryReserveError> {
    Ok(first_leaf(alloc, (key, key), &mut Count::new(), &mut Asked::new())?)
}

// Inserts the key at the path, with a room of as many nodes, and looks for it where the insertion says.
fn put(
    rt: &impl Abort,
    alloc: Global,
    root: &mut Node<u64, u64>,
    path: &[u8],
    key: u64,
    nodes: usize,
) -> Result<(), TryReserveError> {
    assert!(rt; !path.is_empty() && path.len() < MAX_STEPS && root.len() > 0);
    assert!(rt; is_levelled(root, path.len() - 1));
    assert!(rt; is_path(root, path));
    assert!(rt; has_room(root, path) == (nodes == 0));
    let room = try_new_nodes(alloc, root, path, &mut Asked::new())?;
    assert!(rt; room.len() == nodes);
    let mut place = Path::of(path);
    insert(root, &mut place, (key, key), room, &mut Count::new());
    assert!(rt; pair_at(root, &place).0 == key);
    Ok(())
}

// Inserts the key after all pairs of a tree of one level or two.
pub(crate) fn put_last(
    rt: &impl Abort,
    alloc: Global,
    root: &mut Node<u64, u64>,
    key: u64,
    nodes: usize,
) -> Result<(), TryReserveError> {
    let len = root.len();
    if len < root.child_count() {
        let below = root.child(len).len();
        put(rt, alloc, root, &[len as u8, below as u8], key, nodes)
    } else {
        put(rt, alloc, root, &[len as u8], key, nodes)
    }
}

// A full leaf: the first key, and as many more at this distance as find room.
pub(crate) fn full_leaf(
    rt: &impl Abort,
    alloc: Global,
    first: u64,
    distance: u64,
) -> Result<Node<u64, u64>, TryReserveError> {
    let mut root = leaf_of(alloc, first)?;
    let mut key = first;
    for _ in 1..CAPACITY {
        key = key.wrapping_add(distance);
        put_last(rt, alloc, &mut root, key, 0)?;
    }
    Ok(root)
}

// The tree that one key more leaves at this place of a full leaf. Its split takes two nodes.
fn split(
    rt: &impl Abort,
    alloc: Global,
    (first, distance): (u64, u64),
    place: u8,
    key: u64,
) -> Result<Node<u64, u64>, TryReserveError> {
    let mut root = full_leaf(rt, alloc, first, distance)?;
    put(rt, alloc, &mut root, &[place], key, 2)?;
    Ok(root)
}

#[test]
fn ascending_keys(rt: HostRuntime) -> Result<(), Fail> {
    let root = split(&rt, rt.alloc(), (1, 1), 15, 16)?;
    let left = [1, 2, 3, 4, 5, 6, 7, 8];
    let right = [10, 11, 12, 13, 14, 15, 16];
    assert!(&rt; shows_two_levels(&root, &[9], &left, &right));
    Ok(())
}

#[test]
fn descending_keys(rt: HostRuntime) -> Result<(), Fail> {
    let mut root = leaf_of(rt.alloc(), 16)?;
    for below in 0..14u64 {
        put(&rt, rt.alloc(), &mut root, &[0], 15 - below, 0)?;
    }
    put(&rt, rt.alloc(), &mut root, &[0], 1, 2)?;
    let left = [1, 2, 3, 4, 5, 6, 7];
    let right = [9, 10, 11, 12, 13, 14, 15, 16];
    assert!(&rt; shows_two_levels(&root, &[8], &left, &right));
    Ok(())
}

#[test]
fn between_even_keys(rt: HostRuntime) -> Result<(), Fail> {
    let root = split(&rt, rt.alloc(), (2, 2), 7, 15)?;
    let left = [2, 4, 6, 8, 10, 12, 14, 15];
    let right = [18, 20, 22, 24, 26, 28, 30];
    assert!(&rt; shows_two_levels(&root, &[16], &left, &right));
    let root = split(&rt, rt.alloc(), (2, 2), 8, 17)?;
    let left = [2, 4, 6, 8, 10, 12, 14];
    let right = [17, 18, 20, 22, 24, 26, 28, 30];
    assert!(&rt; shows_two_levels(&root, &[16], &left, &right));
    Ok(())
}

#[test]
fn each_place_of_a_full_leaf(rt: HostRuntime) -> Result<(), Fail> {
    for place in 0..CAPACITY + 1 {
        let root = split(&rt, rt.alloc(), (1, 2), place as u8, place as u64 * 2)?;
        assert!(&rt; is_levelled(&root, 1) && root.child_count() == 2);
    }
    Ok(())
}

// How many nodes the insertion of the key after those below it takes: one for each split, and one for a new root. Worked out for
// nodes of at most fifteen pairs.
fn nodes_for(key: u64) -> usize {
    if key == 151 {
        3
    } else if key == 16 {
        2
    } else if key > 16 && key % 9 == 7 {
        1
    } else {
        0
    }
}

#[test]
fn third_level(rt: HostRuntime) -> Result<(), Fail> {
    let mut root = leaf_of(rt.alloc(), 1)?;
    for key in 2..152u64 {
        put_last(&rt, rt.alloc(), &mut root, key, nodes_for(key))?;
    }
    assert!(&rt; is_levelled(&root, 2) && shows(&root, &[81]));
    assert!(&rt; child_shows(&root, 0, &[9, 18, 27, 36, 45, 54, 63, 72]));
    assert!(&rt; child_shows(&root, 1, &[90, 99, 108, 117, 126, 135, 144]));
    Ok(())
}
