// Expected pairs and children are written out from the rules of splits, merges and thefts.
ghost use Rattle.std.specs.Bool.{OnTrue};
ghost use Rattle.fc_tree_node.specs.Node.{IsEmptyLeaf};
ghost use Rattle.fc_tree_node.specs.Siblings.{AreAlike};

use fc_base::{Asked, Count, TryReserveError};
use fc_tree_node::node::{CAPACITY, MIN_LEN, Node};
use std::alloc::Global;
use std::process::Abort;
use std::test::Fail;
use test_values::{Tally, Token};

// Puts the pair after those of a leaf. The helpers are generic, so that they are proved once for numbers and tokens.
fn push<V: Drop>(rt: &impl Abort, leaf: &mut Node<u64, V>, key: u64, value: V) {
    let len = leaf.len();
    assert!(rt; len < CAPACITY && leaf.is_leaf());
    leaf.insert_leaf(len, (key, value), &mut Count::new());
}

// Puts the pair and the child after those of an inner node.
fn push_child<V: Drop>(
    rt: &impl Abort,
    node: &mut Node<u64, V>,
    key: u64,
    value: V,
    child: Node<u64, V>,
) {
    let len = node.len();
    assert!(rt; len < CAPACITY && node.child_count() == len + 1);
    node.insert_inner(len, (key, value), child, &mut Count::new());
}

// A leaf of these keys, each with ten times itself as its value.
fn leaf(rt: &impl Abort, alloc: Global, keys: &[u64]) -> Result<Node<u64, u64>, Fail> {
    let mut node = Node::try_leaf(alloc, &mut Asked::new())?;
    for i in 0..keys.len() {
        push(rt, &mut node, keys[i], keys[i].wrapping_mul(10));
    }
    Ok(node)
}

// An inner node of these keys, between leaves of these keys.
fn family(
    rt: &impl Abort,
    alloc: Global,
    keys: &[u64],
    below: &[&[u64]],
) -> Result<Node<u64, u64>, Fail> {
    assert!(rt; below.len() == keys.len() + 1);
    let mut node = Node::try_inner(alloc, &mut Asked::new())?;
    node.adopt(leaf(rt, alloc, below[0])?);
    for i in 0..keys.len() {
        let child = leaf(rt, alloc, below[i + 1])?;
        push_child(rt, &mut node, keys[i], keys[i].wrapping_mul(10), child);
    }
    Ok(node)
}

// The same between leaves of one key each.
fn inner(
    rt: &impl Abort,
    alloc: Global,
    keys: &[u64],
    below: &[u64],
) -> Result<Node<u64, u64>, Fail> {
    assert!(rt; below.len() == keys.len() + 1);
    let mut node = Node::try_inner(alloc, &mut Asked::new())?;
    node.adopt(leaf(rt, alloc, &below[..1])?);
    for i in 0..keys.len() {
        let child = leaf(rt, alloc, &below[i + 1..i + 2])?;
        push_child(rt, &mut node, keys[i], keys[i].wrapping_mul(10), child);
    }
    Ok(node)
}

fn is_tenfold(pair: &(u64, u64), key: u64) -> bool {
    pair.0 == key && pair.1 == key.wrapping_mul(10)
}

// Whether the node holds these keys itself, with their values.
fn shows(node: &Node<u64, u64>, keys: &[u64]) -> bool {
    if node.len() != keys.len() {
        return false;
    }
    for i in 0..keys.len() {
        if !is_tenfold(node.pair(i), keys[i]) {
            return false;
        }
    }
    true
}

// Whether the node's children are leaves of these keys.
fn leaves_show(node: &Node<u64, u64>, below: &[&[u64]]) -> bool {
    if node.child_count() != below.len() {
        return false;
    }
    for i in 0..below.len() {
        if !node.child(i).is_leaf() || !shows(node.child(i), below[i]) {
            return false;
        }
    }
    true
}

// Whether the node's children are leaves of one key each, these.
fn children_show(node: &Node<u64, u64>, keys: &[u64]) -> bool {
    if node.child_count() != keys.len() {
        return false;
    }
    for i in 0..keys.len() {
        if !node.child(i).is_leaf() || !shows(node.child(i), &keys[i..i + 1]) {
            return false;
        }
    }
    true
}

// The places where a pair can go into a full node, which are as many as the children that it can have.
const PLACES: usize = CAPACITY + 1;

const FULL: [u64; CAPACITY] = [
    10, 20, 30, 40, 50, 60, 70, 80, 90, 100, 110, 120, 130, 140, 150,
];

const BELOW: [u64; PLACES] = [
    1, 11, 21, 31, 41, 51, 61, 71, 81, 91, 101, 111, 121, 131, 141, 151,
];

// The full node's keys before the middle one or after it, where the new key is in the other half.
const TO_70: &[u64] = &[10, 20, 30, 40, 50, 60, 70];

const TO_80: &[u64] = &[10, 20, 30, 40, 50, 60, 70, 80];

const FROM_80: &[u64] = &[80, 90, 100, 110, 120, 130, 140, 150];

const FROM_90: &[u64] = &[90, 100, 110, 120, 130, 140, 150];

// What a split of the full node leaves where the new pair goes to a place: left, middle and right.
fn halves(place: usize) -> (&'static [u64], u64, &'static [u64]) {
    match place {
        0 => (&[5, 10, 20, 30, 40, 50, 60], 70, FROM_80),
        1 => (&[10, 15, 20, 30, 40, 50, 60], 70, FROM_80),
        2 => (&[10, 20, 25, 30, 40, 50, 60], 70, FROM_80),
        3 => (&[10, 20, 30, 35, 40, 50, 60], 70, FROM_80),
        4 => (&[10, 20, 30, 40, 45, 50, 60], 70, FROM_80),
        5 => (&[10, 20, 30, 40, 50, 55, 60], 70, FROM_80),
        6 => (&[10, 20, 30, 40, 50, 60, 65], 70, FROM_80),
        7 => (&[10, 20, 30, 40, 50, 60, 70, 75], 80, FROM_90),
        8 => (TO_70, 80, &[85, 90, 100, 110, 120, 130, 140, 150]),
        9 => (TO_80, 90, &[95, 100, 110, 120, 130, 140, 150]),
        10 => (TO_80, 90, &[100, 105, 110, 120, 130, 140, 150]),
        11 => (TO_80, 90, &[100, 110, 115, 120, 130, 140, 150]),
        12 => (TO_80, 90, &[100, 110, 120, 125, 130, 140, 150]),
        13 => (TO_80, 90, &[100, 110, 120, 130, 135, 140, 150]),
        14 => (TO_80, 90, &[100, 110, 120, 130, 140, 145, 150]),
        _ => (TO_80, 90, &[100, 110, 120, 130, 140, 150, 155]),
    }
}

// The children of a half that does not get the new one.
const CHILDREN_TO_71: &[u64] = &[1, 11, 21, 31, 41, 51, 61, 71];

const CHILDREN_TO_81: &[u64] = &[1, 11, 21, 31, 41, 51, 61, 71, 81];

const CHILDREN_FROM_71: &[u64] = &[71, 81, 91, 101, 111, 121, 131, 141, 151];

const CHILDREN_FROM_81: &[u64] = &[81, 91, 101, 111, 121, 131, 141, 151];

// The children that a split leaves on either side: the new child stands right of the new pair.
fn children(place: usize) -> (&'static [u64], &'static [u64]) {
    match place {
        0 => (&[1, 6, 11, 21, 31, 41, 51, 61], CHILDREN_FROM_71),
        1 => (&[1, 11, 16, 21, 31, 41, 51, 61], CHILDREN_FROM_71),
        2 => (&[1, 11, 21, 26, 31, 41, 51, 61], CHILDREN_FROM_71),
        3 => (&[1, 11, 21, 31, 36, 41, 51, 61], CHILDREN_FROM_71),
        4 => (&[1, 11, 21, 31, 41, 46, 51, 61], CHILDREN_FROM_71),
        5 => (&[1, 11, 21, 31, 41, 51, 56, 61], CHILDREN_FROM_71),
        6 => (&[1, 11, 21, 31, 41, 51, 61, 66], CHILDREN_FROM_71),
        7 => (&[1, 11, 21, 31, 41, 51, 61, 71, 76], CHILDREN_FROM_81),
        8 => (CHILDREN_TO_71, &[81, 86, 91, 101, 111, 121, 131, 141, 151]),
        9 => (CHILDREN_TO_81, &[91, 96, 101, 111, 121, 131, 141, 151]),
        10 => (CHILDREN_TO_81, &[91, 101, 106, 111, 121, 131, 141, 151]),
        11 => (CHILDREN_TO_81, &[91, 101, 111, 116, 121, 131, 141, 151]),
        12 => (CHILDREN_TO_81, &[91, 101, 111, 121, 126, 131, 141, 151]),
        13 => (CHILDREN_TO_81, &[91, 101, 111, 121, 131, 136, 141, 151]),
        14 => (CHILDREN_TO_81, &[91, 101, 111, 121, 131, 141, 146, 151]),
        _ => (CHILDREN_TO_81, &[91, 101, 111, 121, 131, 141, 151, 156]),
    }
}

// Splits a full leaf where the pair goes to a place, into itself and an empty leaf: what goes up, and the right half.
fn split_leaf<V: Drop>(
    rt: &impl Abort,
    node: &mut Node<u64, V>,
    place: usize,
    pair: (u64, V),
    right: Node<u64, V>,
) -> ((u64, V), Node<u64, V>)
    requires { IsEmptyLeaf right }
{
    assert!(rt; place < PLACES && node.is_leaf() && node.len() == CAPACITY);
    node.split_leaf(place, pair, right, &mut Count::new())
}

fn are_halves(
    left: &Node<u64, u64>,
    up: &(u64, u64),
    right: &Node<u64, u64>,
    place: usize,
) -> bool {
    let (left_keys, middle, right_keys) = halves(place);
    is_tenfold(up, middle) && shows(left, left_keys) && shows(right, right_keys)
}

fn are_children_of_halves(left: &Node<u64, u64>, right: &Node<u64, u64>, place: usize) -> bool {
    let (left_children, right_children) = children(place);
    children_show(left, left_children) && children_show(right, right_children)
}

// Whether the split of a full leaf leaves its halves.
fn is_leaf_split(rt: &impl Abort, alloc: Global, place: usize) -> Result<bool, Fail> {
    let mut node = leaf(rt, alloc, &FULL)?;
    let right = Node::try_leaf(alloc, &mut Asked::new())?;
    let key = (place as u64).wrapping_mul(10).wrapping_add(5);
    let (up, right) = split_leaf(rt, &mut node, place, (key, key.wrapping_mul(10)), right);
    Ok(node.is_leaf() && right.is_leaf() && are_halves(&node, &up, &right, place))
}

#[test]
fn splits_a_leaf_at_each_place(rt: HostRuntime) -> Result<(), Fail> {
    for place in 0..PLACES {
        assert!(&rt; is_leaf_split(&rt, rt.alloc(), place)?);
    }
    Ok(())
}

// The same of a full inner node, which is its caller's: what is asserted of it has nothing to give up.
fn leaves_inner_halves(
    rt: &impl Abort,
    alloc: Global,
    node: &mut Node<u64, u64>,
    place: usize,
) -> Result<bool, Fail> {
    assert!(rt; place < PLACES && node.child_count() == PLACES && node.len() == CAPACITY);
    let right = Node::try_inner(alloc, &mut Asked::new())?;
    let key = (place as u64).wrapping_mul(10).wrapping_add(5);
    let child = leaf(rt, alloc, &[key.wrapping_add(1)])?;
    let pair = (key, key.wrapping_mul(10));
    let (up, right) = node.split_inner(place, pair, child, right, &mut Count::new());
    Ok(are_halves(node, &up, &right, place) && are_children_of_halves(node, &right, place))
}

fn is_inner_split(rt: &impl Abort, alloc: Global, place: usize) -> Result<bool, Fail> {
    let mut node = inner(rt, alloc, &FULL, &BELOW)?;
    leaves_inner_halves(rt, alloc, &mut node, place)
}

#[test]
fn splits_an_inner_node_at_each_place(rt: HostRuntime) -> Result<(), Fail> {
    for place in 0..PLACES {
        assert!(&rt; is_inner_split(&rt, rt.alloc(), place)?);
    }
    Ok(())
}

// What moves pairs between two neighbouring children, and how many where it moves several.
#[derive(Clone, Copy)]
enum Call {
    Merge,
    StealLeft,
    StealRight,
    BulkStealLeft(usize),
    BulkStealRight(usize),
}

fn are_alike<V: Drop>(left: &Node<u64, V>, right: &Node<u64, V>) -> bool
    ensures { OnTrue result (AreAlike left.now right.now) }
{
    if left.is_leaf() {
        right.is_leaf()
    } else {
        left.child_count() == left.len() + 1 && right.child_count() == right.len() + 1
    }
}

// Makes the call on the children at the place and after it.
fn mend<V: Drop>(rt: &impl Abort, node: &mut Node<u64, V>, index: usize, call: Call) {
    let mut count = Count::new();
    assert!(rt; index < node.len() && node.child_count() == node.len() + 1);
    assert!(rt; are_alike(node.child(index), node.child(index + 1)));
    let (left, right) = (node.child(index).len(), node.child(index + 1).len());
    assert!(rt; left < CAPACITY && right < CAPACITY);
    match call {
        Call::Merge => {
            assert!(rt; left + right < CAPACITY);
            node.merge(index, &mut count);
        }
        Call::StealLeft => {
            assert!(rt; 0 < left);
            node.steal_left(index, &mut count);
        }
        Call::StealRight => {
            assert!(rt; 0 < right);
            node.steal_right(index, &mut count);
        }
        Call::BulkStealLeft(n) => {
            assert!(rt; 1 <= n && n <= left && n <= CAPACITY - right);
            node.bulk_steal_left(index, n, &mut count);
        }
        Call::BulkStealRight(n) => {
            assert!(rt; 1 <= n && n <= right && n <= CAPACITY - left);
            node.bulk_steal_right(index, n, &mut count);
        }
    }
}

// A call on a node over leaves, the leaves' keys before it, and the node's keys and the leaves' after it. Before it the node
// has the keys 70 and 140, or 70 alone over two leaves.
#[derive(Drop)]
struct Row {
    call: Call,
    index: usize,
    before: &'static [&'static [u64]],
    keys: &'static [u64],
    after: &'static [&'static [u64]],
}

const LOW: &[u64] = &[10, 20, 30, 40, 50, 60];

const LOW_AND_65: &[u64] = &[10, 20, 30, 40, 50, 60, 65];

const MIDDLE: &[u64] = &[80, 90, 100, 110, 120, 130];

const MIDDLE_AND_75: &[u64] = &[75, 80, 90, 100, 110, 120, 130];

const MIDDLE_AND_135: &[u64] = &[80, 90, 100, 110, 120, 130, 135];

const HIGH: &[u64] = &[150, 160, 170, 180, 190, 200];

const HIGH_AND_145: &[u64] = &[145, 150, 160, 170, 180, 190, 200];

fn row_of_one_pair(number: usize) -> Row {
    match number {
        0 => Row {
            call: Call::Merge,
            index: 0,
            before: &[LOW, MIDDLE, HIGH],
            keys: &[140],
            after: &[
                &[10, 20, 30, 40, 50, 60, 70, 80, 90, 100, 110, 120, 130],
                HIGH,
            ],
        },
        1 => Row {
            call: Call::Merge,
            index: 1,
            before: &[LOW, MIDDLE, HIGH],
            keys: &[70],
            after: &[
                LOW,
                &[
                    80, 90, 100, 110, 120, 130, 140, 150, 160, 170, 180, 190, 200,
                ],
            ],
        },
        2 => Row {
            call: Call::StealLeft,
            index: 0,
            before: &[LOW_AND_65, MIDDLE_AND_135, HIGH],
            keys: &[65, 140],
            after: &[LOW, &[70, 80, 90, 100, 110, 120, 130, 135], HIGH],
        },
        3 => Row {
            call: Call::StealLeft,
            index: 1,
            before: &[LOW_AND_65, MIDDLE_AND_135, HIGH],
            keys: &[70, 135],
            after: &[LOW_AND_65, MIDDLE, &[140, 150, 160, 170, 180, 190, 200]],
        },
        4 => Row {
            call: Call::StealRight,
            index: 0,
            before: &[LOW, MIDDLE_AND_75, HIGH_AND_145],
            keys: &[75, 140],
            after: &[&[10, 20, 30, 40, 50, 60, 70], MIDDLE, HIGH_AND_145],
        },
        _ => Row {
            call: Call::StealRight,
            index: 1,
            before: &[LOW, MIDDLE_AND_75, HIGH_AND_145],
            keys: &[70, 145],
            after: &[LOW, &[75, 80, 90, 100, 110, 120, 130, 140], HIGH],
        },
    }
}

fn row_of_several_pairs(left: bool) -> Row {
    if left {
        Row {
            call: Call::BulkStealLeft(5),
            index: 0,
            before: &[LOW, MIDDLE],
            keys: &[20],
            after: &[&[10], &[30, 40, 50, 60, 70, 80, 90, 100, 110, 120, 130]],
        }
    } else {
        Row {
            call: Call::BulkStealRight(5),
            index: 0,
            before: &[LOW, MIDDLE],
            keys: &[120],
            after: &[&[10, 20, 30, 40, 50, 60, 70, 80, 90, 100, 110], &[130]],
        }
    }
}

// Whether the call leaves what the row says.
fn is_mended(rt: &impl Abort, alloc: Global, keys: &[u64], row: &Row) -> Result<bool, Fail> {
    let mut node = family(rt, alloc, keys, row.before)?;
    mend(rt, &mut node, row.index, row.call);
    Ok(shows(&node, row.keys) && leaves_show(&node, row.after))
}

#[test]
fn merges_leaves_and_steals_from_either_side_at_both_ends(rt: HostRuntime) -> Result<(), Fail> {
    for number in 0..6usize {
        assert!(&rt; is_mended(&rt, rt.alloc(), &[70, 140], &row_of_one_pair(number))?);
    }
    Ok(())
}

#[test]
fn steals_several_from_either_side(rt: HostRuntime) -> Result<(), Fail> {
    for left in [true, false] {
        assert!(&rt; is_mended(&rt, rt.alloc(), &[70], &row_of_several_pairs(left))?);
    }
    Ok(())
}

// A node of one key, 30, over two inner nodes of two keys each.
fn three_levels(rt: &impl Abort, alloc: Global) -> Result<Node<u64, u64>, Fail> {
    let mut node = Node::try_inner(alloc, &mut Asked::new())?;
    node.adopt(inner(rt, alloc, &[10, 20], &[1, 11, 21])?);
    let right = inner(rt, alloc, &[40, 50], &[31, 41, 51])?;
    push_child(rt, &mut node, 30, 300, right);
    Ok(node)
}

// What a call leaves: the parent's keys, and the keys and children of its first and second child.
#[derive(Drop)]
struct Grandchildren {
    call: Call,
    keys: &'static [u64],
    first: &'static [u64],
    below_first: &'static [u64],
    second: &'static [u64],
    below_second: &'static [u64],
}

fn row_of_grandchildren(number: usize) -> Grandchildren {
    match number {
        0 => Grandchildren {
            call: Call::Merge,
            keys: &[],
            first: &[10, 20, 30, 40, 50],
            below_first: &[1, 11, 21, 31, 41, 51],
            second: &[],
            below_second: &[],
        },
        1 => Grandchildren {
            call: Call::StealLeft,
            keys: &[20],
            first: &[10],
            below_first: &[1, 11],
            second: &[30, 40, 50],
            below_second: &[21, 31, 41, 51],
        },
        2 => Grandchildren {
            call: Call::StealRight,
            keys: &[40],
            first: &[10, 20, 30],
            below_first: &[1, 11, 21, 31],
            second: &[50],
            below_second: &[41, 51],
        },
        3 => Grandchildren {
            call: Call::BulkStealLeft(2),
            keys: &[10],
            first: &[],
            below_first: &[1],
            second: &[20, 30, 40, 50],
            below_second: &[11, 21, 31, 41, 51],
        },
        _ => Grandchildren {
            call: Call::BulkStealRight(2),
            keys: &[50],
            first: &[10, 20, 30, 40],
            below_first: &[1, 11, 21, 31, 41],
            second: &[],
            below_second: &[51],
        },
    }
}

// Whether the node has such a child, which holds these keys over leaves of one key each.
fn child_shows(node: &Node<u64, u64>, index: usize, keys: &[u64], below: &[u64]) -> bool {
    index < node.child_count()
        && shows(node.child(index), keys)
        && children_show(node.child(index), below)
}

fn grandchildren_show(node: &Node<u64, u64>, row: &Grandchildren) -> bool {
    shows(node, row.keys)
        && node.child_count() == row.keys.len() + 1
        && child_shows(node, 0, row.first, row.below_first)
        && (row.keys.is_empty() || child_shows(node, 1, row.second, row.below_second))
}

#[test]
fn children_go_with_their_pairs(rt: HostRuntime) -> Result<(), Fail> {
    for number in 0..5usize {
        let mut node = three_levels(&rt, rt.alloc())?;
        let row = row_of_grandchildren(number);
        mend(&rt, &mut node, 0, row.call);
        assert!(&rt; grandchildren_show(&node, &row));
    }
    Ok(())
}

// Moves what stands after the first pair.
fn move_after_first<V: Drop>(rt: &impl Abort, node: &mut Node<u64, V>, other: &mut Node<u64, V>) {
    assert!(rt; are_alike(node, other));
    assert!(rt; 1 <= node.len() && node.len() <= CAPACITY && other.len() <= 1);
    node.move_suffix(1, other, &mut Count::new());
}

fn are_leaves(node: &Node<u64, u64>, keys: &[u64], other: &Node<u64, u64>, moved: &[u64]) -> bool {
    node.is_leaf() && other.is_leaf() && shows(node, keys) && shows(other, moved)
}

fn moves_between_leaves(rt: &impl Abort, alloc: Global) -> Result<bool, Fail> {
    let mut node = leaf(rt, alloc, LOW)?;
    let mut other = leaf(rt, alloc, &[5])?;
    move_after_first(rt, &mut node, &mut other);
    Ok(are_leaves(&node, &[10], &other, &[5, 20, 30, 40, 50, 60]))
}

fn is_inner(node: &Node<u64, u64>, keys: &[u64], below: &[u64]) -> bool {
    shows(node, keys) && children_show(node, below)
}

fn moves_between_inner_nodes(rt: &impl Abort, alloc: Global) -> Result<bool, Fail> {
    let mut node = inner(rt, alloc, &[10, 20, 30], &[1, 11, 21, 31])?;
    let mut other = inner(rt, alloc, &[], &[15])?;
    move_after_first(rt, &mut node, &mut other);
    Ok(is_inner(&node, &[10], &[1, 11]) && is_inner(&other, &[20, 30], &[15, 21, 31]))
}

#[test]
fn moves_what_stands_after_a_place(rt: HostRuntime) -> Result<(), Fail> {
    assert!(&rt; moves_between_leaves(&rt, rt.alloc())?);
    assert!(&rt; moves_between_inner_nodes(&rt, rt.alloc())?);
    Ok(())
}

#[test]
fn takes_out_and_replaces_a_pair(rt: HostRuntime) -> Result<(), Fail> {
    let mut count = Count::new();
    let mut node = leaf(&rt, rt.alloc(), LOW)?;
    assert!(&rt; node.is_leaf() && node.len() == 6);
    let gone = node.remove_leaf(1, &mut count);
    assert!(&rt; is_tenfold(&gone, 20) && shows(&node, &[10, 30, 40, 50, 60]));
    assert!(&rt; node.len() == 5);
    let old = node.replace_pair(4, (65, 650), &mut count);
    assert!(&rt; is_tenfold(&old, 60) && shows(&node, &[10, 30, 40, 50, 65]));
    Ok(())
}

// A leaf of `n` pairs from `first` on, whose values count their drops.
fn tokens<'a>(
    rt: &impl Abort,
    alloc: Global,
    first: u64,
    n: u64,
    tally: &'a Tally,
) -> Result<Node<u64, Token<'a>>, TryReserveError> {
    let mut node = Node::try_leaf(alloc, &mut Asked::new())?;
    for i in 0..n {
        push(rt, &mut node, first.wrapping_add(i), Token::new(i, tally));
    }
    Ok(node)
}

#[test]
fn a_split_drops_no_pair(rt: HostRuntime) -> Result<(), Fail> {
    let tally = Tally::new();
    let mut node = tokens(&rt, rt.alloc(), 0, CAPACITY as u64, &tally)?;
    let right = Node::try_leaf(rt.alloc(), &mut Asked::new())?;
    let pair = (CAPACITY as u64, Token::new(7, &tally));
    let (up, right) = split_leaf(&rt, &mut node, CAPACITY, pair, right);
    let of_none = tally.dropped.get();
    drop(up);
    let of_middle = tally.dropped.get();
    drop(node);
    let of_left = tally.dropped.get();
    drop(right);
    // The pair goes to the right half, so the left one has one more than the fewest.
    assert!(&rt; of_none == 0 && of_middle == 1 && of_left == of_middle + MIN_LEN as u64 + 1);
    assert!(&rt; tally.dropped.get() == PLACES as u64);
    Ok(())
}

// A node over leaves of 6 and 7 pairs.
fn fourteen_pairs<'a>(
    rt: &impl Abort,
    alloc: Global,
    tally: &'a Tally,
) -> Result<Node<u64, Token<'a>>, TryReserveError> {
    let mut node = Node::try_inner(alloc, &mut Asked::new())?;
    node.adopt(tokens(rt, alloc, 0, 6, tally)?);
    let right = tokens(rt, alloc, 7, 7, tally)?;
    push_child(rt, &mut node, 6, Token::new(7, tally), right);
    Ok(node)
}

fn call_of(number: usize) -> Call {
    match number {
        0 => Call::Merge,
        1 => Call::StealLeft,
        2 => Call::StealRight,
        3 => Call::BulkStealLeft(3),
        _ => Call::BulkStealRight(3),
    }
}

// The fourteen pairs are dropped with the node, and none before.
#[test]
fn a_merge_and_thefts_drop_no_pair(rt: HostRuntime) -> Result<(), Fail> {
    for number in 0..5usize {
        let tally = Tally::new();
        let mut node = fourteen_pairs(&rt, rt.alloc(), &tally)?;
        mend(&rt, &mut node, 0, call_of(number));
        let before = tally.dropped.get();
        drop(node);
        assert!(&rt; before == 0 && tally.dropped.get() == 14);
    }
    Ok(())
}

fn has_one_child_alone<V: Drop>(node: &Node<u64, V>) -> bool {
    node.child_count() == 1 && !node.is_leaf() && node.len() == 0
}

// An inner node over two leaves of one pair, with the number of the pairs that were made.
fn one_of_each(
    rt: &impl Abort,
    alloc: Global,
    tally: &Tally,
    made: &mut u64,
) -> Result<(), TryReserveError> {
    let below = tokens(rt, alloc, 0, 1, tally)?;
    *made = 1;
    let mut node = Node::try_inner(alloc, &mut Asked::new())?;
    node.adopt(below);
    assert!(rt; has_one_child_alone(&node));
    let right = tokens(rt, alloc, 2, 1, tally)?;
    *made = 2;
    push_child(rt, &mut node, 1, Token::new(7, tally), right);
    *made = 3;
    Ok(())
}

// With a request refused, it ends as well: what was made is dropped, each pair once.
#[test]
fn makes_an_inner_node(rt: HostRuntime) {
    let tally = Tally::new();
    let mut made = 0;
    match one_of_each(&rt, rt.alloc(), &tally, &mut made) {
        Ok(()) => assert!(&rt; made == 3),
        Err(refused) => assert!(&rt; matches!(refused, TryReserveError::AllocError)),
    }
    assert!(&rt; tally.dropped.get() == made);
}
