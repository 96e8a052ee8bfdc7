//! Bounds of maps of few pairs, and of one whose nodes the sweep counts.
ghost use Rattle.std.specs.Prelude.{ℕ, ◌*◌, ◌+◌, ◌≤◌, length};
ghost use Rattle.fc_map.specs.Entries.{entries};
ghost use Rattle.fc_laws.specs.Held.{nodes_in, bytes_in};

use fc_laws::{held_within, most_bytes, most_inner_nodes, most_nodes};
use fc_map::map::BTreeMap;
use fc_tree_node::node::{CAPACITY, Node};
use std::mem::size_of;
use std::test::Fail;

// A map of at most seven pairs is one node, and one of at most 170 has no more bytes than the test below tells.
fn is_small(map: &BTreeMap<u64, u64>) -> bool
    requires { length (entries map.now) ≤ 7 }
    ensures nodes { nodes_in map.now ≤ 1 }
    ensures bytes { bytes_in 240 640 map.now ≤ 7920 }
{
    held_within(map);
    map.len() < 8
}

// Of no pair there is no node. Fifteen pairs may lie in three nodes, a root of one pair over two leaves of seven each. The sweep counts 22 nodes of 170
// pairs that were put in as they ascend, three of them inner ones; there may be 25, as where each leaf has seven pairs.
#[test]
fn bounds_are_as_counted(rt: HostRuntime) {
    let mut seen = [(0, 0); 7];
    for i in 0..7 {
        let pairs = [0, 1, 7, 8, 14, 15, 170][i];
        seen[i] = (most_nodes(pairs), most_inner_nodes(pairs));
    }
    assert_eq!(rt;
        seen,
        [(0, 0), (1, 0), (1, 0), (2, 0), (2, 0), (3, 1), (25, 3)]
    );
    let map = BTreeMap::new(rt.alloc());
    assert!(rt; is_small(&map));
}

#[test]
fn bytes_are_told_where_a_number_can(rt: HostRuntime) {
    let pairs = size_of::<(u64, u64)>().wrapping_mul(CAPACITY);
    let children = size_of::<Node<u64, u64>>().wrapping_mul(16);
    assert_eq!(rt; (pairs, children), (240, 640));
    assert_eq!(rt; most_bytes(170, pairs, children), Some(25 * 240 + 3 * 640));
    assert_eq!(rt;
        (most_bytes(usize::MAX, 1, 0), most_bytes(usize::MAX, 8, 0)),
        (Some(usize::MAX / 7 + 1), None)
    );
}
