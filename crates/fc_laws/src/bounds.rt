//! The most nodes of a map of so many pairs, and the most bytes: however the map came to be, by insertions, removals, cuts, or two made one.
ghost use Rattle.std.specs.Prelude.{◌≡◌, ℕ, ◌+◌, ◌*◌, ◌^◌, ◌<◌, ◌≤◌, length, SomeIff};
ghost use Rattle.fc_map.specs.Entries.{entries};
ghost use Rattle.fc_tree_node.specs.Blocks.{blocks_in};
ghost use Rattle.fc_laws.specs.Held as held;

use fc_base::Handle;
use fc_map::map::BTreeMap;

/// The most nodes of a map of so many pairs. Each has one block, for its pairs.
pub fn most_nodes(pairs: usize) -> usize
    ensures { result ≡ held.most_nodes pairs }
{
    pairs.div_ceil(7)
}

/// How many of the nodes of a map of so many pairs are inner nodes at the most. Each has one block more, for its children.
pub fn most_inner_nodes(pairs: usize) -> usize
    ensures { result ≡ held.most_inner pairs }
{
    (most_nodes(pairs) + 5) / 8
}

/// The most bytes of the blocks of a map of so many pairs, whose nodes have `pair_room` bytes for their pairs, and `child_room` more where they have children:
/// 15 times the bytes of a pair, and 16 times those of a node. `None` where these are more than a `usize` can say.
pub fn most_bytes(pairs: usize, pair_room: usize, child_room: usize) -> Option<usize>
    ensures { SomeIff result (held.most_bytes pair_room child_room pairs < 2 ^ 64) (held.most_bytes pair_room child_room pairs) }
{
    let of_pairs = most_nodes(pairs).checked_mul(pair_room)?;
    let of_children = most_inner_nodes(pairs).checked_mul(child_room)?;
    of_pairs.checked_add(of_children)
}

/// Says nothing but what holds of each map: a proof that has such a map calls it.
pub fn held_within<K: Ord, V, A: Handle>(map: &BTreeMap<K, V, A>)
    ensures nodes { 7 * held.nodes_in map.now ≤ length (entries map.now) + 6 }
    ensures inner { 8 * held.inner_in map.now ≤ held.nodes_in map.now + 5 }
    ensures blocks { blocks_in map.now ≡ held.nodes_in map.now + held.inner_in map.now }
    ensures bytes { (p c n : ℕ) → length (entries map.now) ≤ n → held.bytes_in p c map.now ≤ held.most_bytes p c n }
{
    let _len = map.len();
}
