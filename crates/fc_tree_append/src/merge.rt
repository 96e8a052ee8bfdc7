//! The pairs of two ascending trees in one, by one comparison a step, in the leaves of both.
ghost use Rattle.std.specs.Prelude.{◌≡◌, ℕ, ◌+◌, ◌-◌, ◌*◌, ◌<◌, ◌≤◌, [], ◌∷◌, ◌++◌, length, min};
ghost use Rattle.fc_base.specs.Ascending.{IsAscending};
ghost use Rattle.fc_base.specs.Joined.{joined};
ghost use Rattle.fc_base.specs.Sizes.{capacity, most_children};
ghost use Rattle.fc_tree_node.specs.Blocks.{blocks_in};
ghost use Rattle.fc_tree_node.specs.Tree.{entries, IsSoundMap};
ghost use Rattle.fc_tree_drain.specs.LeafFront.{IsOpenLeaf};
ghost use Rattle.fc_tree_append.specs.Reused.{HasRoom};

use fc_base::{Count, Handle, compare};
use fc_tree_build::builder::Builder;
use fc_tree_drain::leaf_front::LeafFront;
use fc_tree_node::node::Node;
use std::cmp::Ordering;

/// Merges two trees: the pairs of both in ascending order, and how many they are; of two equal keys the pair of `theirs` stays,
/// and ours is dropped. A leaf of theirs or ours that is used up is filled anew, so that two more are enough. A key is compared once for
/// each pair that is put in, until either tree has no more: never for the last one, and at least as often as the shorter has pairs.
pub(crate) fn merge<K: Ord + Drop, V: Drop, A: Handle>(
    ours: Option<Node<K, V, A>>,
    theirs: Option<Node<K, V, A>>,
    builder: Builder<K, V, A>,
    count: &mut Count,
) -> (Option<Node<K, V, A>>, usize)
    requires some { (0 < length (entries ours)) × (0 < length (entries theirs)) }
    requires sound { IsSoundMap ours × IsSoundMap theirs }
    requires order { IsAscending K.cmp (entries ours) × IsAscending K.cmp (entries theirs) }
    requires empty { builder.pairs ≡ [] }
    requires limit { length (entries ours) + length (entries theirs) ≤ builder.limit }
    requires room { min builder.limit (2 * most_children - 1) ≤ builder.room }
    ensures pairs { entries result.0 ≡ joined K.cmp (entries ours) (entries theirs) }
    ensures sound { IsSoundMap result.0 }
    ensures len { result.1 ≡ length (entries result.0) }
    ensures comparisons { count.new.comparisons < count.old.comparisons + (length (entries ours) + length (entries theirs)) }
    ensures least { count.old.comparisons + min (length (entries ours)) (length (entries theirs)) ≤ count.new.comparisons }
    ensures moves { count.new.moves ≡ count.old.moves }
    ensures blocks { blocks_in result.0 ≤ builder.blocks + blocks_in ours + blocks_in theirs }
{
    let mut builder = builder;
    let limit = builder.limit();
    let mut our_pairs = LeafFront::over(ours);
    let mut their_pairs = LeafFront::over(theirs);
    while !our_pairs.is_empty() && !their_pairs.is_empty() {
        step(&mut our_pairs, &mut their_pairs, &mut builder, count);
    }
    push_all(&mut our_pairs, &mut builder);
    push_all(&mut their_pairs, &mut builder);
    let len = limit - builder.limit();
    (builder.finish(), len)
}

// Puts the smaller one of two first pairs into the builder, and of two equal keys theirs.
fn step<K: Ord + Drop, V: Drop, A: Handle>(
    ours: &mut LeafFront<K, V, A>,
    theirs: &mut LeafFront<K, V, A>,
    builder: &mut Builder<K, V, A>,
    count: &mut Count,
)
    requires some { (0 < length ours.old.pairs) × (0 < length theirs.old.pairs) }
    requires order { IsAscending K.cmp ours.old.pairs × IsAscending K.cmp theirs.old.pairs }
    requires room { HasRoom ours.old theirs.old builder.old }
    ensures order { IsAscending K.cmp ours.new.pairs × IsAscending K.cmp theirs.new.pairs }
    ensures room { HasRoom ours.new theirs.new builder.new }
    ensures pairs { builder.new.pairs ++ joined K.cmp ours.new.pairs theirs.new.pairs ≡ builder.old.pairs ++ joined K.cmp ours.old.pairs theirs.old.pairs }
    ensures fewer { length ours.new.pairs + length theirs.new.pairs < length ours.old.pairs + length theirs.old.pairs }
    ensures filled { length builder.new.pairs + builder.new.limit ≡ length builder.old.pairs + builder.old.limit }
    ensures taken { (length ours.old.pairs ≤ length ours.new.pairs + 1) × (length theirs.old.pairs ≤ length theirs.new.pairs + 1) }
    ensures comparisons { count.new.comparisons ≡ count.old.comparisons + 1 }
    ensures moves { count.new.moves ≡ count.old.moves }
    ensures blocks { builder.new.blocks + ours.new.blocks + theirs.new.blocks ≤ builder.old.blocks + ours.old.blocks + theirs.old.blocks }
{
    match compare(&ours.first().0, &theirs.first().0, count) {
        Ordering::Less => {
            let pair = next(ours, builder);
            builder.push(pair);
        }
        Ordering::Equal => {
            drop(next(ours, builder));
            let pair = next(theirs, builder);
            builder.push(pair);
        }
        Ordering::Greater => {
            let pair = next(theirs, builder);
            builder.push(pair);
        }
    }
}

// Puts all pairs that are left into the builder.
fn push_all<K: Drop, V: Drop, A: Handle>(
    pairs: &mut LeafFront<K, V, A>,
    builder: &mut Builder<K, V, A>,
)
    requires leaf { IsOpenLeaf pairs.old }
    requires limit { length pairs.old.pairs ≤ builder.old.limit }
    requires room { pairs.old.in_leaf ≤ builder.old.room }
    ensures pairs { builder.new.pairs ≡ builder.old.pairs ++ pairs.old.pairs }
    ensures filled { length builder.new.pairs + builder.new.limit ≡ length builder.old.pairs + builder.old.limit }
    ensures room { (other : ℕ) → other ≤ capacity → length pairs.old.pairs + other ≤ builder.old.limit → pairs.old.in_leaf + other ≤ builder.old.room → other ≤ builder.new.room }
    ensures blocks { builder.new.blocks ≤ builder.old.blocks + pairs.old.blocks }
{
    while !pairs.is_empty() {
        let pair = next(pairs, builder);
        builder.push(pair);
    }
}

// Takes the first pair out. Where the open leaf is used up, it goes to the builder, so that there is room for the pair, for the rest of
// the next leaf, and for the rest of another one as before.
#[inline(always)]
fn next<K: Drop, V: Drop, A: Handle>(
    pairs: &mut LeafFront<K, V, A>,
    builder: &mut Builder<K, V, A>,
) -> (K, V)
    requires some { 0 < length pairs.old.pairs }
    requires leaf { IsOpenLeaf pairs.old }
    ensures pairs { pairs.old.pairs ≡ result ∷ pairs.new.pairs }
    ensures leaf { IsOpenLeaf pairs.new }
    ensures kept { builder.new.pairs ≡ builder.old.pairs }
    ensures limit { builder.new.limit ≡ builder.old.limit }
    ensures room { (other : ℕ) → other ≤ capacity → length pairs.old.pairs + other ≤ builder.old.limit → pairs.old.in_leaf + other ≤ builder.old.room → pairs.new.in_leaf + other < builder.new.room }
    ensures blocks { builder.new.blocks + pairs.new.blocks ≤ builder.old.blocks + pairs.old.blocks }
{
    if pairs.in_leaf() > 0 {
        return pairs.next_in_leaf();
    }
    let (pair, leaf) = pairs.next_leaf();
    builder.give_leaf(leaf);
    pair
}
