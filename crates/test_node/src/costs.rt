//! How many moves calls on lists of given lengths make: numbers, proved from the contracts of the calls.
ghost use Rattle.std.specs.Prelude.{◌≡◌, ◌+◌, ◌-◌, ◌<◌, ◌≤◌, [], length};
ghost use Rattle.fc_base.specs.Sizes.{capacity, min_len, level_moves};
ghost use Rattle.fc_tree_node.specs.Node.{own_pairs, child_at, IsLeaf, IsInner, IsEmptyLeaf};
ghost use Rattle.fc_tree_node.specs.Siblings.{AreAlike};

use fc_base::Count;
use fc_tree_node::node::{CAPACITY, Node};
use fc_tree_slots::slots::Slots;

/// An insertion at 3 into 7 items, a length by number, makes 5 moves.
pub fn insert_at_three_of_seven<T: Drop>(list: &mut Slots<T, CAPACITY>, item: T) -> Count
    requires { length list.old ≡ 7 }
    ensures { result.moves ≡ 5 }
{
    let mut count = Count::new();
    list.insert(3, item, &mut count);
    count
}

/// An item put after 7, a length by number, makes 1 move.
pub fn push_after_seven<T>(list: &mut Slots<T, CAPACITY>, item: T) -> Count
    requires { length list.old ≡ 7 }
    ensures { result.moves ≡ 1 }
{
    let mut count = Count::new();
    list.push(item, &mut count);
    count
}

/// The removal at 3 of 7 items, a length by number, makes 4 moves.
pub fn remove_at_three_of_seven<T: Drop>(list: &mut Slots<T, CAPACITY>) -> Count
    requires { length list.old ≡ 7 }
    ensures { result.moves ≡ 4 }
{
    let mut count = Count::new();
    drop(list.remove(3, &mut count));
    count
}

/// To move the items from 7 on, of 11, makes 4 moves.
pub fn move_from_seven_of_eleven<T: Drop>(
    list: &mut Slots<T, CAPACITY>,
    other: &mut Slots<T, CAPACITY>,
) -> Count
    requires eleven { length list.old ≡ 11 }
    requires room { length other.old ≤ 11 }
    ensures { result.moves ≡ 4 }
{
    let mut count = Count::new();
    list.move_tail(7, other, &mut count);
    count
}

/// To move the items from 7 on, of a full list, makes 8 moves; the room for them is told by number.
pub fn move_from_seven_of_full<T: Drop>(
    list: &mut Slots<T, CAPACITY>,
    other: &mut Slots<T, CAPACITY>,
) -> Count
    requires full { length list.old ≡ capacity }
    requires room { length other.old ≤ 7 }
    ensures { result.moves ≡ 8 }
{
    let mut count = Count::new();
    list.move_tail(7, other, &mut count);
    count
}

/// To move the first 2 of 8 items, a length by number, makes 8 moves.
pub fn move_first_two_of_eight<T: Drop>(
    list: &mut Slots<T, CAPACITY>,
    other: &mut Slots<T, CAPACITY>,
) -> Count
    requires eight { length list.old ≡ 8 }
    requires room { length other.old ≤ 13 }
    ensures { result.moves ≡ 8 }
{
    let mut count = Count::new();
    list.move_front(2, other, &mut count);
    count
}

/// To move the last 3 items to the front of a list of 4 makes 7 moves.
pub fn move_last_three_before_four<T: Drop>(
    list: &mut Slots<T, CAPACITY>,
    other: &mut Slots<T, CAPACITY>,
) -> Count
    requires some { 3 ≤ length list.old }
    requires four { length other.old ≡ 4 }
    ensures { result.moves ≡ 7 }
{
    let mut count = Count::new();
    list.move_back(3, other, &mut count);
    count
}

/// The split of a full node makes 16, 9, 16, 14 or 8 moves where the new pair goes before all pairs, before the middle one,
/// after it, one further on, or after all.
pub fn split_full<K: Drop, V: Drop>(
    node: &mut Node<K, V>,
    index: usize,
    pair: (K, V),
    right: Node<K, V>,
) -> Count
    requires full { length (own_pairs node.old) ≡ capacity }
    requires in_bounds { index ≤ capacity }
    requires leaf { IsLeaf node.old }
    requires empty { IsEmptyLeaf right }
    ensures first { index ≡ 0 → result.moves ≡ 16 }
    ensures before_middle { index ≡ min_len → result.moves ≡ 9 }
    ensures after_middle { index ≡ min_len + 1 → result.moves ≡ 16 }
    ensures two_after_middle { index ≡ min_len + 2 → result.moves ≡ 14 }
    ensures last { index ≡ capacity → result.moves ≡ 8 }
{
    let mut count = Count::new();
    let (_up, _right) = node.split_leaf(index, pair, right, &mut count);
    count
}

/// A theft from the left into a node that is one pair short makes 10 moves.
pub fn steal_left_into_short<K: Drop, V: Drop>(node: &mut Node<K, V>, index: usize) -> Count
    requires in_bounds { index < length (own_pairs node.old) }
    requires inner { IsInner node.old }
    requires alike { AreAlike (child_at node.old index) (child_at node.old (index + 1)) }
    requires some { 0 < length (own_pairs (child_at node.old index)) }
    requires short { length (own_pairs (child_at node.old (index + 1))) ≡ min_len - 1 }
    ensures { result.moves ≡ 10 }
{
    let mut count = Count::new();
    node.steal_left(index, &mut count);
    count
}

/// A theft from the right, of a full node, into one that is one pair short makes 18 moves.
pub fn steal_right_of_full<K: Drop, V: Drop>(node: &mut Node<K, V>, index: usize) -> Count
    requires in_bounds { index < length (own_pairs node.old) }
    requires inner { IsInner node.old }
    requires alike { AreAlike (child_at node.old index) (child_at node.old (index + 1)) }
    requires full { length (own_pairs (child_at node.old (index + 1))) ≡ capacity }
    requires short { length (own_pairs (child_at node.old index)) ≡ min_len - 1 }
    ensures { result.moves ≡ 18 }
{
    let mut count = Count::new();
    node.steal_right(index, &mut count);
    count
}

/// A merge makes at most the moves of a level where the parent is full, the child that takes it is one pair short and its sibling
/// has at most one more than the fewest.
pub fn merge_short_and_spare<K: Drop, V: Drop>(node: &mut Node<K, V>, index: usize) -> Count
    requires in_bounds { index < length (own_pairs node.old) }
    requires fits { length (own_pairs node.old) ≤ capacity }
    requires inner { IsInner node.old }
    requires alike { AreAlike (child_at node.old index) (child_at node.old (index + 1)) }
    requires short { length (own_pairs (child_at node.old index)) ≡ min_len - 1 }
    requires spare { length (own_pairs (child_at node.old (index + 1))) ≤ min_len + 1 }
    ensures { result.moves ≤ level_moves }
{
    let mut count = Count::new();
    node.merge(index, &mut count);
    count
}
