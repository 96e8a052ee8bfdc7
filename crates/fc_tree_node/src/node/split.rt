//! Insertion into one node, and the split of a full one.
ghost use Rattle.std.specs.Prelude.{◌≡◌, ◌+◌, ◌-◌, ◌<◌, ◌≤◌, [], ◌∷◌, ◌++◌, length, insert};
ghost use Rattle.fc_base.specs.Sizes.{capacity, most_children};
ghost use Rattle.fc_tree_node.specs.Node.{own_pairs, children_of, child_at, pairs_of, IsLeaf, IsInner, IsEmptyLeaf, IsEmptyInner};
ghost use Rattle.fc_tree_node.specs.Path.{before_gap, after_gap};
ghost use Rattle.fc_tree_node.specs.Split.{middle_place, left_length, split_moves};

use super::{CAPACITY, MIN_LEN, Node};
use fc_base::{Count, Handle};
use fc_tree_slots::children::Children;
use fc_tree_slots::slots::Slots;

impl<K: Drop, V: Drop, A: Handle> Node<K, V, A> {
    /// Puts `pair` at `index` of a leaf that has room. It takes no memory.
    pub fn insert_leaf(&mut self, index: usize, pair: (K, V), count: &mut Count)
        requires in_bounds { index ≤ length (own_pairs self.old) }
        requires room { length (own_pairs self.old) < capacity }
        requires leaf { IsLeaf self.old }
        ensures pairs { own_pairs self.new ≡ insert (own_pairs self.old) index pair }
        ensures leaf { IsLeaf self.new }
        ensures all_pairs { pairs_of self.new ≡ insert (pairs_of self.old) index pair }
        ensures moves { count.new.moves ≡ count.old.moves + (length (own_pairs self.old) - index + 1) }
        ensures comparisons { count.new.comparisons ≡ count.old.comparisons }
    {
        self.pairs.insert(index, pair, count);
    }

    /// Puts the first child into an inner node that holds nothing yet. It takes no memory.
    pub fn adopt(&mut self, child: Node<K, V, A>)
        requires empty { IsEmptyInner self.old }
        ensures pairs { own_pairs self.new ≡ [] }
        ensures children { children_of self.new ≡ child ∷ [] }
        ensures inner { IsInner self.new }
        ensures all_pairs { pairs_of self.new ≡ pairs_of child }
    {
        match &mut self.children {
            None => unreachable!(),
            Some(children) => children.insert(0, child),
        }
    }

    /// Puts `pair` at `index` of an inner node that has room, and `child` on the pair's right. It takes no memory.
    pub fn insert_inner(
        &mut self,
        index: usize,
        pair: (K, V),
        child: Node<K, V, A>,
        count: &mut Count,
    )
        requires in_bounds { index ≤ length (own_pairs self.old) }
        requires room { length (own_pairs self.old) < capacity }
        requires inner { IsInner self.old }
        ensures pairs { own_pairs self.new ≡ insert (own_pairs self.old) index pair }
        ensures children { children_of self.new ≡ insert (children_of self.old) (index + 1) child }
        ensures inner { IsInner self.new }
        ensures all_pairs { pairs_of self.new ≡ before_gap (index ∷ []) self.old ++ (pairs_of (child_at self.old index) ++ pair ∷ (pairs_of child ++ after_gap (index ∷ []) self.old)) }
        ensures moves { count.new.moves ≡ count.old.moves + (length (own_pairs self.old) - index + 1) }
        ensures comparisons { count.new.comparisons ≡ count.old.comparisons }
    {
        let Node { pairs, children } = self;
        let Some(children) = children else {
            unreachable!()
        };
        pairs.insert(index, pair, count);
        children.insert(index + 1, child);
    }

    /// Puts `pair` at `index` of a full leaf, which is split: `right` takes the pairs after the middle one, and both
    /// the middle pair and the right node are handed out.
    pub fn split_leaf(
        &mut self,
        index: usize,
        pair: (K, V),
        right: Node<K, V, A>,
        count: &mut Count,
    ) -> ((K, V), Node<K, V, A>)
        requires full { length (own_pairs self.old) ≡ capacity }
        requires in_bounds { index ≤ capacity }
        requires leaf { IsLeaf self.old }
        requires empty { IsEmptyLeaf right }
        ensures pairs { own_pairs self.new ++ result.0 ∷ own_pairs result.1 ≡ insert (own_pairs self.old) index pair }
        ensures left { length (own_pairs self.new) ≡ left_length index }
        ensures right { length (own_pairs result.1) ≡ capacity - left_length index }
        ensures leaves { IsLeaf self.new × IsLeaf result.1 }
        ensures all_pairs { pairs_of self.new ++ result.0 ∷ pairs_of result.1 ≡ insert (pairs_of self.old) index pair }
        ensures moves { count.new.moves ≡ count.old.moves + split_moves index }
        ensures comparisons { count.new.comparisons ≡ count.old.comparisons }
    {
        let mut right = right;
        let other: &mut Node<K, V, A> = &mut right;
        let up = split_pairs(&mut self.pairs, &mut other.pairs, index, pair, count);
        (up, right)
    }

    /// Puts `pair` at `index` of a full inner node with `child` on the pair's right, and splits the node: `right` takes
    /// the pairs and children after the middle pair, and both the middle pair and the right node are handed out.
    pub fn split_inner(
        &mut self,
        index: usize,
        pair: (K, V),
        child: Node<K, V, A>,
        right: Node<K, V, A>,
        count: &mut Count,
    ) -> ((K, V), Node<K, V, A>)
        requires full { length (own_pairs self.old) ≡ capacity }
        requires in_bounds { index ≤ capacity }
        requires inner { IsInner self.old }
        requires empty { IsEmptyInner right }
        ensures pairs { own_pairs self.new ++ result.0 ∷ own_pairs result.1 ≡ insert (own_pairs self.old) index pair }
        ensures children { children_of self.new ++ children_of result.1 ≡ insert (children_of self.old) (index + 1) child }
        ensures left { length (own_pairs self.new) ≡ left_length index }
        ensures right { length (own_pairs result.1) ≡ capacity - left_length index }
        ensures inner { IsInner self.new × IsInner result.1 }
        ensures all_pairs { pairs_of self.new ++ result.0 ∷ pairs_of result.1 ≡ before_gap (index ∷ []) self.old ++ (pairs_of (child_at self.old index) ++ pair ∷ (pairs_of child ++ after_gap (index ∷ []) self.old)) }
        ensures moves { count.new.moves ≡ count.old.moves + split_moves index }
        ensures comparisons { count.new.comparisons ≡ count.old.comparisons }
    {
        let mut right = right;
        let Node { pairs, children } = self;
        let Node {
            pairs: other_pairs,
            children: other_children,
        } = &mut right;
        let Some(children) = children else {
            unreachable!()
        };
        let Some(other_children) = other_children else {
            unreachable!()
        };
        let up = split_pairs(pairs, other_pairs, index, pair, count);
        let keep = pairs.len() + 1;
        split_children(children, other_children, index + 1, child, keep);
        (up, right)
    }
}

// Puts `child` at `index` of a full list, and moves all but the first `keep` to the list on the right.
fn split_children<T: Drop, A: Handle>(
    left: &mut Children<T, A>,
    right: &mut Children<T, A>,
    index: usize,
    child: T,
    keep: usize,
)
    requires full { length left.old ≡ most_children }
    requires empty { right.old ≡ [] }
    requires in_bounds { index ≤ most_children }
    requires keep { (1 ≤ keep) × (keep ≤ most_children) }
    ensures items { left.new ++ right.new ≡ insert left.old index child }
    ensures left { length left.new ≡ keep }
    ensures right { length right.new + keep ≡ most_children + 1 }
{
    if index < keep {
        left.move_tail(keep - 1, right);
        left.insert(index, child);
    } else {
        left.move_tail(keep, right);
        right.insert(index - keep, child);
    }
}

// Puts `item` at `index` of a full list, and splits it: `right` takes the end, and the item in the middle is handed out.
fn split_pairs<T: Drop, A: Handle>(
    left: &mut Slots<T, CAPACITY, A>,
    right: &mut Slots<T, CAPACITY, A>,
    index: usize,
    item: T,
    count: &mut Count,
) -> T
    requires full { length left.old ≡ capacity }
    requires empty { right.old ≡ [] }
    requires in_bounds { index ≤ capacity }
    ensures items { left.new ++ result ∷ right.new ≡ insert left.old index item }
    ensures left { length left.new ≡ left_length index }
    ensures right { length right.new ≡ capacity - left_length index }
    ensures moves { count.new.moves ≡ count.old.moves + split_moves index }
    ensures comparisons { count.new.comparisons ≡ count.old.comparisons }
{
    let middle = middle_for(index);
    left.move_tail(middle + 1, right, count);
    let up = left.remove(middle, count);
    if index <= MIN_LEN {
        left.insert(index, item, count);
    } else {
        right.insert(index - (middle + 1), item, count);
    }
    up
}

// The middle for a new pair at `index`: both halves then hold the fewest pairs or one more.
fn middle_for(index: usize) -> usize
    requires { index ≤ capacity }
    ensures { result ≡ middle_place index }
{
    if index < MIN_LEN {
        MIN_LEN - 1
    } else if index < MIN_LEN + 2 {
        MIN_LEN
    } else {
        MIN_LEN + 1
    }
}

/// How many pairs stay in a full node that is split for a new pair at `index`: those before the middle, with the new one
/// where it is before the middle.
#[inline]
pub fn left_len(index: usize) -> usize
    ensures { result ≡ left_length index }
{
    if index == MIN_LEN || index > MIN_LEN + 1 {
        MIN_LEN + 1
    } else {
        MIN_LEN
    }
}
