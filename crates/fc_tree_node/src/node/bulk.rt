//! Thefts of several pairs at once between two neighbouring children, and the move of what stands after a place.
ghost use Rattle.std.specs.Prelude.{◌≡◌, ◌+◌, ◌-◌, ◌*◌, ◌<◌, ◌≤◌, [], ◌∷◌, ◌++◌, length, take, drop, slice_index_or, slice_set};
ghost use Rattle.fc_base.specs.Sizes.{capacity};
ghost use Rattle.fc_tree_node.specs.Node.{own_pairs, children_of, child_at, pairs_of, IsInner};
ghost use Rattle.fc_tree_node.specs.Path.{after_gap};
ghost use Rattle.fc_tree_node.specs.Siblings.{AreAlike, IsShared};

use super::{CAPACITY, Node};
use fc_base::{Count, Handle};
use fc_tree_slots::slots::Slots;

impl<K: Drop, V: Drop, A: Handle> Node<K, V, A> {
    /// Moves what stands after the place `at` to the end of another node: the pairs from `at` on, in an inner node each
    /// with the child on its right.
    pub fn move_suffix(&mut self, at: usize, other: &mut Node<K, V, A>, count: &mut Count)
        requires in_bounds { at ≤ length (own_pairs self.old) }
        requires alike { AreAlike self.old other.old }
        requires room { length (own_pairs other.old) + (length (own_pairs self.old) - at) ≤ capacity }
        ensures pairs { own_pairs self.new ≡ take at (own_pairs self.old) }
        ensures children { children_of self.new ≡ take (at + 1) (children_of self.old) }
        ensures other_pairs { own_pairs other.new ≡ own_pairs other.old ++ drop at (own_pairs self.old) }
        ensures other_children { children_of other.new ≡ children_of other.old ++ drop (at + 1) (children_of self.old) }
        ensures alike { AreAlike self.old self.new × AreAlike self.new other.new }
        ensures all_pairs { pairs_of self.old ≡ pairs_of self.new ++ after_gap (at ∷ []) self.old }
        ensures other_all_pairs { pairs_of other.new ≡ pairs_of other.old ++ after_gap (at ∷ []) self.old }
        ensures moves { count.new.moves ≡ count.old.moves + (length (own_pairs self.old) - at) }
        ensures comparisons { count.new.comparisons ≡ count.old.comparisons }
    {
        let Node { pairs, children } = self;
        let Node {
            pairs: other_pairs,
            children: other_children,
        } = other;
        pairs.move_tail(at, other_pairs, count);
        match (children, other_children) {
            (Some(children), Some(other_children)) => {
                let kept = pairs.len() + 1;
                children.move_tail(kept, other_children);
            }
            (None, None) => (),
            (_, _) => unreachable!(),
        }
    }

    /// The child after the pair at `index` takes `n` pairs from its left sibling: the first of the sibling's last `n` pairs
    /// goes up, the pair between the two comes down, and the others move to the child's front, in an inner node each with
    /// the child on its right.
    pub fn bulk_steal_left(&mut self, index: usize, n: usize, count: &mut Count)
        requires in_bounds { index < length (own_pairs self.old) }
        requires inner { IsInner self.old }
        requires alike { AreAlike (child_at self.old index) (child_at self.old (index + 1)) }
        requires some { (1 ≤ n) × (n ≤ length (own_pairs (child_at self.old index))) }
        requires room { length (own_pairs (child_at self.old (index + 1))) + n ≤ capacity }
        ensures shared { IsShared index (length (own_pairs (child_at self.old index)) - n) self.old self.new }
        ensures inner { IsInner self.new }
        ensures all_pairs { pairs_of self.new ≡ pairs_of self.old }
        ensures moves { count.new.moves ≡ count.old.moves + (2 * n + length (own_pairs (child_at self.old (index + 1))) + 3) }
        ensures comparisons { count.new.comparisons ≡ count.old.comparisons }
    {
        let Node { pairs, children } = self;
        let Some(children) = children else {
            unreachable!()
        };
        prove!(index < pairs.len());
        let mut right = children.remove(index + 1);
        let left: &mut Node<K, V, A> = children.get_mut(index);
        left.send_right(pairs, index, &mut right, n, count);
        children.insert(index + 1, right);
    }

    // The last `n` pairs go to the node on the right through the pair at `index` of their parent.
    fn send_right(
        &mut self,
        parent: &mut Slots<(K, V), CAPACITY, A>,
        index: usize,
        right: &mut Node<K, V, A>,
        n: usize,
        count: &mut Count,
    )
        requires in_bounds { index < length parent.old }
        requires alike { AreAlike self.old right.old }
        requires some { (1 ≤ n) × (n ≤ length (own_pairs self.old)) }
        requires room { length (own_pairs right.old) + n ≤ capacity }
        ensures parent { (d : K × V) → parent.new ≡ slice_set parent.old index (slice_index_or (own_pairs self.old) (length (own_pairs self.old) - n) d) }
        ensures pairs { (d : K × V) → own_pairs self.new ++ slice_index_or (own_pairs self.old) (length (own_pairs self.old) - n) d ∷ own_pairs right.new ≡ own_pairs self.old ++ slice_index_or parent.old index d ∷ own_pairs right.old }
        ensures children { children_of self.new ++ children_of right.new ≡ children_of self.old ++ children_of right.old }
        ensures size { length (own_pairs self.new) + n ≡ length (own_pairs self.old) }
        ensures alike { AreAlike self.old self.new × AreAlike self.new right.new }
        ensures moves { count.new.moves ≡ count.old.moves + (2 * n + length (own_pairs right.old) + 3) }
        ensures comparisons { count.new.comparisons ≡ count.old.comparisons }
    {
        let Node { pairs, children } = self;
        let Node {
            pairs: other_pairs,
            children: other_children,
        } = right;
        share_back(pairs, parent, index, other_pairs, n, count);
        match (children, other_children) {
            (Some(children), Some(other_children)) => children.move_back(n, other_children),
            (None, None) => (),
            (_, _) => unreachable!(),
        }
    }

    /// The child before the pair at `index` takes `n` pairs from its right sibling: the last of the sibling's first `n`
    /// pairs goes up, the pair between the two comes down, and the others move to the child's end, in an inner node each
    /// with the child on its left.
    pub fn bulk_steal_right(&mut self, index: usize, n: usize, count: &mut Count)
        requires in_bounds { index < length (own_pairs self.old) }
        requires inner { IsInner self.old }
        requires alike { AreAlike (child_at self.old index) (child_at self.old (index + 1)) }
        requires some { (1 ≤ n) × (n ≤ length (own_pairs (child_at self.old (index + 1)))) }
        requires room { length (own_pairs (child_at self.old index)) + n ≤ capacity }
        ensures shared { IsShared index (length (own_pairs (child_at self.old index)) + n) self.old self.new }
        ensures inner { IsInner self.new }
        ensures all_pairs { pairs_of self.new ≡ pairs_of self.old }
        ensures moves { count.new.moves ≡ count.old.moves + (length (own_pairs (child_at self.old (index + 1))) + n + 3) }
        ensures comparisons { count.new.comparisons ≡ count.old.comparisons }
    {
        let Node { pairs, children } = self;
        let Some(children) = children else {
            unreachable!()
        };
        prove!(index < pairs.len());
        let mut right = children.remove(index + 1);
        let left: &mut Node<K, V, A> = children.get_mut(index);
        right.send_left(pairs, index, left, n, count);
        children.insert(index + 1, right);
    }

    // The first `n` pairs go to the node on the left through the pair at `index` of their parent.
    fn send_left(
        &mut self,
        parent: &mut Slots<(K, V), CAPACITY, A>,
        index: usize,
        left: &mut Node<K, V, A>,
        n: usize,
        count: &mut Count,
    )
        requires in_bounds { index < length parent.old }
        requires alike { AreAlike left.old self.old }
        requires some { (1 ≤ n) × (n ≤ length (own_pairs self.old)) }
        requires room { length (own_pairs left.old) + n ≤ capacity }
        ensures parent { (d : K × V) → parent.new ≡ slice_set parent.old index (slice_index_or (own_pairs self.old) (n - 1) d) }
        ensures pairs { (d : K × V) → own_pairs left.new ++ slice_index_or (own_pairs self.old) (n - 1) d ∷ own_pairs self.new ≡ own_pairs left.old ++ slice_index_or parent.old index d ∷ own_pairs self.old }
        ensures children { children_of left.new ++ children_of self.new ≡ children_of left.old ++ children_of self.old }
        ensures size { length (own_pairs left.new) ≡ length (own_pairs left.old) + n }
        ensures alike { AreAlike left.old left.new × AreAlike left.new self.new }
        ensures moves { count.new.moves ≡ count.old.moves + (length (own_pairs self.old) + n + 3) }
        ensures comparisons { count.new.comparisons ≡ count.old.comparisons }
    {
        let Node { pairs, children } = left;
        let Node {
            pairs: other_pairs,
            children: other_children,
        } = self;
        share_front(pairs, parent, index, other_pairs, n, count);
        match (children, other_children) {
            (Some(children), Some(other_children)) => other_children.move_front(n, children),
            (None, None) => (),
            (_, _) => unreachable!(),
        }
    }
}

// The last `n` items of the left list go to the right one through the item at `index` of their parent's list: the first
// of them goes up, and the parent's comes down before those that were in the right list.
fn share_back<T: Drop, A: Handle>(
    left: &mut Slots<T, CAPACITY, A>,
    parent: &mut Slots<T, CAPACITY, A>,
    index: usize,
    right: &mut Slots<T, CAPACITY, A>,
    n: usize,
    count: &mut Count,
)
    requires in_bounds { index < length parent.old }
    requires some { (1 ≤ n) × (n ≤ length left.old) }
    requires room { length right.old + n ≤ capacity }
    ensures parent { (d : T) → parent.new ≡ slice_set parent.old index (slice_index_or left.old (length left.old - n) d) }
    ensures items { (d : T) → left.new ++ slice_index_or left.old (length left.old - n) d ∷ right.new ≡ left.old ++ slice_index_or parent.old index d ∷ right.old }
    ensures left { length left.new + n ≡ length left.old }
    ensures right { length right.new ≡ length right.old + n }
    ensures moves { count.new.moves ≡ count.old.moves + (2 * n + length right.old + 3) }
    ensures comparisons { count.new.comparisons ≡ count.old.comparisons }
{
    let up = left.remove(left.len() - n, count);
    let down = parent.replace(index, up, count);
    let end = left.len();
    left.insert(end, down, count);
    left.move_back(n, right, count);
}

// The first `n` items of the right list go to the left one through the item at `index` of their parent's list: the last
// of them goes up, and the parent's comes down after those that were in the left list.
fn share_front<T: Drop, A: Handle>(
    left: &mut Slots<T, CAPACITY, A>,
    parent: &mut Slots<T, CAPACITY, A>,
    index: usize,
    right: &mut Slots<T, CAPACITY, A>,
    n: usize,
    count: &mut Count,
)
    requires in_bounds { index < length parent.old }
    requires some { (1 ≤ n) × (n ≤ length right.old) }
    requires room { length left.old + n ≤ capacity }
    ensures parent { (d : T) → parent.new ≡ slice_set parent.old index (slice_index_or right.old (n - 1) d) }
    ensures items { (d : T) → left.new ++ slice_index_or right.old (n - 1) d ∷ right.new ≡ left.old ++ slice_index_or parent.old index d ∷ right.old }
    ensures left { length left.new ≡ length left.old + n }
    ensures right { length right.new + n ≡ length right.old }
    ensures moves { count.new.moves ≡ count.old.moves + (length right.old + n + 3) }
    ensures comparisons { count.new.comparisons ≡ count.old.comparisons }
{
    let at = left.len();
    right.move_front(n, left, count);
    let last = left.len() - 1;
    let up = left.remove(last, count);
    let down = parent.replace(index, up, count);
    left.insert(at, down, count);
}
