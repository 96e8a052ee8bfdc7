//! Merges of two neighbouring children, and thefts of one pair between them.
ghost use Rattle.std.specs.Prelude.{◌≡◌, ◌+◌, ◌-◌, ◌<◌, ◌≤◌, [], ◌∷◌, ◌++◌, ◌↔◌, length, slice_index_or, slice_set, remove, MatchOption};
ghost use Rattle.std.specs.Option.{option_to_list};
ghost use Rattle.fc_base.specs.Sizes.{capacity};
ghost use Rattle.fc_tree_node.specs.Node.{own_pairs, children_of, child_at, pairs_of, IsLeaf, IsInner};
ghost use Rattle.fc_tree_node.specs.Siblings.{IsFormed, AreAlike, IsMerged, IsShared};

use super::Node;
use fc_base::{Count, Handle};

impl<K: Drop, V: Drop, A: Handle> Node<K, V, A> {
    // Takes the last pair out, in an inner node with the last child.
    pub(super) fn take_last(&mut self, count: &mut Count) -> ((K, V), Option<Node<K, V, A>>)
        requires some { 0 < length (own_pairs self.old) }
        requires formed { IsFormed self.old }
        ensures pairs { own_pairs self.old ≡ own_pairs self.new ++ result.0 ∷ [] }
        ensures children { children_of self.old ≡ children_of self.new ++ option_to_list result.1 }
        ensures kind { MatchOption result.1 (IsLeaf self.old) (λ _. IsInner self.old) }
        ensures alike { AreAlike self.old self.new }
        ensures moves { count.new.moves ≡ count.old.moves + 1 }
        ensures comparisons { count.new.comparisons ≡ count.old.comparisons }
    {
        let Node { pairs, children } = self;
        let last = pairs.len() - 1;
        let pair = pairs.remove(last, count);
        match children {
            None => (pair, None),
            Some(children) => {
                let last = children.len() - 1;
                let child = children.remove(last);
                (pair, Some(child))
            }
        }
    }

    // Takes the first pair out, in an inner node with the first child.
    pub(super) fn take_first(&mut self, count: &mut Count) -> ((K, V), Option<Node<K, V, A>>)
        requires some { 0 < length (own_pairs self.old) }
        requires formed { IsFormed self.old }
        ensures pairs { own_pairs self.old ≡ result.0 ∷ own_pairs self.new }
        ensures children { children_of self.old ≡ option_to_list result.1 ++ children_of self.new }
        ensures kind { MatchOption result.1 (IsLeaf self.old) (λ _. IsInner self.old) }
        ensures alike { AreAlike self.old self.new }
        ensures moves { count.new.moves ≡ count.old.moves + length (own_pairs self.old) }
        ensures comparisons { count.new.comparisons ≡ count.old.comparisons }
    {
        let Node { pairs, children } = self;
        let pair = pairs.remove(0, count);
        match children {
            None => (pair, None),
            Some(children) => {
                let child = children.remove(0);
                (pair, Some(child))
            }
        }
    }

    // Puts a pair at the front, in an inner node with a child before it.
    pub(super) fn put_first(
        &mut self,
        pair: (K, V),
        child: Option<Node<K, V, A>>,
        count: &mut Count,
    )
        requires room { length (own_pairs self.old) < capacity }
        requires kind { MatchOption child (IsLeaf self.old) (λ _. IsInner self.old) }
        ensures pairs { own_pairs self.new ≡ pair ∷ own_pairs self.old }
        ensures children { children_of self.new ≡ option_to_list child ++ children_of self.old }
        ensures alike { AreAlike self.old self.new }
        ensures moves { count.new.moves ≡ count.old.moves + (length (own_pairs self.old) + 1) }
        ensures comparisons { count.new.comparisons ≡ count.old.comparisons }
    {
        let Node { pairs, children } = self;
        pairs.insert(0, pair, count);
        match (children, child) {
            (Some(children), Some(child)) => children.insert(0, child),
            (None, None) => (),
            (_, _) => unreachable!(),
        }
    }

    // Puts a pair at the end, in an inner node with a child after it.
    pub(super) fn put_last(&mut self, pair: (K, V), child: Option<Node<K, V, A>>, count: &mut Count)
        requires room { length (own_pairs self.old) < capacity }
        requires kind { MatchOption child (IsLeaf self.old) (λ _. IsInner self.old) }
        ensures pairs { own_pairs self.new ≡ own_pairs self.old ++ pair ∷ [] }
        ensures children { children_of self.new ≡ children_of self.old ++ option_to_list child }
        ensures alike { AreAlike self.old self.new }
        ensures moves { count.new.moves ≡ count.old.moves + 1 }
        ensures comparisons { count.new.comparisons ≡ count.old.comparisons }
    {
        let Node { pairs, children } = self;
        let end = pairs.len();
        pairs.insert(end, pair, count);
        match (children, child) {
            (Some(children), Some(child)) => {
                let end = children.len();
                children.insert(end, child);
            }
            (None, None) => (),
            (_, _) => unreachable!(),
        }
    }

    /// Takes the pair at `index` of a leaf out.
    pub fn remove_leaf(&mut self, index: usize, count: &mut Count) -> (K, V)
        requires in_bounds { index < length (own_pairs self.old) }
        requires leaf { IsLeaf self.old }
        ensures value { result ≡ slice_index_or (own_pairs self.old) index result }
        ensures pairs { own_pairs self.new ≡ remove (own_pairs self.old) index }
        ensures leaf { IsLeaf self.new }
        ensures moves { count.new.moves ≡ count.old.moves + (length (own_pairs self.old) - index) }
        ensures comparisons { count.new.comparisons ≡ count.old.comparisons }
    {
        self.pairs.remove(index, count)
    }

    /// Puts `pair` in the place of the pair at `index`, which is handed out.
    pub fn replace_pair(&mut self, index: usize, pair: (K, V), count: &mut Count) -> (K, V)
        requires in_bounds { index < length (own_pairs self.old) }
        ensures value { result ≡ slice_index_or (own_pairs self.old) index result }
        ensures pairs { own_pairs self.new ≡ slice_set (own_pairs self.old) index pair }
        ensures children { children_of self.new ≡ children_of self.old }
        ensures leaf { IsLeaf self.new ↔ IsLeaf self.old }
        ensures moves { count.new.moves ≡ count.old.moves + 2 }
        ensures comparisons { count.new.comparisons ≡ count.old.comparisons }
    {
        self.pairs.replace(index, pair, count)
    }

    /// The child after the pair at `index` takes a pair from its left sibling: the sibling's last pair goes up, and the
    /// pair between the two comes down to the child's front, in an inner node with the sibling's last child.
    pub fn steal_left(&mut self, index: usize, count: &mut Count)
        requires in_bounds { index < length (own_pairs self.old) }
        requires inner { IsInner self.old }
        requires alike { AreAlike (child_at self.old index) (child_at self.old (index + 1)) }
        requires some { 0 < length (own_pairs (child_at self.old index)) }
        requires room { length (own_pairs (child_at self.old (index + 1))) < capacity }
        ensures shared { IsShared index (length (own_pairs (child_at self.old index)) - 1) self.old self.new }
        ensures inner { IsInner self.new }
        ensures all_pairs { pairs_of self.new ≡ pairs_of self.old }
        ensures moves { count.new.moves ≡ count.old.moves + (length (own_pairs (child_at self.old (index + 1))) + 4) }
        ensures comparisons { count.new.comparisons ≡ count.old.comparisons }
    {
        let Node { pairs, children } = self;
        let Some(children) = children else {
            unreachable!()
        };
        let left: &mut Node<K, V, A> = children.get_mut(index);
        let (up, child) = left.take_last(count);
        let down = pairs.replace(index, up, count);
        let right: &mut Node<K, V, A> = children.get_mut(index + 1);
        right.put_first(down, child, count);
    }

    /// The child before the pair at `index` takes a pair from its right sibling: the sibling's first pair goes up, and the
    /// pair between the two comes down to the child's end, in an inner node with the sibling's first child.
    pub fn steal_right(&mut self, index: usize, count: &mut Count)
        requires in_bounds { index < length (own_pairs self.old) }
        requires inner { IsInner self.old }
        requires alike { AreAlike (child_at self.old index) (child_at self.old (index + 1)) }
        requires some { 0 < length (own_pairs (child_at self.old (index + 1))) }
        requires room { length (own_pairs (child_at self.old index)) < capacity }
        ensures shared { IsShared index (length (own_pairs (child_at self.old index)) + 1) self.old self.new }
        ensures inner { IsInner self.new }
        ensures all_pairs { pairs_of self.new ≡ pairs_of self.old }
        ensures moves { count.new.moves ≡ count.old.moves + (length (own_pairs (child_at self.old (index + 1))) + 3) }
        ensures comparisons { count.new.comparisons ≡ count.old.comparisons }
    {
        let Node { pairs, children } = self;
        let Some(children) = children else {
            unreachable!()
        };
        prove!(index < pairs.len());
        let right: &mut Node<K, V, A> = children.get_mut(index + 1);
        let (up, child) = right.take_first(count);
        let down = pairs.replace(index, up, count);
        let left: &mut Node<K, V, A> = children.get_mut(index);
        left.put_last(down, child, count);
    }

    // Puts a pair and then all that the right node holds at the end. The right node is given back to memory.
    pub(super) fn join(&mut self, pair: (K, V), right: Node<K, V, A>, count: &mut Count)
        requires alike { AreAlike self.old right }
        requires room { length (own_pairs self.old) + length (own_pairs right) + 1 ≤ capacity }
        ensures pairs { own_pairs self.new ≡ own_pairs self.old ++ pair ∷ own_pairs right }
        ensures children { children_of self.new ≡ children_of self.old ++ children_of right }
        ensures alike { AreAlike self.old self.new }
        ensures moves { count.new.moves ≡ count.old.moves + (length (own_pairs right) + 1) }
        ensures comparisons { count.new.comparisons ≡ count.old.comparisons }
    {
        let mut right = right;
        let Node { pairs, children } = self;
        let Node {
            pairs: other_pairs,
            children: other_children,
        } = &mut right;
        let middle = pairs.len();
        pairs.insert(middle, pair, count);
        let all = other_pairs.len();
        other_pairs.move_front(all, pairs, count);
        match (children, other_children) {
            (Some(children), Some(other_children)) => {
                let all = other_children.len();
                other_children.move_front(all, children);
            }
            (None, None) => (),
            (_, _) => unreachable!(),
        }
    }

    /// The child before the pair at `index` takes that pair and all that its right sibling holds, which is given back to
    /// memory. Both and the pair have to fit in one node.
    pub fn merge(&mut self, index: usize, count: &mut Count)
        requires in_bounds { index < length (own_pairs self.old) }
        requires inner { IsInner self.old }
        requires alike { AreAlike (child_at self.old index) (child_at self.old (index + 1)) }
        requires room { length (own_pairs (child_at self.old index)) + length (own_pairs (child_at self.old (index + 1))) + 1 ≤ capacity }
        ensures merged { IsMerged index self.old self.new }
        ensures inner { IsInner self.new }
        ensures all_pairs { pairs_of self.new ≡ pairs_of self.old }
        ensures moves { count.new.moves ≡ count.old.moves + ((length (own_pairs self.old) - index) + (length (own_pairs (child_at self.old (index + 1))) + 1)) }
        ensures comparisons { count.new.comparisons ≡ count.old.comparisons }
    {
        let Node { pairs, children } = self;
        let Some(children) = children else {
            unreachable!()
        };
        prove!(index < pairs.len());
        let pair = pairs.remove(index, count);
        let right = children.remove(index + 1);
        let left: &mut Node<K, V, A> = children.get_mut(index);
        left.join(pair, right, count);
    }
}
