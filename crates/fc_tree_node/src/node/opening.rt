//! Pairs and children taken out of a node at its ends, with nothing rebalanced: for a walk that takes a tree apart.
ghost use Rattle.std.specs.Prelude.{◌≡◌, ◌<◌, [], ◌∷◌, ◌++◌, length, MatchOption};
ghost use Rattle.fc_tree_node.specs.Node.{own_pairs, children_of, IsLeaf};
ghost use Rattle.fc_tree_node.specs.Siblings.{IsFormed};

use super::Node;
use fc_base::{Count, Handle};

impl<K, V, A: Handle> Node<K, V, A> {
    /// Takes the node's own first pair out. Its children stay.
    pub fn take_first_pair(&mut self) -> (K, V)
        requires { 0 < length (own_pairs self.old) }
        ensures pairs { own_pairs self.old ≡ result ∷ own_pairs self.new }
        ensures children { children_of self.new ≡ children_of self.old }
    {
        self.pairs.remove(0, &mut Count::new())
    }

    /// Takes the node's own last pair out. Its children stay.
    pub fn take_last_pair(&mut self) -> (K, V)
        requires { 0 < length (own_pairs self.old) }
        ensures pairs { own_pairs self.old ≡ own_pairs self.new ++ result ∷ [] }
        ensures children { children_of self.new ≡ children_of self.old }
    {
        let last = self.pairs.len() - 1;
        self.pairs.remove(last, &mut Count::new())
    }

    /// Takes the first child out. The node's own pairs stay.
    pub fn take_first_child(&mut self) -> Node<K, V, A>
        requires { 0 < length (children_of self.old) }
        ensures children { children_of self.old ≡ result ∷ children_of self.new }
        ensures pairs { own_pairs self.new ≡ own_pairs self.old }
    {
        match &mut self.children {
            None => unreachable!(),
            Some(children) => children.remove(0),
        }
    }

    /// Takes the last child out. The node's own pairs stay.
    pub fn take_last_child(&mut self) -> Node<K, V, A>
        requires { 0 < length (children_of self.old) }
        ensures children { children_of self.old ≡ children_of self.new ++ result ∷ [] }
        ensures pairs { own_pairs self.new ≡ own_pairs self.old }
    {
        match &mut self.children {
            None => unreachable!(),
            Some(children) => {
                let last = children.len() - 1;
                children.remove(last)
            }
        }
    }
}

/// What takes the place of a root without pairs: its only child, or nothing where it is a leaf.
pub fn into_only_child<K: Drop, V: Drop, A: Handle>(root: Node<K, V, A>) -> Option<Node<K, V, A>>
    requires none { length (own_pairs root) ≡ 0 }
    requires formed { IsFormed root }
    ensures { MatchOption result (IsLeaf root) (λ c. children_of root ≡ c ∷ []) }
{
    let Node { pairs: _, children } = root;
    match children {
        None => None,
        Some(mut children) => Some(children.remove(0)),
    }
}
