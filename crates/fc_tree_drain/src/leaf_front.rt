//! The front of a tree that is taken apart, which hands out each leaf that is used up, to be filled anew.
ghost use Rattle.std.specs.Prelude.{◌≡◌, ◌+◌, ◌<◌, ◌≤◌, List, ◌∷◌, ◌↔◌, length, IsTrue};
ghost use Rattle.fc_tree_node.specs.Blocks.{blocks_in};
ghost use Rattle.fc_tree_node.specs.Node.{IsEmptyLeaf};
ghost use Rattle.fc_tree_node.specs.Tree.{entries, IsSoundMap};
ghost use Rattle.fc_tree_drain.specs.LeafFront.{IsOpenLeaf};

use crate::owned::{Nodes, Run, first_of, open_first, pop_first_pair, run_len, take_first};
use crate::stack::Stack;
use fc_base::Handle;
use fc_tree_node::node::Node;
use std::alloc::Global;
use std::marker::Model;

/// The front of a tree that is taken apart from there alone. A contract sees the pairs that are left, how many of them stand in
/// the open leaf, which is the first, and how many blocks of memory are left. It takes no memory, and drops what is left.
#[derive(Drop)]
pub struct LeafFront<K, V, A: Handle = Global> {
    run: Run<K, V, A>,
    nodes: Nodes<K, V, A>,
}

impl<K, V, A: Handle> Model for LeafFront<K, V, A> {
    ghost use Rattle.fc_tree_drain.specs.LeafFront.{Left, left, IsLeafFront};

    ghost Value = { Left K V };

    ghost view = { λ f. left f };

    ghost invariant = { λ f. IsLeafFront f };
}

impl<K, V, A: Handle> LeafFront<K, V, A> {
    /// Whether no pair is left.
    pub fn is_empty(&self) -> bool
        ensures { IsTrue result ↔ (length self.now.pairs ≡ 0) }
    {
        run_len(&self.run) == 0 && self.nodes.len() == 0
    }

    /// How many pairs of the open leaf are left.
    pub fn in_leaf(&self) -> usize
        ensures value { result ≡ self.now.in_leaf }
        ensures leaf { IsOpenLeaf self.now }
    {
        run_len(&self.run)
    }

    /// The first pair that is left.
    pub fn first(&self) -> &(K, V)
        requires { 0 < length self.now.pairs }
        ensures { (rest : List (K × V)) × (self.now.pairs ≡ result.now ∷ rest) }
    {
        if run_len(&self.run) > 0 {
            return first_of(&self.run);
        }
        self.nodes.get(self.nodes.len() - 1).pair(0)
    }
}

impl<K: Drop, V: Drop, A: Handle> LeafFront<K, V, A> {
    /// The front of a whole tree.
    pub fn over(root: Option<Node<K, V, A>>) -> LeafFront<K, V, A>
        requires { IsSoundMap root }
        ensures pairs { result.pairs ≡ entries root }
        ensures leaf { IsOpenLeaf result }
        ensures blocks { result.blocks ≤ blocks_in root }
    {
        let mut nodes = Stack::new();
        let mut run = None;
        if let Some(root) = root {
            open_first(&mut nodes, &mut run, root);
        }
        LeafFront { run, nodes }
    }

    /// Gives the first pair of the open leaf out.
    pub fn next_in_leaf(&mut self) -> (K, V)
        requires { 0 < self.old.in_leaf }
        ensures pairs { self.old.pairs ≡ result ∷ self.new.pairs }
        ensures in_leaf { self.old.in_leaf ≡ self.new.in_leaf + 1 }
        ensures blocks { self.new.blocks ≡ self.old.blocks }
    {
        take_first(&mut self.run)
    }

    /// Gives the first pair out where the open leaf is used up: the pair between that leaf and the next, which is open then. The leaf
    /// that is used up comes with it, and holds nothing.
    #[inline(never)]
    pub fn next_leaf(&mut self) -> ((K, V), Node<K, V, A>)
        requires used_up { self.old.in_leaf ≡ 0 }
        requires some { 0 < length self.old.pairs }
        ensures pairs { self.old.pairs ≡ result.0 ∷ self.new.pairs }
        ensures empty { IsEmptyLeaf result.1 }
        ensures leaf { IsOpenLeaf self.new }
        ensures blocks { self.new.blocks + 1 ≤ self.old.blocks }
    {
        let Some(used) = self.run.take() else {
            unreachable!()
        };
        let leaf = Node {
            pairs: used.into_slots(),
            children: None,
        };
        let pair = pop_first_pair(&mut self.nodes, &mut self.run);
        (pair, leaf)
    }
}
