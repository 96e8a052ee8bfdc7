//! A tree whose pairs are given out in order: from the front alone, or from both ends.
ghost use Rattle.std.specs.Prelude.{◌≡◌, ◌<◌, List, [], ◌∷◌, ◌++◌, ◌↔◌, length, IsTrue};
ghost use Rattle.fc_tree_node.specs.Node.{items_or_none};
ghost use Rattle.fc_tree_node.specs.Tree.{entries, IsSoundMap};
ghost use Rattle.fc_tree_drain.specs.Opened.{after_front, before_back};

use crate::owned::{
    Nodes, Run, first_of, move_to_back, move_to_front, open_first, pop_first_pair, pop_last_pair,
    run_len, take_first,
};
use crate::stack::Stack;
use fc_base::Handle;
use fc_tree_node::node::Node;
use std::alloc::Global;
use std::marker::Model;
use std::mem;

/// The front of a tree that is taken apart, seen as the list of the pairs that are left: what is left of a leaf, and above it nodes that
/// each begin with a pair. It takes no memory, and drops what is left.
#[derive(Drop)]
pub struct Front<K, V, A: Handle = Global> {
    run: Run<K, V, A>,
    nodes: Nodes<K, V, A>,
}

impl<K, V, A: Handle> Model for Front<K, V, A> {
    ghost use Rattle.std.specs.Prelude.{◌++◌, List};
    ghost use Rattle.fc_base.specs.Sizes.{most_levels};
    ghost use Rattle.fc_tree_node.specs.Node.{items_or_none};
    ghost use Rattle.fc_tree_drain.specs.Opened.{IsFalling, after_front};

    ghost Value = { List (K × V) };

    ghost view = { λ f. items_or_none f.run ++ after_front f.nodes };

    ghost invariant = { λ f. IsFalling 0 most_levels f.nodes };
}

/// The back of a tree that is taken apart, seen as the list of the pairs that are left: nodes that each end with a pair, and below them
/// what is left of a leaf. It takes no memory, and drops what is left.
#[derive(Drop)]
pub struct Back<K, V, A: Handle = Global> {
    nodes: Nodes<K, V, A>,
    run: Run<K, V, A>,
}

impl<K, V, A: Handle> Model for Back<K, V, A> {
    ghost use Rattle.std.specs.Prelude.{◌++◌, List};
    ghost use Rattle.fc_base.specs.Sizes.{most_levels};
    ghost use Rattle.fc_tree_node.specs.Node.{items_or_none};
    ghost use Rattle.fc_tree_drain.specs.Opened.{IsFalling, before_back};

    ghost Value = { List (K × V) };

    ghost view = { λ b. before_back b.nodes ++ items_or_none b.run };

    ghost invariant = { λ b. IsFalling 0 most_levels b.nodes };
}

/// A tree that is taken apart from both ends, seen as the list of the pairs that are left. It takes no memory, and drops what is left.
#[derive(Drop)]
pub struct IntoPairs<K, V, A: Handle = Global> {
    front: Front<K, V, A>,
    back: Back<K, V, A>,
}

impl<K, V, A: Handle> Model for IntoPairs<K, V, A> {
    ghost use Rattle.std.specs.Prelude.{◌++◌, List};

    ghost Value = { List (K × V) };

    ghost view = { λ d. d.front ++ d.back };
}

// Takes the last pair that is left of a leaf.
fn take_last<K, V, A: Handle>(run: &mut Run<K, V, A>) -> (K, V)
    requires { 0 < length (items_or_none run.old) }
    ensures { items_or_none run.old ≡ items_or_none run.new ++ result ∷ [] }
{
    match run {
        None => unreachable!(),
        Some(rest) => rest.take_last(),
    }
}

impl<K, V, A: Handle> Front<K, V, A> {
    /// Whether no pair is left.
    pub fn is_empty(&self) -> bool
        ensures { IsTrue result ↔ (length self.now ≡ 0) }
    {
        run_len(&self.run) == 0 && self.nodes.len() == 0
    }

    /// The first pair that is left.
    pub fn first(&self) -> &(K, V)
        requires { 0 < length self.now }
        ensures { (rest : List (K × V)) × (self.now ≡ result.now ∷ rest) }
    {
        if run_len(&self.run) > 0 {
            return first_of(&self.run);
        }
        self.nodes.get(self.nodes.len() - 1).pair(0)
    }
}

impl<K: Drop, V: Drop, A: Handle> Front<K, V, A> {
    /// The front of a whole tree.
    pub fn over(root: Option<Node<K, V, A>>) -> Front<K, V, A>
        requires { IsSoundMap root }
        ensures { result ≡ entries root }
    {
        let mut nodes = Stack::new();
        let mut run = None;
        if let Some(root) = root {
            open_first(&mut nodes, &mut run, root);
        }
        Front { run, nodes }
    }

    /// Gives the first pair out.
    pub fn next(&mut self) -> (K, V)
        requires { 0 < length self.old }
        ensures { self.old ≡ result ∷ self.new }
    {
        if run_len(&self.run) > 0 {
            return take_first(&mut self.run);
        }
        pop_first_pair(&mut self.nodes, &mut self.run)
    }
}

impl<K, V, A: Handle> Front<K, V, A> {
    // What is left of the leaf, and the nodes.
    fn parts(&self) -> (&Run<K, V, A>, &Nodes<K, V, A>)
        ensures { items_or_none result.0.now ++ after_front result.1.now ≡ self.now }
    {
        (&self.run, &self.nodes)
    }
}

impl<K, V, A: Handle> Back<K, V, A> {
    // The nodes, and what is left of the leaf.
    fn parts(&self) -> (&Nodes<K, V, A>, &Run<K, V, A>)
        ensures { before_back result.0.now ++ items_or_none result.1.now ≡ self.now }
    {
        (&self.nodes, &self.run)
    }

    // Whether no pair is left.
    fn is_empty(&self) -> bool
        ensures { IsTrue result ↔ (length self.now ≡ 0) }
    {
        run_len(&self.run) == 0 && self.nodes.len() == 0
    }
}

impl<K: Drop, V: Drop, A: Handle> Back<K, V, A> {
    // Gives the last pair out.
    fn next_back(&mut self) -> (K, V)
        requires { 0 < length self.old }
        ensures { self.old ≡ self.new ++ result ∷ [] }
    {
        if run_len(&self.run) > 0 {
            return take_last(&mut self.run);
        }
        pop_last_pair(&mut self.nodes, &mut self.run)
    }
}

impl<K, V, A: Handle> IntoPairs<K, V, A> {
    /// The front's parts and the back's: what is left of a leaf and the nodes above it, and the nodes and what is left of a leaf.
    pub fn parts(
        &self,
    ) -> (
        (&Run<K, V, A>, &Nodes<K, V, A>),
        (&Nodes<K, V, A>, &Run<K, V, A>),
    )
        ensures { (items_or_none result.0.0.now ++ after_front result.0.1.now) ++ (before_back result.1.0.now ++ items_or_none result.1.1.now) ≡ self.now }
    {
        (self.front.parts(), self.back.parts())
    }
}

impl<K: Drop, V: Drop, A: Handle> IntoPairs<K, V, A> {
    /// The whole tree.
    pub fn over(root: Option<Node<K, V, A>>) -> IntoPairs<K, V, A>
        requires { IsSoundMap root }
        ensures { result ≡ entries root }
    {
        IntoPairs {
            front: Front::over(root),
            back: Back {
                nodes: Stack::new(),
                run: None,
            },
        }
    }

    /// Gives the first pair out.
    pub fn next(&mut self) -> (K, V)
        requires { 0 < length self.old }
        ensures { self.old ≡ result ∷ self.new }
    {
        fill_front(&mut self.front, &mut self.back);
        self.front.next()
    }

    /// Gives the last pair out.
    pub fn next_back(&mut self) -> (K, V)
        requires { 0 < length self.old }
        ensures { self.old ≡ self.new ++ result ∷ [] }
    {
        fill_back(&mut self.front, &mut self.back);
        self.back.next_back()
    }
}

// Sees to it that the front has a pair, if there is one.
fn fill_front<K: Drop, V: Drop, A: Handle>(front: &mut Front<K, V, A>, back: &mut Back<K, V, A>)
    requires { 0 < length (front.old ++ back.old) }
    ensures pairs { front.new ++ back.new ≡ front.old ++ back.old }
    ensures some { 0 < length front.new }
{
    if run_len(&front.run) > 0 {
        return;
    }
    refill_front(front, back);
}

// The same, where nothing is left of the front's leaf. With no node above it the back's lowest node goes over, with its first child
// opened, and where there is none what is left of the back's leaf.
#[inline(never)]
fn refill_front<K: Drop, V: Drop, A: Handle>(front: &mut Front<K, V, A>, back: &mut Back<K, V, A>)
    requires { 0 < length (front.old ++ back.old) }
    ensures pairs { front.new ++ back.new ≡ front.old ++ back.old }
    ensures some { 0 < length front.new }
{
    if !front.is_empty() {
        return;
    }
    if back.nodes.len() == 0 {
        mem::swap(&mut front.run, &mut back.run);
        return;
    }
    move_to_front(&mut front.nodes, &mut front.run, &mut back.nodes);
}

// Sees to it that the back has a pair, if there is one.
fn fill_back<K: Drop, V: Drop, A: Handle>(front: &mut Front<K, V, A>, back: &mut Back<K, V, A>)
    requires { 0 < length (front.old ++ back.old) }
    ensures pairs { front.new ++ back.new ≡ front.old ++ back.old }
    ensures some { 0 < length back.new }
{
    if run_len(&back.run) > 0 {
        return;
    }
    refill_back(front, back);
}

// The same, where nothing is left of the back's leaf. With no node above it the front's lowest node goes over, with its last child
// opened, and where there is none what is left of the front's leaf.
#[inline(never)]
fn refill_back<K: Drop, V: Drop, A: Handle>(front: &mut Front<K, V, A>, back: &mut Back<K, V, A>)
    requires { 0 < length (front.old ++ back.old) }
    ensures pairs { front.new ++ back.new ≡ front.old ++ back.old }
    ensures some { 0 < length back.new }
{
    if !back.is_empty() {
        return;
    }
    if front.nodes.len() == 0 {
        mem::swap(&mut back.run, &mut front.run);
        return;
    }
    move_to_back(&mut front.nodes, &mut back.nodes, &mut back.run);
}
