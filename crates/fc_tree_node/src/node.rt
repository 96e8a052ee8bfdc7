//! Nodes of a B-tree.
//!
//! A node holds 7 to 15 pairs, the root from 1 on, in the order of their keys. A leaf has no room for children; an inner node has one child more
//! than pairs: child `i` lies before the pair `i`, and the last one after the last pair. Pairs and children lie in a list each, whose room is
//! taken when the node is made; a child lies in its parent's list, and the root where the map does, so no node has a block for itself.
//!
//! Between two calls on a map all leaves of its tree lie equally deep, and each node holds as many pairs as it should (`IsSoundRoot` in
//! `specs/Node.antt`). A call on one node may leave it short: who calls it rebalances it. Nothing here compares keys or takes memory, but for the
//! two calls that make a node.
ghost use Rattle.std.specs.Prelude.{◌≡◌, ◌+◌, ◌<◌, ◌≤◌, [], length, slice_index_or, IfOk, IfErr, IsTrue, ◌↔◌};
ghost use Rattle.fc_base.specs.Sizes.{capacity, most_children};
ghost use Rattle.fc_tree_node.specs.Node.{own_pairs, children_of, child_at, IsLeaf, IsEmptyLeaf, IsEmptyInner};

use fc_base::{Asked, Handle, TryReserveError};
use fc_tree_slots::children::Children;
use fc_tree_slots::slots::Slots;
use std::alloc::Global;

mod balancing;
mod bulk;
mod opening;
mod split;

pub use opening::into_only_child;
pub use split::left_len;

/// The most pairs that a node holds.
pub const CAPACITY: usize = 15;

/// The fewest pairs that a node below the root holds.
pub const MIN_LEN: usize = 7;

/// A node: at most `CAPACITY` pairs, and in an inner node one child more than pairs. A leaf has no room for children.
#[derive(Drop)]
pub struct Node<K, V, A: Handle = Global> {
    /// The pairs of the node itself, in order.
    pub pairs: Slots<(K, V), CAPACITY, A>,
    /// The children, in order; a leaf has no room for them.
    pub children: Option<Children<Node<K, V, A>, A>>,
}

impl<K: Drop, V: Drop, A: Handle> Node<K, V, A> {
    /// A leaf that holds nothing, made in one request, for its pairs.
    ///
    /// # Errors
    /// `AllocError` if it is refused.
    pub fn try_leaf(alloc: A, asked: &mut Asked) -> Result<Node<K, V, A>, TryReserveError>
        ensures ok { IfOk result (λ b. IsEmptyLeaf b) }
        ensures error { IfErr result (λ e. e ≡ TryReserveError.AllocError) }
        ensures requests { asked.new.requests ≡ asked.old.requests + 1 }
    {
        let pairs = Slots::try_new(alloc, asked)?;
        Ok(Node {
            pairs,
            children: None,
        })
    }

    /// An inner node that holds nothing, made in two requests, for its pairs and for its children.
    ///
    /// # Errors
    /// `AllocError` if one is refused. Nothing is then left after.
    pub fn try_inner(alloc: A, asked: &mut Asked) -> Result<Node<K, V, A>, TryReserveError>
        ensures ok { IfOk result (λ b. IsEmptyInner b) }
        ensures error { IfErr result (λ e. e ≡ TryReserveError.AllocError) }
        ensures requests { IfOk result (λ _. asked.new.requests ≡ asked.old.requests + 2) }
        ensures at_most { asked.new.requests ≤ asked.old.requests + 2 }
    {
        let pairs = Slots::try_new(alloc, asked)?;
        let children = Children::try_new(alloc, asked)?;
        Ok(Node {
            pairs,
            children: Some(children),
        })
    }
}

impl<K, V, A: Handle> Node<K, V, A> {
    /// How many pairs the node holds itself.
    pub fn len(&self) -> usize
        ensures value { result ≡ length (own_pairs self.now) }
        ensures fits { length (own_pairs self.now) ≤ capacity }
    {
        self.pairs.len()
    }

    /// Whether the node has no room for children.
    pub fn is_leaf(&self) -> bool
        ensures { IsTrue result ↔ IsLeaf self.now }
    {
        self.children.is_none()
    }

    /// The node's own pair at `index`.
    pub fn pair(&self, index: usize) -> &(K, V)
        requires { index < length (own_pairs self.now) }
        ensures { result.now ≡ slice_index_or (own_pairs self.now) index result.now }
    {
        self.pairs.get(index)
    }

    /// The node's own pairs, in order.
    pub fn pairs(&self) -> &[(K, V)]
        ensures { result.now ≡ own_pairs self.now }
    {
        self.pairs.as_slice()
    }

    /// How many children the node has: none in a leaf.
    pub fn child_count(&self) -> usize
        ensures value { result ≡ length (children_of self.now) }
        ensures fits { length (children_of self.now) ≤ most_children }
    {
        match &self.children {
            None => 0,
            Some(children) => children.len(),
        }
    }

    /// The child at `index`.
    pub fn child(&self, index: usize) -> &Node<K, V, A>
        requires { index < length (children_of self.now) }
        ensures { result.now ≡ child_at self.now index }
    {
        match &self.children {
            None => unreachable!(),
            Some(children) => children.get(index),
        }
    }
}
