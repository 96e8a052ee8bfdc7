//! A tree made of pairs in order, with all of its memory taken before the first.
ghost use Rattle.std.specs.Prelude.{◌≡◌, min, ◌+◌, ◌-◌, ◌*◌, ◌<◌, ◌≤◌, ◌⊎◌, [], ◌∷◌, ◌++◌, IfOk, IfErr, IsOk};
ghost use Rattle.fc_base.specs.Sizes.{most_children};
ghost use Rattle.fc_tree_node.specs.Blocks.{blocks_in};
ghost use Rattle.fc_tree_node.specs.Node.{IsEmptyLeaf};
ghost use Rattle.fc_tree_node.specs.Tree.{entries, IsSoundMap};
ghost use Rattle.fc_tree_node.specs.Requests.{list_requests};
ghost use Rattle.fc_tree_build.specs.Spares.{leaves_for, inner_for, given_requests};

use crate::spares::{inner_count, leaf_count, take_spare};
use crate::spine::{Spine, attach, close, put_pair};
use fc_base::{Asked, Handle, TryReserveError};
use fc_tree_drain::stack::Stack;
use fc_tree_node::node::{CAPACITY, Node};
use fc_tree_node::nodes::{put_spare, try_inner_nodes, try_leaves};
use fc_tree_split::rebalancing::rebalance_right;
use std::alloc::Global;
use std::marker::Model;
use std::mem;

// How many leaves are made where more are given later: what is left of two open leaves fits in them.
const MADE_LEAVES: usize = 2;

/// A tree that is made of pairs from the first on, each put at its end: leaves and inner nodes are full, but those on the right
/// edge. All inner nodes are made before the first pair, and the leaves too, unless more are given later. A contract sees the pairs, for how
/// many more there is room, for how many there is once enough leaves are given, and how many blocks of memory all nodes have.
#[derive(Drop)]
pub struct Builder<K, V, A: Handle = Global> {
    spine: Spine<K, V, A>,
    last: Option<Node<K, V, A>>,
    leaves: Vec<Node<K, V, A>, A>,
    inner: Vec<Node<K, V, A>, A>,
    limit: usize,
}

impl<K, V, A: Handle> Model for Builder<K, V, A> {
    ghost use Rattle.fc_tree_build.specs.Built.{Built, built, IsBuilder};

    ghost Value = { Built K V };

    ghost view = { λ b. built b };

    ghost invariant = { λ b. IsBuilder b };
}

impl<K, V, A: Handle> Builder<K, V, A> {
    /// For how many more pairs there is room.
    pub fn room(&self) -> usize
        ensures { result ≡ self.now.room }
    {
        let Some(last) = &self.last else {
            return 0;
        };
        let spare = self.leaves.len().saturating_mul(CAPACITY + 1);
        spare.saturating_add(CAPACITY - last.len()).min(self.limit)
    }

    /// For how many more pairs there is room once enough leaves are given.
    pub fn limit(&self) -> usize
        ensures { result ≡ self.now.limit }
    {
        self.limit
    }
}

impl<K: Drop, V: Drop, A: Handle> Builder<K, V, A> {
    /// A builder of no pair, with room for `n`: each node that they can need is made now, and none where `n` is 0.
    ///
    /// # Errors
    /// `AllocError` if one of them or a list of them is refused, never where `n` is 0. Nothing is then left after.
    pub fn try_new(alloc: A, n: usize) -> Result<Builder<K, V, A>, TryReserveError>
        ensures ok { IfOk result (λ b. (b.pairs ≡ []) × (b.room ≡ n) × (b.limit ≡ n)) }
        ensures error { IfErr result (λ e. e ≡ TryReserveError.AllocError) }
        ensures none { n ≡ 0 → IsOk result }
    {
        Self::try_with_leaves(alloc, n, leaf_count(n), &mut Asked::new())
    }

    /// A builder of no pair with room for `n` once leaves are given to it: each inner node that they can need is made now, and just two
    /// leaves, or one where it can need no more. Its requests for memory are added to `asked`.
    ///
    /// # Errors
    /// `AllocError` if one of them or a list of them is refused, never where `n` is 0. Nothing is then left after.
    pub fn try_for_given_leaves(
        alloc: A,
        n: usize,
        asked: &mut Asked,
    ) -> Result<Builder<K, V, A>, TryReserveError>
        ensures ok { IfOk result (λ b. (b.pairs ≡ []) × (b.limit ≡ n) × (b.room ≡ min n (2 * most_children - 1))) }
        ensures error { IfErr result (λ e. e ≡ TryReserveError.AllocError) }
        ensures none { n ≡ 0 → IsOk result }
        ensures requests { IfOk result (λ _. asked.new.requests ≡ asked.old.requests + given_requests n) }
        ensures at_most { asked.new.requests ≤ asked.old.requests + given_requests n }
        ensures blocks { IfOk result (λ b. b.blocks + asked.old.requests ≤ asked.new.requests) }
    {
        Self::try_with_leaves(alloc, n, leaf_count(n).min(MADE_LEAVES), asked)
    }

    // A builder of no pair, with so many leaves and the inner nodes that `n` pairs can need.
    fn try_with_leaves(
        alloc: A,
        n: usize,
        count: usize,
        asked: &mut Asked,
    ) -> Result<Builder<K, V, A>, TryReserveError>
        requires enough { (2 ≤ count) ⊎ (n ≤ most_children * count - 1) }
        requires few { count ≤ leaves_for n }
        ensures ok { IfOk result (λ b. (b.pairs ≡ []) × (b.limit ≡ n) × (b.room ≡ min n (most_children * count - 1))) }
        ensures error { IfErr result (λ e. e ≡ TryReserveError.AllocError) }
        ensures none { n ≡ 0 → IsOk result }
        ensures requests { IfOk result (λ _. asked.new.requests ≡ asked.old.requests + (list_requests 1 count + list_requests 2 (inner_for n))) }
        ensures at_most { asked.new.requests ≤ asked.old.requests + (list_requests 1 count + list_requests 2 (inner_for n)) }
        ensures blocks { IfOk result (λ b. b.blocks + asked.old.requests ≤ asked.new.requests) }
    {
        let mut leaves = try_leaves(alloc, count, asked)?;
        let inner = try_inner_nodes(alloc, inner_count(n), asked)?;
        let last = leaves.pop();
        Ok(Builder {
            spine: Stack::new(),
            last,
            leaves,
            inner,
            limit: n,
        })
    }

    /// Takes a leaf that holds nothing, for pairs to come. Where two wait already it is dropped.
    pub fn give_leaf(&mut self, leaf: Node<K, V, A>)
        requires { IsEmptyLeaf leaf }
        ensures pairs { self.new.pairs ≡ self.old.pairs }
        ensures limit { self.new.limit ≡ self.old.limit }
        ensures kept { self.old.room ≤ self.new.room }
        ensures room { min self.old.limit (min (self.old.room + most_children) (2 * most_children)) ≤ self.new.room }
        ensures blocks { self.new.blocks ≤ self.old.blocks + 1 }
    {
        if self.leaves.len() < self.leaves.capacity() {
            put_spare(&mut self.leaves, leaf);
        } else {
            drop(leaf);
        }
    }

    /// Puts the pair after the others. It takes no memory, moves no other pair and compares nothing.
    pub fn push(&mut self, pair: (K, V))
        requires { 0 < self.old.room }
        ensures pairs { self.new.pairs ≡ self.old.pairs ++ pair ∷ [] }
        ensures room { self.new.room + 1 ≡ self.old.room }
        ensures limit { self.new.limit + 1 ≡ self.old.limit }
        ensures blocks { self.new.blocks ≡ self.old.blocks }
    {
        self.limit -= 1;
        let Some(last) = &mut self.last else {
            unreachable!()
        };
        if last.len() < CAPACITY {
            put_pair(last, pair);
            return;
        }
        let full = mem::replace(last, take_spare(&mut self.leaves));
        attach(&mut self.spine, full, pair, &mut self.inner);
    }

    /// The root of a sound tree of the pairs; none where there is no pair. Nodes that were not needed are dropped.
    pub fn finish(self) -> Option<Node<K, V, A>>
        ensures pairs { entries result ≡ self.pairs }
        ensures sound { IsSoundMap result }
        ensures blocks { blocks_in result ≤ self.blocks }
    {
        let Builder {
            mut spine,
            last,
            leaves,
            inner,
            limit: _,
        } = self;
        drop(leaves);
        drop(inner);
        let Some(last) = last else {
            return None;
        };
        rebalance_right(close(&mut spine, last))
    }
}
