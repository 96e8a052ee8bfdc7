//! A tree that grows at its right end, with its nodes made as they are needed.
ghost use Rattle.std.specs.Prelude.{◌≡◌, ℕ, ◌+◌, ◌*◌, ◌<◌, ◌≤◌, ◌⊎◌, ◌↔◌, [], ◌∷◌, ◌++◌, length, IsTrue, IfOk, IfErr, IfSome, None};
ghost use Rattle.fc_base.specs.Sizes.{capacity, most_height};
ghost use Rattle.fc_tree_drain.specs.Opened.{before_back};
ghost use Rattle.fc_tree_node.specs.Node.{own_pairs, pairs_of, IsLeaf, IsEmptyLeaf, IsEmptyInner, IsSound};
ghost use Rattle.fc_tree_node.specs.Requests.{list_requests};
ghost use Rattle.std.specs.List.{AllByRecursion};
ghost use Rattle.fc_tree_node.specs.Tree.{entries, IsSoundMap};
ghost use Rattle.fc_tree_build.specs.Built.{IsAfterLast};
ghost use Rattle.fc_tree_build.specs.Loads.{load_requests};
ghost use Rattle.fc_tree_build.specs.Spares.{worth, needed};
ghost use Rattle.fc_tree_build.specs.Spine.{IsLastPair, IsSpine};

use crate::spine::{Spine, attach, close, has_room, last_of, needed, put_in_room, put_pair};
use fc_base::{Asked, Handle, TryReserveError};
use fc_tree_drain::stack::Stack;
use fc_tree_node::node::{CAPACITY, Node};
use fc_tree_node::nodes::try_inner_nodes;
use fc_tree_node::path::MAX_STEPS;
use fc_tree_split::rebalancing::rebalance_right;
use std::alloc::Global;
use std::marker::Model;
use std::mem;

/// A tree to whose end pairs are put. It asks for memory at its first pair and where its last leaf is full. A contract sees the pairs, and for
/// how many more the last leaf has room.
#[derive(Drop)]
pub struct GrowingBuilder<K, V, A: Handle = Global> {
    spine: Spine<K, V, A>,
    last: Option<Node<K, V, A>>,
    // How many pairs stand before those of the last leaf, which can take as many more as it has room for.
    before: usize,
    alloc: A,
}

impl<K, V, A: Handle> Model for GrowingBuilder<K, V, A> {
    ghost use Rattle.fc_tree_build.specs.Built.{Grown, grown, IsGrown};

    ghost Value = { Grown K V };

    ghost view = { λ g. grown g.spine g.last };

    ghost invariant = { λ g. IsGrown g.spine g.last g.before };
}

impl<K, V, A: Handle> GrowingBuilder<K, V, A> {
    /// The last pair; none where there is no pair.
    pub fn last(&self) -> Option<&(K, V)>
        ensures { IsLastPair self.now.pairs result }
    {
        let Some(leaf) = &self.last else {
            return None;
        };
        if leaf.len() > 0 {
            return Some(leaf.pair(leaf.len() - 1));
        }
        last_of(&self.spine)
    }

    /// How many pairs there are.
    pub fn len(&self) -> usize
        ensures { result ≡ length self.now.pairs }
    {
        match &self.last {
            None => 0,
            Some(leaf) => self.before + leaf.len(),
        }
    }
}

impl<K: Ord + Drop, V: Drop, A: Handle> GrowingBuilder<K, V, A> {
    /// Puts the pair after the others where the last leaf has a pair and room for one more, and its last key is less; else the pair comes back.
    /// It takes no memory.
    #[inline(always)]
    pub fn put_if_after(&mut self, pair: (K, V)) -> Option<(K, V)>
        ensures put { result ≡ None → self.new.pairs ≡ self.old.pairs ++ pair ∷ [] }
        ensures room { result ≡ None → self.new.room + 1 ≡ self.old.room }
        ensures after { result ≡ None → IsAfterLast K.cmp self.old.pairs pair.0 }
        ensures taken { 0 < self.old.room → self.old.room < capacity → IsAfterLast K.cmp self.old.pairs pair.0 → result ≡ None }
        ensures back { IfSome result (λ back. (back ≡ pair) × (self.new ≡ self.old)) }
    {
        let Some(leaf) = &mut self.last else {
            return Some(pair);
        };
        if 0 < leaf.len() && leaf.len() < CAPACITY && is_after(leaf, &pair.0) {
            put_pair(leaf, pair);
            return None;
        }
        Some(pair)
    }
}

impl<K: Drop, V: Drop, A: Handle> GrowingBuilder<K, V, A> {
    /// A tree of no pair. It asks for nothing.
    pub fn new(alloc: A) -> GrowingBuilder<K, V, A>
        ensures pairs { result.pairs ≡ [] }
        ensures room { result.room ≡ 0 }
    {
        GrowingBuilder {
            spine: Stack::new(),
            last: None,
            before: 0,
            alloc,
        }
    }

    /// Puts the pair after the others. It compares nothing and moves no other pair. At the first pair it makes a leaf; where the last leaf
    /// is full, a leaf, an empty node for each full one of the right edge that is closed, and a new root where all are full. Requests for memory
    /// are added to `asked`.
    ///
    /// # Errors
    /// The pair and `AllocError` if one of them is refused: all are made before the pair is put. The tree is then as before. So is a leaf
    /// that would let the tree grow to more than `usize::MAX` pairs. Where the last leaf has room it is never refused.
    pub fn push(&mut self, pair: (K, V), asked: &mut Asked) -> Result<(), ((K, V), TryReserveError)>
        ensures pairs { IfOk result (λ _. self.new.pairs ≡ self.old.pairs ++ pair ∷ []) }
        ensures room { IfOk result (λ _. 0 < self.old.room → self.new.room + 1 ≡ self.old.room) }
        ensures fresh { IfOk result (λ _. self.old.room ≡ 0 → capacity ≤ self.new.room + 1) }
        ensures unchanged { IfErr result (λ _. self.new ≡ self.old) }
        ensures back { IfErr result (λ e. e.0 ≡ pair) }
        ensures error { IfErr result (λ e. e.1 ≡ TryReserveError.AllocError) }
        ensures full { IfErr result (λ _. (self.old.pairs ≡ []) ⊎ (capacity ≤ length self.old.pairs)) }
        ensures no_room { IfErr result (λ _. self.old.room ≡ 0) }
        ensures at_most { asked.new.requests + load_requests (length self.old.pairs) ≤ asked.old.requests + load_requests (length self.old.pairs + 1) }
        ensures none { 0 < self.old.room → asked.new.requests ≡ asked.old.requests }
    {
        match self.put_in_leaf(pair) {
            None => Ok(()),
            Some(pair) => self.push_growing(pair, asked),
        }
    }

    // Puts the pair into the last leaf where that has room, else it comes back.
    #[inline(always)]
    fn put_in_leaf(&mut self, pair: (K, V)) -> Option<(K, V)>
        ensures put { result ≡ None → self.new.pairs ≡ self.old.pairs ++ pair ∷ [] }
        ensures room { result ≡ None → self.new.room + 1 ≡ self.old.room }
        ensures taken { 0 < self.old.room → result ≡ None }
        ensures back { IfSome result (λ back. (back ≡ pair) × (self.new ≡ self.old)) }
    {
        if let Some(leaf) = &mut self.last {
            if leaf.len() < CAPACITY {
                put_pair(leaf, pair);
                return None;
            }
        }
        Some(pair)
    }

    // The same by what takes memory, whether the last leaf is full or not. It is not inlined, since the pushes that take none would then
    // pay for its locals. Requests for memory are added to `asked`.
    #[inline(never)]
    fn push_growing(
        &mut self,
        pair: (K, V),
        asked: &mut Asked,
    ) -> Result<(), ((K, V), TryReserveError)>
        ensures pairs { IfOk result (λ _. self.new.pairs ≡ self.old.pairs ++ pair ∷ []) }
        ensures room { IfOk result (λ _. 0 < self.old.room → self.new.room + 1 ≡ self.old.room) }
        ensures fresh { IfOk result (λ _. self.old.room ≡ 0 → capacity ≤ self.new.room + 1) }
        ensures unchanged { IfErr result (λ _. self.new ≡ self.old) }
        ensures back { IfErr result (λ e. e.0 ≡ pair) }
        ensures error { IfErr result (λ e. e.1 ≡ TryReserveError.AllocError) }
        ensures full { IfErr result (λ _. (self.old.pairs ≡ []) ⊎ (capacity ≤ length self.old.pairs)) }
        ensures no_room { IfErr result (λ _. self.old.room ≡ 0) }
        ensures at_most { asked.new.requests + load_requests (length self.old.pairs) ≤ asked.old.requests + load_requests (length self.old.pairs + 1) }
    {
        let Some(last) = &mut self.last else {
            return match first_leaf(self.alloc, pair, asked) {
                Ok(leaf) => {
                    self.last = Some(leaf);
                    Ok(())
                }
                Err(back) => Err(back),
            };
        };
        if last.len() < CAPACITY {
            put_pair(last, pair);
            return Ok(());
        }
        // With one leaf more there could be more than `usize::MAX` pairs.
        if self.before >= usize::MAX - 2 * CAPACITY {
            return Err((pair, TryReserveError::AllocError));
        }
        graft_full(self.alloc, &mut self.spine, last, pair, asked)?;
        self.before += CAPACITY + 1;
        Ok(())
    }

    /// The root of a sound tree of the pairs; none where there is no pair.
    pub fn finish(self) -> Option<Node<K, V, A>>
        ensures pairs { entries result ≡ self.pairs }
        ensures sound { IsSoundMap result }
    {
        let GrowingBuilder {
            mut spine,
            last,
            before: _,
            alloc: _,
        } = self;
        let Some(last) = last else {
            return None;
        };
        rebalance_right(close(&mut spine, last))
    }
}

// Whether the key is greater than the leaf's last one.
fn is_after<K: Ord, V, A: Handle>(leaf: &Node<K, V, A>, key: &K) -> bool
    requires { 0 < length (own_pairs leaf.now) }
    ensures { IsTrue result ↔ IsAfterLast K.cmp (own_pairs leaf.now) key.now }
{
    leaf.pair(leaf.len() - 1).0.cmp(key).is_lt()
}

// A leaf of one pair. Requests for memory are added to `asked`.
#[inline(never)]
fn first_leaf<K: Drop, V: Drop, A: Handle>(
    alloc: A,
    pair: (K, V),
    asked: &mut Asked,
) -> Result<Node<K, V, A>, ((K, V), TryReserveError)>
    ensures ok { IfOk result (λ leaf. (own_pairs leaf ≡ pair ∷ []) × IsLeaf leaf) }
    ensures error { IfErr result (λ e. (e.0 ≡ pair) × (e.1 ≡ TryReserveError.AllocError)) }
    ensures requests { asked.new.requests ≡ asked.old.requests + 1 }
{
    match Node::try_leaf(alloc, asked) {
        Ok(mut leaf) => {
            put_pair(&mut leaf, pair);
            Ok(leaf)
        }
        Err(refusal) => Err((pair, refusal)),
    }
}

// Puts the full last leaf and the pair after it at the spine's end, and an empty leaf in its place. Where the spine's last node has room,
// that is the one node that is made. Requests for memory are added to `asked`.
fn graft_full<K: Drop, V: Drop, A: Handle>(
    alloc: A,
    spine: &mut Spine<K, V, A>,
    last: &mut Node<K, V, A>,
    pair: (K, V),
    asked: &mut Asked,
) -> Result<(), ((K, V), TryReserveError)>
    requires levels { IsSpine 0 spine.old × IsSound 0 last.old }
    requires low { length spine.old ≤ most_height }
    ensures empty { IfOk result (λ _. IsEmptyLeaf last.new) }
    ensures pairs { IfOk result (λ _. before_back spine.new ≡ before_back spine.old ++ (pairs_of last.old ++ pair ∷ [])) }
    ensures levels { IfOk result (λ _. IsSpine 0 spine.new × (length spine.new ≤ most_height)) }
    ensures unchanged { IfErr result (λ e. (spine.new ≡ spine.old) × (last.new ≡ last.old) × (e.0 ≡ pair)) }
    ensures error { IfErr result (λ e. e.1 ≡ TryReserveError.AllocError) }
    ensures worth { IfOk result (λ _. worth spine.new ≡ worth spine.old + 1) }
    ensures short { IfOk result (λ _. (d : ℕ) → length spine.old ≤ d → needed spine.old ≤ d → length spine.new ≤ d) }
    ensures at_most { asked.new.requests ≤ asked.old.requests + 1 + 3 * needed spine.old }
{
    if !has_room(spine) {
        return graft_above(alloc, spine, last, pair, asked);
    }
    match Node::try_leaf(alloc, asked) {
        Ok(empty) => {
            let leaf = mem::replace(last, empty);
            put_in_room(spine, leaf, pair);
            Ok(())
        }
        Err(error) => Err((pair, error)),
    }
}

// The same by what makes inner nodes, whether they are needed or not. Requests for memory are added to `asked`.
#[inline(never)]
fn graft_above<K: Drop, V: Drop, A: Handle>(
    alloc: A,
    spine: &mut Spine<K, V, A>,
    last: &mut Node<K, V, A>,
    pair: (K, V),
    asked: &mut Asked,
) -> Result<(), ((K, V), TryReserveError)>
    requires levels { IsSpine 0 spine.old × IsSound 0 last.old }
    requires low { length spine.old ≤ most_height }
    ensures empty { IfOk result (λ _. IsEmptyLeaf last.new) }
    ensures pairs { IfOk result (λ _. before_back spine.new ≡ before_back spine.old ++ (pairs_of last.old ++ pair ∷ [])) }
    ensures levels { IfOk result (λ _. IsSpine 0 spine.new × (length spine.new ≤ most_height)) }
    ensures unchanged { IfErr result (λ e. (spine.new ≡ spine.old) × (last.new ≡ last.old) × (e.0 ≡ pair)) }
    ensures error { IfErr result (λ e. e.1 ≡ TryReserveError.AllocError) }
    ensures worth { IfOk result (λ _. worth spine.new ≡ worth spine.old + 1) }
    ensures short { IfOk result (λ _. (d : ℕ) → length spine.old ≤ d → needed spine.old ≤ d → length spine.new ≤ d) }
    ensures at_most { asked.new.requests ≤ asked.old.requests + 1 + 3 * needed spine.old }
{
    match try_leaf_and_inner(alloc, needed(spine), asked) {
        Ok((empty, mut spares)) => {
            let leaf = mem::replace(last, empty);
            attach(spine, leaf, pair, &mut spares);
            Ok(())
        }
        Err(e) => Err((pair, e)),
    }
}

// A leaf and so many inner nodes. For more than a tree has levels above its leaves none are made, so that no tree gets too high; as many as
// `usize::MAX` pairs never need them. Requests for memory are added to `asked`.
fn try_leaf_and_inner<K: Drop, V: Drop, A: Handle>(
    alloc: A,
    inner: usize,
    asked: &mut Asked,
) -> Result<(Node<K, V, A>, Vec<Node<K, V, A>, A>), TryReserveError>
    ensures leaf { IfOk result (λ nodes. IsEmptyLeaf nodes.0) }
    ensures inner { IfOk result (λ nodes. (length nodes.1.items ≡ inner) × AllByRecursion (λ b. IsEmptyInner b) nodes.1.items × (inner ≤ most_height)) }
    ensures error { IfErr result (λ e. e ≡ TryReserveError.AllocError) }
    ensures at_most { asked.new.requests ≤ asked.old.requests + 1 + list_requests 2 inner }
{
    if inner >= MAX_STEPS {
        return Err(TryReserveError::AllocError);
    }
    let leaf = Node::try_leaf(alloc, asked)?;
    let spares = try_inner_nodes(alloc, inner, asked)?;
    Ok((leaf, spares))
}
