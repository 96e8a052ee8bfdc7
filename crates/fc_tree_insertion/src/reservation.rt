//! Reservations: the nodes of several insertions, allocated before the first of them.
ghost use Rattle.std.specs.Prelude.{◌≡◌, ℕ, ◌+◌, ◌-◌, ◌*◌, ◌^◌, ◌<◌, ◌≤◌, length, IfOk, IfErr, IsOk, IsErr, Some};
ghost use Rattle.fc_base.specs.Sizes.{least_children, most_levels};
ghost use Rattle.fc_tree_node.specs.Node.{pairs_of, IsLevelled};
ghost use Rattle.fc_tree_node.specs.Path.{IsPath};
ghost use Rattle.fc_tree_node.specs.Requests.{list_requests};
ghost use Rattle.fc_tree_node.specs.Tree.{IsSoundMap};
ghost use Rattle.fc_tree_insertion.specs.Cascade.{nodes_needed};
ghost use Rattle.fc_tree_insertion.specs.Reservation.{IsOverDepth, IsFewestOver, reservation_error};

use crate::new_nodes::NewNodes;
use crate::pool::NodePool;
use fc_base::{Asked, Handle, TryReserveError};
use fc_tree_node::node::{MIN_LEN, Node};
use fc_tree_node::path::{MAX_STEPS, Path};
use std::alloc::Global;
use std::marker::Model;

/// Nodes reserved for insertions of new keys, wherever they fall: enough for each of them, taken before the first. A contract sees how many
/// insertions are left, `places`, and `pairs`, of which a map has to have fewer to be served. Dropped, it gives back the nodes that are left.
#[derive(Drop)]
pub struct Reservation<K, V, A: Handle = Global> {
    pool: NodePool<K, V, A>,
    places: usize,
    pairs: usize,
    // The most nodes that one insertion takes: one for each level that a tree of so many pairs can have.
    levels: usize,
}

impl<K, V, A: Handle> Model for Reservation<K, V, A> {
    ghost use Rattle.std.specs.Prelude.{◌*◌, ◌≤◌};
    ghost use Rattle.fc_tree_insertion.specs.Reservation.{Places, IsOverDepth};

    ghost Value = { Places };

    ghost view = { λ r. record { places = r.places; pairs = r.pairs } };

    ghost invariant = { λ r. (r.places * r.levels ≤ r.pool) × (1 ≤ r.levels) × IsOverDepth r.levels r.pairs };
}

impl<K, V, A: Handle> Reservation<K, V, A> {
    /// How many insertions of a new key are left.
    pub fn places(&self) -> usize
        ensures { result ≡ self.now.places }
    {
        self.places
    }

    /// A map of fewer pairs than these can be served.
    pub fn pairs(&self) -> usize
        ensures { result ≡ self.now.pairs }
    {
        self.pairs
    }
}

impl<K: Drop, V: Drop, A: Handle> Reservation<K, V, A> {
    /// Takes the nodes for so many insertions into a map of so many pairs. For none it takes no memory, and is Ok.
    ///
    /// # Errors
    /// `CapacityOverflow` where the pairs and the insertions together pass `usize::MAX`, or `MAX_STEPS` nodes for each insertion do, and then
    /// always; else `AllocError`, where a request for memory was refused. Nothing is then left after.
    pub fn try_new(
        alloc: A,
        pairs: usize,
        insertions: usize,
    ) -> Result<Reservation<K, V, A>, TryReserveError>
        ensures places { IfOk result (λ reservation. reservation.places ≡ insertions) }
        ensures pairs { IfOk result (λ reservation. reservation.pairs ≡ pairs + insertions) }
        ensures none { insertions ≡ 0 → IsOk result }
        ensures error { IfErr result (λ e. e ≡ reservation_error pairs insertions) }
        ensures overflow { reservation_error pairs insertions ≡ TryReserveError.CapacityOverflow → IsErr result }
    {
        Self::try_new_asked(alloc, pairs, insertions, &mut Asked::new())
    }

    /// `try_new`, with its requests for memory added to `asked`: one for the list of the nodes, and two for each; where it is refused, no more.
    ///
    /// # Errors
    /// As `try_new`.
    pub fn try_new_asked(
        alloc: A,
        pairs: usize,
        insertions: usize,
        asked: &mut Asked,
    ) -> Result<Reservation<K, V, A>, TryReserveError>
        ensures places { IfOk result (λ reservation. reservation.places ≡ insertions) }
        ensures pairs { IfOk result (λ reservation. reservation.pairs ≡ pairs + insertions) }
        ensures none { insertions ≡ 0 → IsOk result }
        ensures error { IfErr result (λ e. e ≡ reservation_error pairs insertions) }
        ensures overflow { reservation_error pairs insertions ≡ TryReserveError.CapacityOverflow → IsErr result }
        ensures requests { IfOk result (λ _. (levels : ℕ) → IsFewestOver levels (pairs + insertions) → asked.new.requests ≡ asked.old.requests + list_requests 2 (insertions * levels)) }
        ensures at_most { (levels : ℕ) → IsFewestOver levels (pairs + insertions) → asked.new.requests ≤ asked.old.requests + list_requests 2 (insertions * levels) }
    {
        if insertions > usize::MAX - pairs || insertions > usize::MAX / MAX_STEPS {
            return Err(TryReserveError::CapacityOverflow);
        }
        let pairs = pairs + insertions;
        let levels = levels_over(pairs);
        let pool = NodePool::try_new(alloc, insertions * levels, asked)?;
        Ok(Reservation {
            pool,
            places: insertions,
            pairs,
            levels,
        })
    }

    /// Takes out the nodes of an insertion into the gap of a sound tree that the path leads to, and so uses a place up. The tree is only
    /// read.
    pub fn take_for(&mut self, root: &Node<K, V, A>, path: &Path) -> NewNodes<K, V, A>
        requires place { 0 < self.old.places }
        requires fits { length (pairs_of root.now) < self.old.pairs }
        requires sound { IsSoundMap (Some root.now) }
        requires path { IsPath path.now root.now }
        requires levels { (h : ℕ) → IsLevelled h root.now → length path.now ≡ h + 1 }
        ensures taken { result ≡ nodes_needed path.now root.now }
        ensures fits { length (pairs_of root.now) < usize.MAX }
        ensures places { self.new.places + 1 ≡ self.old.places }
        ensures pairs { self.new.pairs ≡ self.old.pairs }
    {
        self.places -= 1;
        self.pool.take_new_nodes(root, path.as_slice())
    }

    /// Takes out the one node that the first pair of a tree needs, and so uses a place up.
    pub fn take_first(&mut self) -> NewNodes<K, V, A>
        requires { 0 < self.old.places }
        ensures taken { result ≡ 1 }
        ensures places { self.new.places + 1 ≡ self.old.places }
        ensures pairs { self.new.pairs ≡ self.old.pairs }
    {
        self.places -= 1;
        self.pool.take_first()
    }
}

// More levels than a tree of so many pairs can have below its root, and the fewest such, but at least one.
fn levels_over(pairs: usize) -> usize
    ensures over { IsOverDepth result pairs }
    ensures some { 1 ≤ result }
    ensures least { 1 < result → 2 * least_children ^ (result - 1) ≤ pairs }
    ensures few { result ≤ most_levels }
{
    if pairs < 2 * (MIN_LEN + 1) {
        return 1;
    }
    levels_over(pairs / (MIN_LEN + 1)) + 1
}
