//! Where the keys of a tree are cut by a bound of a range, and the place of a cut in a node.
ghost use Rattle.std.specs.Prelude.{◌≡◌, ◌≤◌, length};
ghost use Rattle.fc_tree_node.specs.Node.{own_pairs};
ghost use Rattle.fc_tree_cursor.specs.Cut.{start_cut, stop_cut, leads, lies_before, IsTurn};

use fc_base::{Handle, Query};
use fc_tree_node::node::Node;
use std::cmp::Ordering;
use std::ops::Bound;

/// A cut between ascending keys, by what they are searched by.
#[derive(Clone, Copy)]
pub enum Cut<Q> {
    /// Before all keys.
    First,
    /// After the keys below what is sought.
    Before(Q),
    /// After the keys that are not above what is sought.
    After(Q),
    /// After all keys.
    Last,
}

/// The cut at the start of a range.
pub(crate) fn start_of<Q: Copy>(lo: &Bound<Q>) -> Cut<Q>
    ensures { result ≡ start_cut lo.now }
{
    match lo {
        Bound::Included(key) => Cut::Before(*key),
        Bound::Excluded(key) => Cut::After(*key),
        Bound::Unbounded => Cut::First,
    }
}

/// The cut at the end of a range.
pub(crate) fn stop_of<Q: Copy>(hi: &Bound<Q>) -> Cut<Q>
    ensures { result ≡ stop_cut hi.now }
{
    match hi {
        Bound::Included(key) => Cut::After(*key),
        Bound::Excluded(key) => Cut::Before(*key),
        Bound::Unbounded => Cut::Last,
    }
}

/// The first of the node's own pairs from a place on that is not before the cut, or their end.
pub(crate) fn place_in<K: Ord, V, Q: Query<K>, A: Handle>(
    node: &Node<K, V, A>,
    cut: &Cut<Q>,
    from: usize,
) -> usize
    requires { from ≤ length (own_pairs node.now) }
    ensures { IsTurn (λ e. leads Q.order Q.sought cut.now e.0) (own_pairs node.now) from result }
{
    match cut {
        Cut::First => from,
        Cut::Before(key) => first_not_before(node, *key, false, from),
        Cut::After(key) => first_not_before(node, *key, true, from),
        Cut::Last => node.len(),
    }
}

// The first of the node's own pairs from a place on whose key is not before what is sought, or their end.
#[inline(always)]
#[tactic(auto, using(crate::proofs::Turns::held_on, crate::proofs::Turns::not_there))]
fn first_not_before<K: Ord, V, Q: Query<K>, A: Handle>(
    node: &Node<K, V, A>,
    key: Q,
    takes_equal: bool,
    from: usize,
) -> usize
    requires { from ≤ length (own_pairs node.now) }
    ensures { IsTurn (λ e. lies_before takes_equal (Q.order e.0 (Q.sought key))) (own_pairs node.now) from result }
{
    let n = node.len();
    for i in from..n {
        if !lies_before(key.order_of(&node.pair(i).0), takes_equal) {
            return i;
        }
    }
    n
}

// Whether a key that stands so to what is sought is before it, or is equal where the flag says so.
#[inline(always)]
fn lies_before(order: Ordering, takes_equal: bool) -> bool
    ensures { result ≡ lies_before takes_equal order }
{
    if takes_equal {
        order.is_le()
    } else {
        order.is_lt()
    }
}
