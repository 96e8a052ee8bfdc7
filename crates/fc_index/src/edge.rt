//! The items of an index whose keys lie within two bounds.
ghost use Rattle.std.specs.Prelude.{◌≡◌};
ghost use Rattle.fc_base.specs.Ranges.{bound_by};
ghost use Rattle.fc_set.specs.Items.{items, items_within, AreAscending};
ghost use Rattle.fc_set.proofs.EdgeFacts.{edges_fit};
ghost use Rattle.fc_index.specs.Edges.{edge_order, start_edge, end_edge};
ghost use Rattle.fc_index.specs.Rows.{key_then_id};

use fc_base::{Handle, Query};
use fc_set::set::{BTreeSet, Range};
use std::cmp::Ordering;
use std::ops::Bound;

// A place in an index: before all items of the key, or after all of them.
#[derive(Clone, Copy, Drop)]
struct Edge<K> {
    key: K,
    before: bool,
}

impl<K: Ord + Copy, I: Ord> Query<(K, I)> for Edge<K> {
    ghost use Rattle.std.specs.Prelude.{Bool};

    ghost Sought = { K × Bool };

    ghost sought = { λ q. (q.key, q.before) };

    ghost order = { edge_order K.cmp };

    ghost fits = { edges_fit K.cmp I.cmp K.total };

    fn order_of(&self, item: &(K, I)) -> Ordering {
        let side = if self.before {
            Ordering::Greater
        } else {
            Ordering::Less
        };
        match item.0.cmp(&self.key) {
            Ordering::Equal => side,
            apart => apart,
        }
    }
}

// Where the items start whose keys are not before a start.
fn start_of<K: Copy>(lo: Bound<K>) -> Bound<Edge<K>>
    ensures { bound_by (λ q. (q.key, q.before)) result ≡ start_edge lo }
{
    match lo {
        Bound::Included(key) => Bound::Included(Edge { key, before: true }),
        Bound::Excluded(key) => Bound::Included(Edge { key, before: false }),
        Bound::Unbounded => Bound::Unbounded,
    }
}

// Where the items end whose keys are not after an end.
fn end_of<K: Copy>(hi: Bound<K>) -> Bound<Edge<K>>
    ensures { bound_by (λ q. (q.key, q.before)) result ≡ end_edge hi }
{
    match hi {
        Bound::Included(key) => Bound::Included(Edge { key, before: false }),
        Bound::Excluded(key) => Bound::Included(Edge { key, before: true }),
        Bound::Unbounded => Bound::Unbounded,
    }
}

/// A walk over the items whose keys lie within the bounds, in the order of the keys, and of the ids where keys are equal.
pub(crate) fn items_between<'a, K: Ord + Copy, I: Ord, H: Handle>(
    index: &'a BTreeSet<(K, I), H>,
    lo: Bound<K>,
    hi: Bound<K>,
) -> Range<'a, (K, I), H>
    ensures items { result ≡ items_within (edge_order K.cmp) (start_edge lo) (end_edge hi) (items index.now) }
    ensures ascending { AreAscending (key_then_id K.cmp I.cmp) (items index.now) }
{
    index.range((start_of(lo), end_of(hi)))
}
