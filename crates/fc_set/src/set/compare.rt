//! Equality, order and hash of sets: those of their items in order.
ghost use Rattle.std.specs.Cmp.{on_per, on_equiv, on_po, on_total};
ghost use Rattle.std.specs.Cmp.Lexicographic.{pointwise, slice_cmp, slice_partial_cmp, lists_per, lists_equiv, lists_po, lists_total, lists_agrees, lists_ties};
ghost use Rattle.std.specs.Hash.{on_Alike};
ghost use Rattle.std.specs.List.{flat_map};
ghost use Rattle.fc_set.specs.Items.{items};
ghost use Rattle.fc_set.specs.HashLaws.{items_alike};

use super::BTreeSet;
use fc_base::Handle;
use std::cmp::Ordering;
use std::hash::{Hash, Hasher};

/// Equal are sets of as many items, equal in order.
impl<T: Ord, A: Handle> PartialEq for BTreeSet<T, A> {
    ghost eq = { λ s t. pointwise T.eq (items s) (items t) };

    ghost laws = { on_per items (lists_per T.PartialEq.laws) };

    fn eq(&self, other: &BTreeSet<T, A>) -> bool {
        self.map == other.map
    }
}

impl<T: Ord, A: Handle> Eq for BTreeSet<T, A> {
    ghost laws = { on_equiv items (lists_equiv T.Eq.laws) };
}

/// The first items that are not equal decide; where there are none, the set of fewer items comes first.
impl<T: Ord, A: Handle> PartialOrd for BTreeSet<T, A> {
    ghost partial_cmp = { λ s t. slice_partial_cmp T.partial_cmp (items s) (items t) };

    ghost laws = { on_po items (lists_po T.PartialOrd.laws) };

    fn partial_cmp(&self, other: &BTreeSet<T, A>) -> Option<Ordering> {
        self.map.partial_cmp(&other.map)
    }
}

/// As `PartialOrd`.
impl<T: Ord, A: Handle> Ord for BTreeSet<T, A> {
    ghost cmp = { λ s t. slice_cmp T.cmp (items s) (items t) };

    ghost total = { on_total items (lists_total T.total) };

    ghost matches_partial_cmp = { λ s t. lists_agrees T.matches_partial_cmp (items s) (items t) };

    ghost matches_eq = { λ s t. lists_ties T.cmp T.matches_eq (items s) (items t) };

    fn cmp(&self, other: &BTreeSet<T, A>) -> Ordering {
        self.map.cmp(&other.map)
    }
}

/// Feeds each item in order, and nothing else.
impl<T: Ord + Hash, A: Handle> Hash for BTreeSet<T, A> {
    ghost hash_input = { λ s. flat_map T.hash_input (items s) };

    ghost respects_eq = { (on_Alike items (items_alike (record { fed = T.respects_eq }))).fed };

    fn hash<H: Hasher>(&self, state: &mut H) {
        self.map.hash(state);
    }
}
