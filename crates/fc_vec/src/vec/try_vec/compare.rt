//! Equality, order and hashes of vectors: those of their items, in order.
ghost use Rattle.std.specs.Cmp.{on_equiv, on_per, on_po, on_total};
ghost use Rattle.std.specs.Cmp.Lexicographic.{lists_agrees, lists_equiv, lists_per, lists_po, lists_ties, lists_total, pointwise, slice_cmp, slice_partial_cmp};
ghost use Rattle.std.specs.Hash as fed;
ghost use Rattle.std.specs.Hash.{items_Alike, on_Alike};

use super::TryVec;
use fc_base::Handle;
use std::cmp::Ordering;
use std::hash::{Hash, Hasher};

/// Equal are vectors of as many items, equal in order.
impl<T: PartialEq, A: Handle> PartialEq for TryVec<T, A> {
    ghost eq = { λ v w. pointwise T.eq v.items w.items };

    ghost laws = { on_per (λ v. v.items) (lists_per T.laws) };

    fn eq(&self, other: &TryVec<T, A>) -> bool {
        self.inner == other.inner
    }
}

impl<T: Eq, A: Handle> Eq for TryVec<T, A> {
    ghost laws = { on_equiv (λ v. v.items) (lists_equiv T.Eq.laws) };
}

/// The first two items that differ tell; where none do, the shorter vector is less.
impl<T: PartialOrd, A: Handle> PartialOrd for TryVec<T, A> {
    ghost partial_cmp = { λ v w. slice_partial_cmp T.partial_cmp v.items w.items };

    ghost laws = { on_po (λ v. v.items) (lists_po T.PartialOrd.laws) };

    fn partial_cmp(&self, other: &TryVec<T, A>) -> Option<Ordering> {
        self.inner.partial_cmp(&other.inner)
    }
}

/// The first two items that differ tell; where none do, the shorter vector is less.
impl<T: Ord, A: Handle> Ord for TryVec<T, A> {
    ghost cmp = { λ v w. slice_cmp T.cmp v.items w.items };

    ghost total = { on_total (λ v. v.items) (lists_total T.total) };

    ghost matches_partial_cmp = { λ v w. lists_agrees T.matches_partial_cmp v.items w.items };

    ghost matches_eq = { λ v w. lists_ties T.cmp T.matches_eq v.items w.items };

    fn cmp(&self, other: &TryVec<T, A>) -> Ordering {
        self.inner.cmp(&other.inner)
    }
}

/// The hash of std's vector of these items.
impl<T: Hash, A: Handle> Hash for TryVec<T, A> {
    ghost hash_input = { λ v. fed.slice T.hash_input v.items };

    ghost respects_eq = { (on_Alike (λ v. v.items) (items_Alike (record { fed = T.respects_eq }))).fed };

    fn hash<H: Hasher>(&self, state: &mut H) {
        self.inner.hash(state);
    }
}
