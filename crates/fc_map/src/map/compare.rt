//! Equality, order and hash of maps: those of their pairs in order, each by its key and then by its value.
ghost use Rattle.std.specs.Cmp.{on_per, on_equiv, on_po, on_total};
ghost use Rattle.std.specs.Cmp.Lexicographic.{pointwise, slice_cmp, slice_partial_cmp};
ghost use Rattle.std.specs.Hash.{on_Alike};
ghost use Rattle.std.specs.List.{flat_map};
ghost use Rattle.fc_map.specs.Compare.{pair_eq, pair_cmp, pair_partial_cmp, pair_input};
ghost use Rattle.fc_map.specs.CompareLaws.{pairs_per, pairs_equiv, pairs_po, pairs_total, pairs_agree, pairs_tie, pairs_Alike};
ghost use Rattle.fc_map.specs.Entries.{entries};

use super::BTreeMap;
use fc_base::Handle;
use fc_map_iter::compare::{are_equal, order, partial_order};
use std::cmp::Ordering;
use std::hash::{Hash, Hasher};

/// Equal are maps of as many pairs, with equal keys and equal values in order.
impl<K: Ord, V: PartialEq, A: Handle> PartialEq for BTreeMap<K, V, A> {
    ghost eq = { λ m n. pointwise (pair_eq K.eq V.eq) (entries m) (entries n) };

    ghost laws = { on_per entries (pairs_per K.PartialEq.laws V.laws) };

    fn eq(&self, other: &BTreeMap<K, V, A>) -> bool {
        are_equal(self.iter(), other.iter())
    }
}

impl<K: Ord, V: Eq, A: Handle> Eq for BTreeMap<K, V, A> {
    ghost laws = { on_equiv entries (pairs_equiv K.Eq.laws V.Eq.laws) };
}

/// The first pairs that are not equal decide, by their keys and then by their values; where there are none, the map of fewer pairs
/// comes first.
impl<K: Ord, V: PartialOrd, A: Handle> PartialOrd for BTreeMap<K, V, A> {
    ghost partial_cmp = { λ m n. slice_partial_cmp (pair_partial_cmp K.partial_cmp V.partial_cmp) (entries m) (entries n) };

    ghost laws = { on_po entries (pairs_po K.PartialOrd.laws V.PartialOrd.laws) };

    fn partial_cmp(&self, other: &BTreeMap<K, V, A>) -> Option<Ordering> {
        partial_order(self.iter(), other.iter())
    }
}

/// As `PartialOrd`.
impl<K: Ord, V: Ord, A: Handle> Ord for BTreeMap<K, V, A> {
    ghost cmp = { λ m n. slice_cmp (pair_cmp K.cmp V.cmp) (entries m) (entries n) };

    ghost total = { on_total entries (pairs_total K.total V.total) };

    ghost matches_partial_cmp = { λ m n. pairs_agree K.matches_partial_cmp V.matches_partial_cmp (entries m) (entries n) };

    ghost matches_eq = { λ m n. pairs_tie K.cmp V.cmp K.matches_eq V.matches_eq (entries m) (entries n) };

    fn cmp(&self, other: &BTreeMap<K, V, A>) -> Ordering {
        order(self.iter(), other.iter())
    }
}

/// Feeds each key and its value in order, and nothing else.
impl<K: Ord + Hash, V: Hash, A: Handle> Hash for BTreeMap<K, V, A> {
    ghost hash_input = { λ m. flat_map (pair_input K.hash_input V.hash_input) (entries m) };

    ghost respects_eq = { (on_Alike entries (pairs_Alike (record { fed = K.respects_eq }) (record { fed = V.respects_eq }))).fed };

    fn hash<H: Hasher>(&self, state: &mut H) {
        for (key, value) in self {
            key.hash(state);
            value.hash(state);
        }
    }
}
