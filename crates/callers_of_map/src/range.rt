//! What callers prove of ranges through their public clauses alone.
ghost use Rattle.std.specs.Prelude.{◌≡◌, List, ◌∷◌, [], length, true, false, MatchOption, MatchBool};
ghost use Rattle.std.specs.declared.ops.Bound.TheVariants.{Included, Excluded, Unbounded};
ghost use Rattle.fc_base.specs.Ranges.{bound_now, is_range, within};
ghost use Rattle.fc_map.specs.Entries.{entries};
ghost use Rattle.fc_map.specs.Walks.{deref_pair};

use fc_map::map::{BTreeMap, Range, is_range};
use std::ops::Bound;

/// The first pair whose key is not below this one, if there is one, and the walk over those after it.
pub fn first_from<'a, K: Ord + Drop, V: Drop>(
    map: &'a BTreeMap<K, V>,
    key: &K,
) -> Option<((&'a K, &'a V), Range<'a, K, V>)>
    ensures { let from = within K.cmp (Included key.now) Unbounded (entries map.now) in MatchOption result (from ≡ []) (λ r. from ≡ deref_pair r.0 ∷ r.1) }
{
    let mut range = map.range((Bound::Included(key), Bound::Unbounded));
    match range.next() {
        Some(pair) => Some((pair, range)),
        None => None,
    }
}

/// How many pairs lie within the bounds: `None` where they are no range.
pub fn count_within<K: Ord + Drop, V: Drop>(
    map: &BTreeMap<K, V>,
    lo: Bound<&K>,
    hi: Bound<&K>,
) -> Option<usize>
    ensures { MatchOption result (is_range K.cmp (bound_now lo.entry) (bound_now hi.entry) ≡ false) (λ n. n ≡ length (within K.cmp (bound_now lo.entry) (bound_now hi.entry) (entries map.now))) }
{
    if is_range(&lo, &hi) {
        Some(map.range((lo, hi)).count())
    } else {
        None
    }
}
