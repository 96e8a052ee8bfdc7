//! Bounds of a range of keys.
ghost use Rattle.std.specs.Prelude.{◌≡◌};
ghost use Rattle.fc_base.specs.Ranges.{bound_now, is_range};

use std::cmp::Ordering;
use std::ops::Bound;

/// Whether two bounds make a range: false exactly where both ends are bounded and the start is above the end, or the two are
/// equal and both excluded. It is the test of what `BTreeMap::range` asks of its bounds.
pub fn is_range<K: Ord>(lo: &Bound<&K>, hi: &Bound<&K>) -> bool
    ensures { result ≡ is_range K.cmp (bound_now lo.now) (bound_now hi.now) }
{
    match (lo, hi) {
        (Bound::Unbounded, _) | (_, Bound::Unbounded) => true,
        (Bound::Excluded(a), Bound::Excluded(b)) => a.cmp(b) == Ordering::Less,
        (Bound::Included(a) | Bound::Excluded(a), Bound::Included(b) | Bound::Excluded(b)) => {
            a.cmp(b) != Ordering::Greater
        }
    }
}
