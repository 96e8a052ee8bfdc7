//! Reading walks over the pairs of a map within two bounds.
ghost use Rattle.std.specs.Prelude.{◌≡◌, ◌≤◌, length};

use super::BTreeMap;
use fc_base::Handle;
pub use fc_map_iter::range::Range;
use fc_tree_cursor::key_range::KeyRange;

impl<K: Ord, V, A: Handle> BTreeMap<K, V, A> {
    ghost use Rattle.fc_base.specs.Ascending.{IsAscending};
    ghost use Rattle.fc_base.specs.Ranges.{within};
    ghost use Rattle.fc_map.specs.Entries.{entries};

    /// A walk over the pairs whose keys lie within the range, in ascending order of their keys: one of Rust's own ranges of keys, as
    /// `3..7` or `..=7`, or a pair of bounds by a `Query`, as in `get`: by references to keys, or by a borrowed form of them, so that pairs
    /// of a `String` and what it begins with are had by two `&str`.
    /// A bound is found in one way down the tree, two in the same one until they part; an end without a bound when the walk first needs it.
    /// The steps of the walk compare no key. Bounds that are no range, within which no key can lie, make a walk that is empty: upstream
    /// panics. `is_range` is the test of them. Upstream: `BTreeMap::range`.
    pub fn range<R: KeyRange<K>>(&self, bounds: R) -> Range<'_, K, V, A>
        ensures pairs { result ≡ within R.order (R.start bounds) (R.end bounds) (entries self.now) }
        ensures fits { length result ≤ usize.MAX }
        ensures ascending { IsAscending K.cmp (entries self.now) }
    {
        // As many pairs as the map has can be counted, and so can those of a range.
        prove!(self.len <= usize::MAX);
        Range::within(&self.root, &bounds)
    }
}
