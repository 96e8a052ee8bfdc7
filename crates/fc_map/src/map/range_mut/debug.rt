//! The text of a writing walk over a range by `{:?}`.
use super::RangeMut;
use crate::map::Range;
use fc_base::Handle;
use std::fmt::{self, Debug};
use std::ops::Bound;

impl<'a, K: Ord, V, A: Handle> RangeMut<'a, K, V, A> {
    // The pairs whose values are still to be lent, if there are any: those between the keys of the first and the last.
    fn rest(&self) -> Option<Range<'_, K, V, A>> {
        let first = self.peek()?;
        let last = self.peek_back()?;
        let bounds = (Bound::Included(first.0), Bound::Included(last.0));
        Some(self.map.range(bounds))
    }
}

/// `[(key, value), ..]`, the pairs whose values are still to be lent; the walk stays where it is. It compares keys, to find where these pairs begin
/// and end. Upstream: `Debug` for `btree_map::RangeMut`.
impl<'a, K: Ord + Debug, V: Debug, A: Handle> Debug for RangeMut<'a, K, V, A> {
    fn fmt<W: fmt::Write>(&self, f: &mut fmt::Formatter<W>) -> fmt::Result {
        let mut list = f.debug_list();
        if let Some(rest) = self.rest() {
            list.entries(rest);
        }
        list.finish()
    }
}
