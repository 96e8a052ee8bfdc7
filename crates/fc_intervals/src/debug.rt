//! The text of a map of stretches by `{:?}`.
use crate::map::IntervalMap;
use fc_base::Handle;
use std::fmt::{self, Debug};

/// `{start..end: value, ..}`, in ascending order.
impl<K: Ord + Copy + Debug, V: Debug, A: Handle> Debug for IntervalMap<K, V, A> {
    fn fmt<W: fmt::Write>(&self, f: &mut fmt::Formatter<W>) -> fmt::Result {
        let mut map = f.debug_map();
        for (start, stretch) in self.iter() {
            map.entry(&(*start..stretch.end), &stretch.value);
        }
        map.finish()
    }
}
