//! The texts of maps and of their entries by `{:?}`.
use super::{BTreeMap, Entry, OccupiedEntry, VacantEntry};
use fc_base::Handle;
use std::fmt::{self, Debug};

/// `{key: value, ..}`, in ascending order of the keys. Upstream: `Debug` for `BTreeMap`.
impl<K: Ord + Debug, V: Debug, A: Handle> Debug for BTreeMap<K, V, A> {
    fn fmt<W: fmt::Write>(&self, f: &mut fmt::Formatter<W>) -> fmt::Result {
        f.debug_map().entries(self.iter()).finish()
    }
}

/// `Entry(..)`, with the text of the vacant or the occupied entry. Upstream: `Debug` for `Entry`.
impl<'a, K: Ord + Debug, V: Debug, A: Handle> Debug for Entry<'a, K, V, A> {
    fn fmt<W: fmt::Write>(&self, f: &mut fmt::Formatter<W>) -> fmt::Result {
        match self {
            Entry::Vacant(entry) => f.debug_tuple("Entry").field(entry).finish(),
            Entry::Occupied(entry) => f.debug_tuple("Entry").field(entry).finish(),
        }
    }
}

/// `VacantEntry(key)`, with the key that was searched for. Upstream: `Debug` for `VacantEntry`.
impl<'a, K: Ord + Debug, V, A: Handle> Debug for VacantEntry<'a, K, V, A> {
    fn fmt<W: fmt::Write>(&self, f: &mut fmt::Formatter<W>) -> fmt::Result {
        f.debug_tuple("VacantEntry").field(self.key()).finish()
    }
}

/// `OccupiedEntry { key: .., value: .. }`. Upstream: `Debug` for `OccupiedEntry`.
impl<'a, K: Ord + Debug, V: Debug, A: Handle> Debug for OccupiedEntry<'a, K, V, A> {
    fn fmt<W: fmt::Write>(&self, f: &mut fmt::Formatter<W>) -> fmt::Result {
        f.debug_struct("OccupiedEntry")
            .field("key", self.key())
            .field("value", self.get())
            .finish()
    }
}
