//! The text of a cache by `{:?}`.
use super::Cache;
use fc_base::Handle;
use std::fmt::{self, Debug};
use std::hash::Hash;

/// `{key: value, ..}`, from the least to the most lately used.
impl<K: Eq + Hash + Debug, V: Debug, A: Handle> Debug for Cache<K, V, A> {
    fn fmt<W: fmt::Write>(&self, f: &mut fmt::Formatter<W>) -> fmt::Result {
        f.debug_map().entries(self.iter()).finish()
    }
}
