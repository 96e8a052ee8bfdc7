//! The text of a hashed map by `{:?}`.
use super::TryHashMap;
use fc_base::Handle;
use std::fmt::{self, Debug};
use std::hash::Hash;

/// `{key: value, ..}`, by `{:?}` of each key and value, in the order of a walk. Upstream: `Debug` for `TryHashMap`.
impl<K: Eq + Hash + Debug, V: Debug, A: Handle> Debug for TryHashMap<K, V, A> {
    fn fmt<W: fmt::Write>(&self, f: &mut fmt::Formatter<W>) -> fmt::Result {
        f.debug_map().entries(self.inner.iter()).finish()
    }
}
