//! The text of the owned walk over keys by `{:?}`.
use super::IntoKeys;
use fc_base::Handle;
use std::fmt::{self, Debug};

/// `IntoKeys { pairs: [(key, value), ..] }`, with the keys that are left and their values, which are still there. Not in upstream: std's map shows the
/// keys alone.
impl<K: Debug, V: Debug, A: Handle> Debug for IntoKeys<K, V, A> {
    fn fmt<W: fmt::Write>(&self, f: &mut fmt::Formatter<W>) -> fmt::Result {
        f.debug_struct("IntoKeys")
            .field("pairs", &self.pairs)
            .finish()
    }
}
